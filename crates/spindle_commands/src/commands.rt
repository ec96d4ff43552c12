//! The commands: what each makes of its numbers, its input and its output.
use crate::faults::faults;
use crate::grid::{ends, grid};
use crate::output::{write_line, write_named_lines};
use crate::squares::{squares, squares_in_slots};
use crate::steps::play;
use crate::stop::Stop;
use crate::words::Command;
use spindle::cut::piece_lengths;
use spindle::prelude::*;
use std::io::{Read, Write};

/// Does what the words say, the program's name left out.
///
/// All words are judged before anything is read or run. What was answered before a stop stands.
pub fn run<H: Threads + Wait + Sync, R: Read, W: Write>(
    rt: &H,
    alloc: Global,
    words: &[String],
    input: &mut R,
    output: &mut W,
) -> Result<(), Stop> {
    match Command::from_words(words).ok_or(Stop::Words)? {
        Command::Cut { len, jobs } => {
            let lengths = piece_lengths(alloc, len as usize, jobs as usize)?;
            write_line(alloc, output, lengths.as_slice())
        }
        Command::Squares(plan) => {
            let squares = squares(rt, alloc, plan)?;
            write_line(alloc, output, squares.as_slice())
        }
        Command::Slots(plan, slots) => {
            let squares = squares_in_slots(rt, alloc, plan, slots as usize)?;
            write_line(alloc, output, squares.as_slice())
        }
        Command::Faults(plan, bad) => {
            let outcome = faults(rt, alloc, plan, bad)?;
            let (ran, skipped) = (outcome.ran.as_slice(), outcome.skipped.as_slice());
            write_named_lines(alloc, output, &[("ran", ran), ("skipped", skipped)])
        }
        Command::Grid(plan) => {
            let numbers = grid(rt, alloc, plan)?;
            write_summary(alloc, output, numbers.as_slice())
        }
        Command::Steps => play(alloc, input, output),
    }
}

// How many numbers there are, the least, and the greatest.
fn write_summary<W: Write>(alloc: Global, output: &mut W, numbers: &[u32]) -> Result<(), Stop> {
    let (least, greatest) = ends(numbers).unwrap_or((0, 0));
    write_line(
        alloc,
        output,
        &[numbers.len() as u64, u64::from(least), u64::from(greatest)],
    )
}
