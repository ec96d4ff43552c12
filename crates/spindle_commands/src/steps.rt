//! Playing lines of steps on a fresh machine.
use crate::step_lines::{parse_step, write_reply};
use crate::stop::Stop;
use spindle_parts::steps::{Machine, Reply, Why};
use std::alloc::Global;
use std::io::{BufRead, BufReader, BufWriter, Read, Write};

/// The machine's counters.
const COUNTERS: usize = 4;

/// So much of a line is read at most: the longest line, and its newline.
const MOST_BYTES: usize = 65;

/// Plays the lines of the input, and answers each with a line before it judges the next.
///
/// No line is held whole that is longer than the longest line of steps.
pub fn play<R: Read, W: Write>(alloc: Global, input: &mut R, output: &mut W) -> Result<(), Stop> {
    let mut machine = Machine::new(alloc, COUNTERS)?;
    let mut line = Vec::with_capacity(alloc, MOST_BYTES)?;
    let mut lines = BufReader::new(alloc, input).map_err(|_| Stop::Memory)?;
    let mut answers = BufWriter::new(alloc, output).map_err(|_| Stop::Memory)?;
    for answered in 0..u64::MAX {
        next_line(&mut lines, &mut line)?;
        if line.is_empty() {
            break;
        }
        let step = parse_step(line.as_slice()).ok_or(Stop::Line(answered + 1))?;
        let reply = machine.step(step);
        if reply == Reply::Refused(Why::Memory) {
            return Err(Stop::Memory);
        }
        write_reply(&mut answers, reply).map_err(|_| Stop::Output)?;
    }
    Ok(())
}

/// Reads the next line with its newline, or as much as no line of steps is longer than; nothing at the end.
fn next_line<B: BufRead>(lines: &mut B, line: &mut Vec<u8>) -> Result<(), Stop> {
    line.clear();
    lines
        .by_ref()
        .take(MOST_BYTES as u64)
        .read_until(b'\n', line)
        .map_err(|_| Stop::Input)?;
    Ok(())
}
