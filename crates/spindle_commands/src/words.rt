//! What the words of a command line ask for, each number in its range.
ghost use Rattle.std.specs.Prelude.{◌≡◌, IfSome};
ghost use Rattle.spindle_commands.specs.Words.{IsInRange, IsRoundPlan};

use crate::grid::Plan;
use crate::numbers::{number, number_within};
use crate::squares::RoundPlan;

/// The longest list that `cut` cuts.
const LONGEST_LIST: u32 = 1000000;

/// The most items, and the most jobs, of `squares`, `slots` and `faults`; and the most slots.
const MOST_ITEMS: u32 = 100000;

/// The most rows, and the most columns, of `grid`.
const LONGEST_SIDE: u32 = 512;

/// The most jobs of `grid`, by which its columns are shared out.
const MOST_CHUNKS: u32 = 4096;

/// The most threads of a lock.
const MOST_THREADS: u32 = 64;

/// A command with its numbers.
#[derive(Clone, Copy)]
pub enum Command {
    /// Prints the lengths of the pieces of `len` items for `jobs` jobs.
    Cut { len: u32, jobs: u32 },
    /// Prints the squares of the numbers of a round.
    Squares(RoundPlan),
    /// Prints the same squares, made in a lock of so many slots.
    Slots(RoundPlan, u32),
    /// Prints which pieces of a round ran and which were skipped, where it fails at one number.
    Faults(RoundPlan, u32),
    /// Prints how many numbers there are in a grid of so many rows and columns, and the least and the greatest of them, after
    /// as many rounds as it has columns.
    Grid(Plan),
    /// Plays the steps of the input on a fresh machine.
    Steps,
}

impl Command {
    /// The command that the words name, the program's name left out.
    pub fn from_words(words: &[String]) -> Option<Command>
        ensures { IfSome result IsInRange }
    {
        let (name, numbers) = words.split_first()?;
        match name.as_str() {
            "cut" => cut(numbers),
            "squares" => Some(Command::Squares(round(numbers)?)),
            "slots" => slots(numbers),
            "faults" => faults(numbers),
            "grid" => grid(numbers),
            "steps" if numbers.is_empty() => Some(Command::Steps),
            _ => None,
        }
    }
}

fn cut(numbers: &[String]) -> Option<Command>
    ensures { IfSome result IsInRange }
{
    let [len, jobs] = numbers else {
        return None;
    };
    let len = number_within(len.as_str(), 0, LONGEST_LIST)?;
    let jobs = number_within(jobs.as_str(), len.min(1), u32::MAX)?;
    Some(Command::Cut { len, jobs })
}

fn round(numbers: &[String]) -> Option<RoundPlan>
    ensures { IfSome result IsRoundPlan }
{
    let [count, threads, jobs] = numbers else {
        return None;
    };
    Some(RoundPlan {
        count: number_within(count.as_str(), 0, MOST_ITEMS)?,
        threads: number_within(threads.as_str(), 1, MOST_THREADS)?,
        jobs: number_within(jobs.as_str(), 1, MOST_ITEMS)?,
    })
}

// The numbers of a round, and then the slots.
fn slots(numbers: &[String]) -> Option<Command>
    ensures { IfSome result IsInRange }
{
    let (slots, numbers) = numbers.split_last()?;
    let slots = number_within(slots.as_str(), 1, MOST_ITEMS)?;
    Some(Command::Slots(round(numbers)?, slots))
}

// The numbers of a round, and then the one that fails.
fn faults(numbers: &[String]) -> Option<Command>
    ensures { IfSome result IsInRange }
{
    let (bad, numbers) = numbers.split_last()?;
    let bad = number(bad.as_str())?;
    Some(Command::Faults(round(numbers)?, bad))
}

fn grid(numbers: &[String]) -> Option<Command>
    ensures { IfSome result IsInRange }
{
    let [rows, columns, threads, jobs] = numbers else {
        return None;
    };
    let rows = number_within(rows.as_str(), 1, LONGEST_SIDE)?;
    let columns = number_within(columns.as_str(), 1, LONGEST_SIDE)?;
    let threads = number_within(threads.as_str(), 1, MOST_THREADS)?;
    let jobs = number_within(jobs.as_str(), 1, MOST_CHUNKS)?;
    Some(Command::Grid(Plan {
        rows,
        columns,
        threads,
        jobs,
    }))
}
