//! Lists of numbers, each on one line.
use crate::stop::Stop;
use std::alloc::Global;
use std::fmt::Display;
use std::io;
use std::io::{BufWriter, Write};

/// Writes the numbers with one space between, and ends the line.
pub fn write_line<T: Display, W: Write>(
    alloc: Global,
    output: &mut W,
    numbers: &[T],
) -> Result<(), Stop> {
    let mut line = BufWriter::new(alloc, output).map_err(|_| Stop::Memory)?;
    write_numbers(&mut line, numbers).map_err(|_| Stop::Output)
}

/// Writes a line for each list of numbers: its name, and then each number after one space.
pub fn write_named_lines<T: Display, W: Write>(
    alloc: Global,
    output: &mut W,
    lists: &[(&str, &[T])],
) -> Result<(), Stop> {
    let mut lines = BufWriter::new(alloc, output).map_err(|_| Stop::Memory)?;
    for (name, numbers) in lists {
        write_named(&mut lines, name, numbers).map_err(|_| Stop::Output)?;
    }
    lines.flush().map_err(|_| Stop::Output)
}

fn write_named<T: Display, W: Write>(lines: &mut W, name: &str, numbers: &[T]) -> io::Result<()> {
    lines.write_all(name.as_bytes())?;
    for number in numbers {
        write!(lines, " {number}")?;
    }
    lines.write_all(b"\n")
}

fn write_numbers<T: Display, W: Write>(line: &mut W, numbers: &[T]) -> io::Result<()> {
    for (place, number) in numbers.iter().enumerate() {
        if place > 0 {
            line.write_all(b" ")?;
        }
        write!(line, "{number}")?;
    }
    line.write_all(b"\n")?;
    line.flush()
}
