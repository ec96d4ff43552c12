//! Runs between streams that fail or wait for each other, and a line that is too long.
use crate::checks::{holds, is};
use crate::trials::{as_words, outcome};
use spindle_commands::{Stop, run};
use std::cell::Cell;
use std::io;
use std::io::{ErrorKind, Read, Write};
use std::test::Fail;

// Runs whose input fails after its text, and whose output after so many bytes: what is written until then, and what they stop for.
const FAILING: [(&str, &str, usize, usize, Stop); 18] = [
    ("cut|5|0", "", 0, 0, Stop::Words),
    ("cut|0|0", "", 0, 0, Stop::Output),
    ("cut|10|4", "", 0, 0, Stop::Output),
    ("cut|10|4", "", 7, 7, Stop::Output),
    ("cut|1000000|1000000", "", 20000, 20000, Stop::Output),
    ("squares|100000|4|4", "", 8193, 8193, Stop::Output),
    ("faults|6|1|6|2", "", 12, 12, Stop::Output),
    ("faults|100000|1|100000|2", "", 20000, 20000, Stop::Output),
    ("steps", "join 0\njoin 1\n", 0, 0, Stop::Output),
    ("steps", "join 0\njoin 1\n", 4, 4, Stop::Output),
    ("steps", "join 0\njoin 1\n", 9, 9, Stop::Output),
    ("steps", "join 0\njoin 1\n", 13, 13, Stop::Output),
    ("steps", "join 0\njoin 1\n", 17, 17, Stop::Output),
    ("steps", "", 99, 0, Stop::Input),
    ("steps", "jo", 99, 0, Stop::Input),
    ("steps", "join 0\n", 99, 9, Stop::Input),
    ("steps", "join 0\njoin 1", 99, 9, Stop::Input),
    ("steps", "join 0\njoin 1\njoin 2\n", 99, 27, Stop::Input),
];

// No line of steps is read before the answer to the one before it is flushed: else the input fails too early.
#[test]
fn a_stream_that_fails_stops_the_program(rt: HostRuntime) -> Result<(), Fail> {
    for (words, input, room, written, stop) in FAILING {
        let list = as_words(&rt, words)?;
        let answered = Cell::new(0);
        let mut torn = Torn {
            rest: input.as_bytes(),
            given: 0,
            answered: &answered,
        };
        let mut output = Brief {
            text: Vec::new(rt.alloc()),
            room,
            answered: &answered,
        };
        let end = run(&rt, rt.alloc(), list.as_slice(), &mut torn, &mut output);
        is(&rt, (end, output.text.len()), (Err(stop), written));
        let whole = outcome(&rt, words, input.as_bytes())?;
        holds(&rt, whole.text.starts_with(output.text.as_slice()));
    }
    Ok(())
}

// A bad line is answered before it ends.
#[test]
fn a_line_without_end_is_bad(rt: HostRuntime) -> Result<(), Fail> {
    let words = as_words(&rt, "steps")?;
    let line = [b'0'; 20000];
    let mut input = &line[..];
    let mut text = Vec::new(rt.alloc());
    let end = run(&rt, rt.alloc(), words.as_slice(), &mut input, &mut text);
    is(&rt, (end, text.len()), (Err(Stop::Line(1)), 0));
    holds(&rt, !input.is_empty());
    Ok(())
}

// A reader that answers a line a call, and then an error. It fails at once where an earlier line has no answer yet.
#[derive(Drop)]
struct Torn<'a> {
    // What it has not given.
    rest: &'a [u8],
    // The lines that it gave.
    given: usize,
    // The lines that were answered.
    answered: &'a Cell<usize>,
}

impl<'a> Read for Torn<'a> {
    fn read(&mut self, buf: &mut [u8]) -> io::Result<usize> {
        if self.rest.is_empty() || self.answered.get() != self.given {
            return Err(io::Error::from(ErrorKind::BrokenPipe));
        }
        // A line of these runs has seven bytes.
        let mut line = &self.rest[..self.rest.len().min(7)];
        let count = line.read(buf)?;
        self.rest = &self.rest[count.min(self.rest.len())..];
        self.given = self.given.saturating_add(count / 7);
        Ok(count)
    }
}

// A writer that takes so many bytes, and then answers an error.
#[derive(Drop)]
struct Brief<'a> {
    // What it has taken.
    text: Vec<u8>,
    // The bytes that it still takes.
    room: usize,
    // The lines of nine bytes that were flushed.
    answered: &'a Cell<usize>,
}

impl<'a> Write for Brief<'a> {
    fn write(&mut self, buf: &[u8]) -> io::Result<usize> {
        let count = buf.len().min(self.room);
        if count == 0 && !buf.is_empty() {
            return Err(io::Error::from(ErrorKind::BrokenPipe));
        }
        self.text.extend_from_slice(&buf[..count])?;
        self.room -= count;
        Ok(count)
    }

    fn flush(&mut self) -> io::Result<()> {
        self.answered.set(self.text.len() / 9);
        Ok(())
    }
}
