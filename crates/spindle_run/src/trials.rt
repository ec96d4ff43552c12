//! Runs of the program for its tests: a row says what goes in, what comes out, and how the run ends.
use spindle_commands::{Stop, run};
use std::alloc::AllocError;
use std::process::Abort;
use std::sync::Wait;
use std::thread::Threads;

/// So many bytes of a run's output take no memory while it runs.
const ROOM: usize = 256;

/// A run: its words with bars between them, what it reads, what it writes, and how it ends.
#[derive(Clone, Copy)]
pub struct Row(
    pub &'static str,
    pub &'static [u8],
    pub &'static str,
    pub Result<(), Stop>,
);

/// What a run wrote, and how it ended.
#[derive(Drop)]
pub struct Trial {
    /// What it wrote.
    pub text: Vec<u8>,
    /// How it ended.
    pub end: Result<(), Stop>,
}

impl Trial {
    /// Whether it wrote the text, and ended so.
    pub fn is(&self, text: &str, end: Result<(), Stop>) -> bool {
        self.text.as_slice() == text.as_bytes() && self.end == end
    }
}

/// The words between the bars, as the program gets them; none where there is nothing.
pub fn as_words(rt: &impl AllocGlobal, words: &str) -> Result<Vec<String>, AllocError> {
    let mut list = Vec::new(rt.alloc());
    if !words.is_empty() {
        for word in words.split('|') {
            list.push(String::from_str(rt.alloc(), word)?)?;
        }
    }
    Ok(list)
}

/// Runs the program on the words and the input.
pub fn outcome<H: Threads + Wait + AllocGlobal + Sync>(
    rt: &H,
    words: &str,
    input: &[u8],
) -> Result<Trial, AllocError> {
    let list = as_words(rt, words)?;
    let mut text = Vec::with_capacity(rt.alloc(), ROOM)?;
    let mut bytes = input;
    let end = run(rt, rt.alloc(), list.as_slice(), &mut bytes, &mut text);
    Ok(Trial { text, end })
}

/// Fails the test in which a run differs from its row.
pub fn play<H: Threads + Wait + AllocGlobal + Abort + Sync>(
    rt: &H,
    rows: &[Row],
) -> Result<(), AllocError> {
    for Row(words, input, text, end) in rows {
        assert!(rt;
            outcome(rt, words, input)?.is(text, *end),
            "{words} {input:?}"
        );
    }
    Ok(())
}
