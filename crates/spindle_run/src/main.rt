//! The program `spindle-run`: it takes the words of the command line, and ends with the status of what `spindle_commands` did with them.
//!
//! Its rows stand beside it: runs by their words, with what they write and how they end.
#![tactic(auto)]

#[cfg(test)]
mod checks;
#[cfg(test)]
mod ends;
#[cfg(test)]
mod plays;
#[cfg(test)]
mod rows;
#[cfg(test)]
mod streams;
#[cfg(test)]
mod trials;

pub use spindle_commands::{Stop, run};
use std::env;
use std::io::ErrorKind;
use std::process::ExitCode;
use std::rt::Env;

fn main(rt: HostRuntime) -> ExitCode {
    let outcome = match command_words(&rt) {
        Ok(words) => run(
            &rt,
            rt.alloc(),
            words.as_slice(),
            &mut rt.stdin(),
            &mut rt.stdout(),
        ),
        Err(stop) => Err(stop),
    };
    match outcome {
        Ok(()) => ExitCode::SUCCESS,
        Err(stop) => {
            let _ = eprintln!(rt; "{stop}");
            ExitCode::from(stop.status())
        }
    }
}

/// The words of the command line, the program's name left out. A word that isn't UTF-8 is a bad word.
fn command_words(rt: &(impl Env + AllocGlobal)) -> Result<Vec<String>, Stop> {
    match env::args(rt) {
        Ok(words) => Ok(words.skip(1).collect(rt.alloc())?),
        Err(e) if e.kind() == ErrorKind::OutOfMemory => Err(Stop::Memory),
        Err(_) => Err(Stop::Words),
    }
}
