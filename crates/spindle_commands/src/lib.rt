//! What the program `spindle-run` does: it cuts lists, squares numbers in a lock, stops a round at a number that fails, lets a grid
//! of numbers grow by rounds in jobs, and plays the machine of rounds.
//!
//! `commands` has the public call, `words` what a command line says, `step_lines` what a line of steps says. The program, with the
//! rows that it is run on, is the crate above.
#![tactic(auto)]

pub mod commands;
pub mod faults;
pub mod grid;
pub mod numbers;
mod output;
pub mod squares;
pub mod step_lines;
mod steps;
pub mod stop;
pub mod words;

pub use commands::run;
pub use stop::Stop;
