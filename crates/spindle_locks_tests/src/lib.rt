//! Tests of what stands below the locks of `spindle`, from the parts up to locks with trays, and to those that their jobs open: rows of
//! inputs with the outputs that they must give. What tests of other locks share with them stands here as a library: gates, jobs, and
//! rounds in a lock of their own.
//!
//! The tests named `refused_` hold with any one allocation refused; `./do test` refuses each in turn.
#![tactic(auto)]

#[cfg(test)]
mod aarc_imp;
#[cfg(test)]
mod barrier;
#[cfg(test)]
mod checks;
#[cfg(test)]
mod crossings;
#[cfg(test)]
mod cut;
#[cfg(test)]
mod fault;
#[cfg(test)]
mod finished;
pub mod gates;
pub mod jobs;
#[cfg(test)]
mod list_rows;
#[cfg(test)]
mod nested;
#[cfg(test)]
mod numbers;
#[cfg(test)]
mod requests;
#[cfg(test)]
mod round;
pub mod rounds;
#[cfg(test)]
mod steps;
#[cfg(test)]
mod stopping_rows;
#[cfg(test)]
mod tray_rows;
#[cfg(test)]
mod trying;
