//! Tests of calls over whole lists by a kernel, of totals, and of what leaders in place do again and again: rows of inputs with the
//! outputs that they must give, or with what a refused allocation leaves.
//!
//! All of it is read with the tests alone, so that it is proved once.
#![tactic(auto)]

#[cfg(test)]
mod attempt_rows;
#[cfg(test)]
mod checks;
#[cfg(test)]
mod division_rows;
#[cfg(test)]
mod kernel_rows;
#[cfg(test)]
mod leader_rows;
#[cfg(test)]
mod leaders;
#[cfg(test)]
mod list_rows;
#[cfg(test)]
mod pass_rows;
#[cfg(test)]
mod try_rows;
