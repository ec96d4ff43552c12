//! The rounds of a fork-join lock: the table of atomic words that threads change at once, the barrier that parties join and
//! leave in mid-round, the calls by which a leader publishes numbered jobs and each party claims and finishes them, and what the
//! threads of a lock do between rounds.
//!
//! Nothing here knows what a job is: a piece of a round is whatever has a number.
#![tactic(auto)]

pub mod barrier;
pub mod round;
pub mod round_table;
pub mod threads;
