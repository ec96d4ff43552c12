//! Locks: a caller opens one for a kind of job, and hands lists of items to its rounds.
//!
//! `pool` has what a lock is opened with, `root` how it opens and closes, `leader` the rounds, `trying` those that may stop, `rounds`
//! what the leaders of all kinds of lock have in common, `workspace` what its threads share, `helper` the life of those but the leader,
//! and `nested` the locks that jobs open.

pub mod helper;
pub mod leader;
pub mod nested;
pub mod pool;
pub mod root;
pub mod rounds;
mod trying;
pub mod workspace;
