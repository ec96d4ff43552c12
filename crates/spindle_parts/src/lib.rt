//! The parts that a fork-join lock is made of, each proved by itself: cutting lists into pieces, the model of rounds
//! with its pure machine, thread numbers, the ledger of helper requests, and child slots.
#![tactic(auto)]

pub mod aarc_imp;
pub mod cut;
pub mod fault;
pub mod lists;
pub mod numbers;
pub mod pauses;
pub mod requests;
pub mod steps;
pub mod trail;
pub mod words;
