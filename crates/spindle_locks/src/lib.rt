//! Locks whose pieces stand in trays, and what locks whose pieces stand in the slots of the round table are made of: the kinds of job
//! that a lock runs, the way of a round's items to its outputs, and the threads' work on it.
//!
//! Users stand on `spindle`, which gives out what they name of this, and opens the locks with slots.
#![tactic(auto)]

pub mod job;
pub mod leader_states;
pub mod lock;
pub mod pieces;
pub mod prelude;
pub mod running;
