//! The state of a leader whose lock has slots: `opens_slots` has what the leader knows it by, `leader_state` the state itself. How a round
//! over lists or in place is played from it stands in `running`.

pub mod leader_state;
pub mod opens_slots;
