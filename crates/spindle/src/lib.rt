//! A fork-join lock for many short parallel rounds: a leader hands lists of items to its rounds, and outputs come back
//! in the order of the items.
//!
//! Here stands what a user names, and the locks whose pieces stand in the slots of the round table, which play their rounds by
//! `spindle_locks`. The locks whose pieces stand in trays are those of `spindle_locks`.
#![tactic(auto)]

pub mod free;
pub mod kernels;
pub mod lock;
pub mod prelude;

pub use free::{for_each, for_each_raw};
pub use kernels::{
    Change, Division, DivisionsOf, Failed, Kernel, MapsOf, PairMapsOf, PairRun, PairTotalsOf,
    Passes, PassesOf, Shared, Split, Stencil, TotalsOf, TriesOf, UpdatesOf, divide, map, map_into,
    map_pairs, passes_until, reduce_pairs, try_map, update,
};
pub use lock::{reduce, run_one, try_one, update_one, with_lock, with_slots};
pub use spindle_parts::fault::Fault;
pub use spindle_parts::lists::{
    Chunk, EqualIsSame, ListRun, SharedList, Strip, gathered, joined_strips, tell_neighbours,
};
pub use spindle_parts::{aarc_imp, cut, numbers, requests, steps};
pub use spindle_rounds::threads::{DEFAULT_PAUSE_LIMIT, DEFAULT_SPIN_LIMIT};
pub use spindle_rounds::{barrier, round, round_table};
