//! What nearly every caller imports: `use spindle::prelude::*;`.

pub use crate::kernels::{
    Change, Division, DivisionsOf, Failed, Kernel, MapsOf, PairMapsOf, PairRun, PairTotalsOf,
    Passes, PassesOf, Shared, Split, Stencil, TotalsOf, TriesOf, UpdatesOf, divide, map, map_into,
    map_pairs, passes_until, reduce_pairs, try_map, update,
};
pub use crate::lock::{
    Attempt, AttemptsOf, ChunkRounds, End, Gate, InPlace, Job, JobCx, Leader, Limits, LockOf,
    NoGate, PlaceLeader, Pool, Report, RunsRounds, SlotLeader, TellsFailures, Under, UnderInPlace,
    UnderSlots, Update, reduce, run_one, try_one, update_one,
};
pub use spindle_parts::fault::Fault;
pub use spindle_parts::lists::{
    Chunk, ListRun, SharedList, Strip, gathered, joined_strips, tell_neighbours,
};
pub use std::alloc::{AllocError, Global};
pub use std::sync::Wait;
pub use std::thread::Threads;
