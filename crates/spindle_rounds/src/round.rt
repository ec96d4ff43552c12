//! The round of a lock: the leader publishes numbered jobs, and every party claims numbers and finishes them.
ghost use Rattle.std.specs.Prelude.{◌≡◌, ◌<◌, ◌≤◌, [], true, IfOk, OnErr, IsErrOf};
ghost use Rattle.spindle_rounds.specs.RoundSteps.{outsider};
ghost use Rattle.spindle_rounds.specs.Seating.{IsSeatAt};

use crate::barrier::BarrierInit;
use crate::round_table::Seat;
use crate::round_table::slots::{Bare, SlotContents};
use spindle_parts::fault::Fault;
use std::alloc::Global;

pub mod claim;
pub mod claimer;
pub mod claiming;
pub mod pieces;
pub mod publishing;
pub mod stopping;

/// The rounds of a table with a range for each thread, and the barrier that ends them.
#[derive(Drop)]
pub struct Round<D: SlotContents> {
    pub(crate) init: BarrierInit<D>,
    ghost ranges: { 0 < init.threads },
}

impl Round<Bare> {
    /// The rounds of up to 32767 threads, and the leader's seat.
    ///
    /// # Errors
    /// `Memory`.
    pub fn new(alloc: Global, threads: usize) -> Result<(Round<Bare>, Seat<Bare>), Fault>
        requires threads { (1 ≤ threads) × (threads ≤ 32767) }
        ensures opened { IfOk result (λ t. (t.0.init.threads ≡ threads)
            × IsSeatAt t.0.init t.1 × (t.1.id ≡ 0)
            × (t.1.me ≡ (outsider threads true, []))) }
        ensures memory { OnErr result (IsErrOf result Fault.Memory) }
    {
        let (init, seat) = BarrierInit::open(alloc, threads, 0)?;
        Ok((Round { init }, seat))
    }
}

impl<D: SlotContents> Round<D> {
    /// The barrier over the same table.
    pub fn init(&self) -> &BarrierInit<D>
        ensures { result.now ≡ self.now.init }
    {
        &self.init
    }
}
