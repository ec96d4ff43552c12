//! Locks in place whose leaders play rounds in tests. Their kind of job is a parameter: where a lock is opened by the name of its kind,
//! the proof takes much more.
ghost use Rattle.std.specs.Prelude.{◌≤◌};
ghost use denote.Param.Send.{IsSync};

use spindle::lock::{PlaceLeaderState, Updates};
use spindle::prelude::*;
use std::process::Abort;

/// What such a test needs of its runtime.
pub trait Runs: Threads + Wait + Abort + Sync {}

impl<H: Threads + Wait + Abort + Sync> Runs for H {}

/// The leader of a lock in place over jobs of kind J.
pub type LedBy<'a, J> = SlotLeader<'a, J, NoGate, PlaceLeaderState<J>>;

/// A kind of job in place, and what the leader of its lock plays.
pub trait Led: Updates<In = (), Out = (), Inner = End> {
    /// What the leader is given.
    type Task: Drop;

    /// What it answers.
    type Answer: Drop;

    /// Plays rounds, and compares what comes of them, or answers it.
    fn lead<H: Runs>(
        rt: &H,
        alloc: Global,
        leader: &mut LedBy<Self>,
        task: &Self::Task,
    ) -> Result<Self::Answer, Fault>
        requires { IsSync H.row };
}

/// Opens a lock of four threads and so many slots, for its leader to play.
pub fn in_place<J: Led + Send, H: Runs>(
    rt: &H,
    alloc: Global,
    slots: usize,
    task: &J::Task,
) -> Result<J::Answer, Fault>
where
    J::Item: Send,
    requires { (1 ≤ slots) × (slots ≤ 4294967295) }
{
    let pool = Pool::new(4, Limits::new(), NoGate);
    LockOf::<J>::with_slots_in_place(
        rt,
        alloc,
        &pool,
        4,
        slots,
        |leader| -> Result<J::Answer, Fault>
            requires { IsSync H.row }
        { J::lead(rt, alloc, leader, task) },
    )?
}
