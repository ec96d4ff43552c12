//! The leader of a lock whose round table has a slot for each job.
//!
//! It knows its state as a type P of which only the calls of `OpensSlots<P>` are known, as a leader without slots knows its
//! workspace.
ghost use Rattle.std.specs.Prelude.{◌≡◌, ◌<◌, ◌≤◌, IsNone};
ghost use Rattle.spindle.specs.SlotLeaders.{threads_of, AnnouncedRest, IsAsBefore};

use crate::prelude::*;
use spindle_locks::leader_states::opens_slots::OpensSlots;
use spindle_locks::lock::nested::Leads;
use spindle_locks::running::over_lists::SlotLeaderState;
use spindle_locks::running::runner::Runner;
use spindle_rounds::threads::ThreadCounts;
use std::marker::PhantomData;

/// The leader of a lock with slots over jobs of kind J, lent to the closure that the lock was opened for.
#[derive(Drop)]
pub struct SlotLeader<'a, J: Job, G: Gate, P = SlotLeaderState<J>> {
    pub(crate) counts: ThreadCounts,
    pub(crate) runner: Runner<'a, J, G>,
    pub(crate) state: P,
    // What P names outlives the borrow, as a call needs by a leader whose kind of job is a parameter.
    outlives: PhantomData<&'a P>,
}

impl<'a, J: OpensSlots<P>, G: Gate, P> SlotLeader<'a, J, G, P> {
    /// The leader of a lock, which runs jobs with this, and has this state.
    pub(crate) fn new(runner: Runner<'a, J, G>, state: P) -> SlotLeader<'a, J, G, P>
        ensures threads { threads_of result ≡ runner.entry.site.counts.most }
        ensures state { result.state ≡ state }
    {
        SlotLeader {
            counts: runner.site.counts,
            runner,
            state,
            outlives: PhantomData,
        }
    }

    /// How many threads take part in the lock now, the leader counted.
    pub fn current_num_threads(&self) -> usize
        ensures leader { 0 < result }
        ensures most { result ≤ threads_of self.now }
    {
        self.runner.site.members.current(self.counts.most())
    }

    /// The lock's threads.
    pub fn max_num_threads(&self) -> usize
        ensures { result ≡ threads_of self.now }
    {
        self.counts.most()
    }

    /// None: a leader has no number between rounds.
    pub fn current_thread_index(&self) -> Option<usize>
        ensures { IsNone result }
    {
        None
    }

    /// Tells idle helpers to sleep at once until the next round.
    pub fn relieve_workers(&mut self)
        ensures lock { threads_of self.new ≡ threads_of self.old }
        ensures quiet { IsAsBefore J.OpensSlots.view self.old self.new }
        ensures slots { IsAsBefore J.OpensSlots.slot_count self.old self.new }
        ensures rest { AnnouncedRest self.old self.new }
    {
        self.runner.signals.announce_rest();
    }
}

impl<'a, J: OpensSlots<P>, G: Gate, P> Leads for SlotLeader<'a, J, G, P> {
    ghost use Rattle.spindle.specs.SlotLeaders.{account_of};

    ghost account = { account_of };

    fn dismiss<H: Wait>(&mut self, rt: &H) {
        self.runner.signals.announce_exit();
        J::sleep(&self.state).wake_for_news(rt);
    }

    fn leave<H: Wait>(self, rt: &H) {
        J::leave(rt, self.state);
    }
}
