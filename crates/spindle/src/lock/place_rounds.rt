//! Locks whose rounds are played in place: a job is given its item by value, and answers what becomes of it.
ghost use Rattle.std.specs.Prelude.{◌≡◌, ◌<◌, OnOk, OnErr, IsErrOf, vec_len};
ghost use Rattle.std.specs.List.{AllZip};
ghost use Rattle.spindle_parts.specs.Strips.{told};
ghost use Rattle.spindle.specs.SlotLeaders.{lock_slots, slot_jobs, threads_of, GoesOn, IsForMemory, PlayedAs};

use crate::kernels::PIECES;
use crate::prelude::*;
use spindle_locks::job::update::Updates;
use spindle_locks::running::in_place::{PlaceLeaderState, PlaysInPlace};

/// The leader of a lock whose rounds update items of the kind M in place, lent to the closure that the lock was opened for.
pub type PlaceLeader<'a, M, G> = SlotLeader<'a, InPlace<M>, G, PlaceLeaderState<InPlace<M>>>;

impl<'a, J: PlaysInPlace<P>, G: Gate, P> SlotLeader<'a, J, G, P> {
    /// Updates the items in `n_jobs` jobs, or in as many as there are items or slots where these are fewer. What becomes of an item
    /// stands in its place, and the list keeps its room. Each job updates a piece of the items, as `cut` cuts them.
    ///
    /// One job is run by the leader directly. No items are no job: that round takes no memory. The lock keeps the room of a round
    /// for later ones. A refusal leaves the items as they were, and may give up room that was kept.
    pub fn update_each<H: Threads + Wait + Sync>(
        &mut self,
        rt: &H,
        alloc: Global,
        n_jobs: usize,
        items: &mut Vec<J::Item>,
    ) -> Result<(), Fault>
        requires jobs { 0 < vec_len items.old → 0 < n_jobs }
        ensures updated { OnOk result (AllZip J.updated items.old.items items.new.items) }
        ensures kept { OnErr result (items.new.items ≡ items.old.items) }
        ensures refused { IsForMemory (vec_len items.old) result }
        ensures trail { PlayedAs J.OpensSlots.view
            (slot_jobs J.OpensSlots.slot_count self.old (vec_len items.old) n_jobs)
            self.old self.new result }
        ensures goes_on { GoesOn J.OpensSlots.view J.OpensSlots.slot_count self.old self.new }
    {
        let slots = J::slots(&self.state);
        if items.is_empty() {
            return Ok(());
        }
        let jobs = items.len().min(n_jobs.min(slots));
        let (runner, state) = (&mut self.runner, &mut self.state);
        if jobs == 1 {
            return J::play_alone(rt, alloc, state, runner, items);
        }
        J::play_in_place(rt, alloc, state, runner, jobs, items)
    }
}

impl<'a, T, N, J, G, P> SlotLeader<'a, J, G, P>
where
    T: Copy + Drop,
    N: Drop,
    J: PlaysInPlace<P> + Updates<Item = Strip<T, N>>,
    G: Gate,
{
    /// One pass over a list that stands in strips: tells each strip what stands around it, with `edge` around them all, and updates all
    /// strips in one round, as `update_each` does. After a refusal the strips have been told, and are as they were otherwise.
    pub fn pass<H: Threads + Wait + Sync>(
        &mut self,
        rt: &H,
        alloc: Global,
        strips: &mut Vec<Strip<T, N>>,
        edge: T,
    ) -> Result<(), Fault>
        ensures updated { OnOk result
            (AllZip J.updated (told edge strips.old.items edge) strips.new.items) }
        ensures kept { OnErr result (strips.new.items ≡ told edge strips.old.items edge) }
        ensures refused { IsForMemory (vec_len strips.old) result }
        ensures trail { PlayedAs J.OpensSlots.view
            (slot_jobs J.OpensSlots.slot_count self.old (vec_len strips.old) (vec_len strips.old))
            self.old self.new result }
        ensures goes_on { GoesOn J.OpensSlots.view J.OpensSlots.slot_count self.old self.new }
    {
        tell_neighbours(strips.as_mut_slice(), edge);
        self.update_each(rt, alloc, strips.len(), strips)
    }
}

// What callers with a kind M of their own ask for. A proof that names such a kind and calls what its leader has is dear; these name
// none.
impl<'a, M: Update, G: Gate> PlaceLeader<'a, M, G> {
    // The pieces of a list: some a thread, so that a thread that is done early finds more.
    pub(crate) fn piece_count(&self) -> usize
        ensures { 0 < result }
    {
        self.max_num_threads().saturating_mul(PIECES)
    }

    // A round of `update_each`.
    pub(crate) fn update_all<H: Threads + Wait + Sync>(
        &mut self,
        rt: &H,
        alloc: Global,
        n_jobs: usize,
        items: &mut Vec<M::Item>,
    ) -> Result<(), Fault>
        requires jobs { 0 < vec_len items.old → 0 < n_jobs }
        ensures updated { OnOk result (AllZip M.updated items.old.items items.new.items) }
        ensures memory { OnErr result (IsErrOf result Fault.Memory) }
        ensures lock { threads_of self.new ≡ threads_of self.old }
        ensures slots { lock_slots self.new ≡ lock_slots self.old }
    {
        self.update_each(rt, alloc, n_jobs, items)
    }
}
