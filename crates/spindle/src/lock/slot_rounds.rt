//! The rounds of a lock with slots: lists of items, each piece of which stands in a slot until its outputs do.
//!
//! A round goes one way: items, pieces, slots, outputs. All memory that a round takes is taken before its first job, and want
//! of memory is the only thing that it is refused for.
ghost use Rattle.std.specs.Prelude.{◌≡◌, ◌<◌, ◌≤◌, [], refl, IfOk, OnOk, OnErr, IsErrOf, length, vec_len, vec_capacity};
ghost use Rattle.std.specs.List.{AllZip};
ghost use Rattle.std.proofs.Common.{not-suc-le-zero};
ghost use Rattle.spindle_parts.specs.Pieces.{counted};
ghost use Rattle.spindle_parts.specs.declared.fault.Fault.TheVariants.{Memory};
ghost use Rattle.spindle.specs.SlotLeaders.{threads_of, slots_of, slot_jobs, GoesOn, IsAsBefore, IsBetweenRounds, IsForMemory, PlayedAs, PlayedOnce};

use crate::prelude::*;
use spindle_locks::pieces::items::{FillsSlots, Items, Numbers};
use spindle_locks::running::over_lists::PlaysPieces;
use std::mem;

impl<'a, J: PlaysPieces<P>, G: Gate, P> SlotLeader<'a, J, G, P> {
    /// Runs the items in `n_jobs` jobs, or in as many as there are items or slots where these are fewer. Each job runs a piece
    /// of the items, as `cut` cuts them. Outputs stand in the order of the items.
    ///
    /// One job is run by the leader directly. No items are no job: that round takes no memory. After a refusal the lock
    /// can be used further; the items are given up.
    pub fn for_each<H: Threads + Wait + Sync>(
        &mut self,
        rt: &H,
        alloc: Global,
        n_jobs: usize,
        items: Vec<J::In>,
    ) -> Result<Vec<J::Out>, Fault>
        requires jobs { 0 < vec_len items → 0 < n_jobs }
        ensures answer { IfOk result (λ outputs. AllZip J.meets items.items outputs.items) }
        ensures refused { IsForMemory (vec_len items) result }
        ensures trail { PlayedAs J.OpensSlots.view
            (slot_jobs J.OpensSlots.slot_count self.old (vec_len items) n_jobs)
            self.old self.new result }
        ensures goes_on { GoesOn J.OpensSlots.view J.OpensSlots.slot_count self.old self.new }
    {
        let mut outputs = Vec::new(alloc);
        self.round_into(rt, alloc, n_jobs, items, &mut outputs)?;
        Ok(outputs)
    }

    // The round of `for_each`, whose outputs come into this list in place of what stands there. After a refusal it is empty.
    fn round_into<H: Threads + Wait + Sync>(
        &mut self,
        rt: &H,
        alloc: Global,
        n_jobs: usize,
        items: Vec<J::In>,
        outputs: &mut Vec<J::Out>,
    ) -> Result<(), Fault>
        requires jobs { 0 < vec_len items → 0 < n_jobs }
        ensures answer { OnOk result (AllZip J.meets items.items outputs.new.items) }
        ensures given_up { OnErr result (outputs.new.items ≡ []) }
        ensures refused { IsForMemory (vec_len items) result }
        ensures trail { PlayedAs J.OpensSlots.view
            (slot_jobs J.OpensSlots.slot_count self.old (vec_len items) n_jobs)
            self.old self.new result }
        ensures goes_on { GoesOn J.OpensSlots.view J.OpensSlots.slot_count self.old self.new }
    {
        outputs.clear();
        let slots = J::slots(&self.state);
        if items.is_empty() {
            return Ok(());
        }
        let jobs = items.len().min(n_jobs.min(slots));
        outputs.reserve(items.len())?;
        if jobs == 1 {
            let inputs = items.as_slice();
            self.runner.run(rt, alloc, None, inputs, outputs);
        } else {
            let mut items = Items::new(alloc, items, jobs)?;
            self.play(rt, alloc, &mut items, outputs)?;
        }
        Ok(())
    }

    // A round with the helpers. After a refusal the list of outputs is empty.
    fn play<S: FillsSlots<J>, H: Threads + Wait + Sync>(
        &mut self,
        rt: &H,
        alloc: Global,
        items: &mut S,
        outputs: &mut Vec<J::Out>,
    ) -> Result<(), Fault>
        requires jobs { (2 ≤ S.pieces items.old)
            × (S.pieces items.old ≤ slots_of J.OpensSlots.slot_count self.old) }
        requires empty { outputs.old.items ≡ [] }
        requires room { length (S.items items.old) ≤ vec_capacity outputs.old }
        ensures answer { OnOk result (AllZip J.meets (S.items items.old) outputs.new.items) }
        ensures given_up { OnErr result (outputs.new.items ≡ []) }
        ensures memory { OnErr result (IsErrOf result Fault.Memory) }
        ensures played { OnOk result
            (PlayedOnce J.OpensSlots.view (S.pieces items.old) self.old self.new) }
        ensures left { OnErr result (IsAsBefore J.OpensSlots.view self.old self.new) }
        ensures goes_on { GoesOn J.OpensSlots.view J.OpensSlots.slot_count self.old self.new }
    {
        let (runner, state) = (&mut self.runner, &mut self.state);
        let played = J::play(rt, alloc, state, runner, items, outputs);
        if played.is_err() {
            outputs.clear();
        }
        played
    }
}

impl<'a, J: PlaysPieces<P>, G: Gate, P> RunsRounds<J> for SlotLeader<'a, J, G, P> {
    ghost threads = { λ leader. threads_of leader };

    ghost refuses = { λ _ jobs fault. (fault ≡ Memory) × (0 < jobs) };

    ghost rests = { λ leader. IsBetweenRounds J.OpensSlots.view leader };

    fn max_num_threads(&self) -> usize {
        let _slots = J::slots(&self.state);
        self.counts.most()
    }

    fn for_each_into<H: Threads + Wait + Sync>(
        &mut self,
        rt: &H,
        alloc: Global,
        n_jobs: usize,
        items: &mut Vec<J::In>,
        outputs: &mut Vec<J::Out>,
    ) -> Result<(), Fault> {
        let items = mem::replace(items, Vec::new(alloc));
        self.round_into(rt, alloc, n_jobs, items, outputs)
    }

    ghost may_want_memory = { λ _ _ some. (refl, some) };

    ghost never_of_none = { λ _ _ refused. not-suc-le-zero refused.1 };
}

impl<'a, J: PlaysPieces<P, In = usize>, G: Gate, P> SlotLeader<'a, J, G, P> {
    /// Runs the numbers from 0 up to `n_jobs`, the end not included, as `for_each` runs items in so many jobs. There are as
    /// many slots or more. The numbers stand in no list.
    pub fn for_each_raw<H: Threads + Wait + Sync>(
        &mut self,
        rt: &H,
        alloc: Global,
        n_jobs: usize,
    ) -> Result<Vec<J::Out>, Fault>
        requires slots { n_jobs ≤ slots_of J.OpensSlots.slot_count self.old }
        ensures answer { IfOk result (λ outputs. AllZip J.meets (counted 0 n_jobs) outputs.items) }
        ensures refused { IsForMemory n_jobs result }
        ensures trail { PlayedAs J.OpensSlots.view n_jobs self.old self.new result }
        ensures goes_on { GoesOn J.OpensSlots.view J.OpensSlots.slot_count self.old self.new }
    {
        let _slots = J::slots(&self.state);
        if n_jobs == 0 {
            return Ok(Vec::new(alloc));
        }
        let mut outputs = Vec::with_capacity(alloc, n_jobs)?;
        if n_jobs == 1 {
            outputs.push_reserved(self.runner.run_one(rt, alloc, None, &0));
            return Ok(outputs);
        }
        self.play(rt, alloc, &mut Numbers::new(n_jobs), &mut outputs)?;
        Ok(outputs)
    }
}
