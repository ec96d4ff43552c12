//! What leaders of different locks have in common: rounds into a list that the caller keeps, and rounds over the chunks of one list.
//!
//! Code that only runs rounds names `RunsRounds` and takes either leader.
ghost use denote.Param.Send.{IsSync};
ghost use Rattle.std.specs.Prelude.{◌≡◌, ◌<◌, [], ℕ, IfOk, IfErr, OnOk, OnErr, length, vec_len};
ghost use Rattle.std.specs.List.{AllZip};
ghost use Rattle.spindle_parts.specs.declared.fault.Fault.{Fault};
ghost use Rattle.spindle_parts.specs.declared.fault.Fault.TheVariants.{Memory};
ghost use Rattle.spindle_locks.specs.ChunkRounds.{IsMapped};
ghost use Rattle.spindle_locks.specs.Leaders.{threads_of, workers_of, IsBetweenRounds};
ghost use Rattle.spindle_locks.specs.Rounds.{job_count, never_of_none, GoesOnAs, IsRefusal};

use crate::lock::leader::Leader;
use crate::lock::workspace::Opens;
use crate::prelude::*;
use spindle_parts::lists::{ListRun, SharedList, gathered};
use std::mem;

/// What runs rounds over jobs of kind J: the leader of a lock, whichever kind of lock it is.
pub trait RunsRounds<J: Job> {
    /// The threads of its lock.
    ghost threads: { Self → ℕ };

    /// Why its round of so many jobs may be refused.
    ghost refuses: { Self → ℕ → Fault → Type 0 };

    /// It is in its lock's barrier, and nothing is published.
    ghost rests: { Self → Type 0 };

    /// The lock's threads.
    fn max_num_threads(&self) -> usize
        ensures threads { result ≡ threads self.now }
        ensures rests { rests self.now };

    /// As the leader's `for_each`, with the outputs in a list that the caller keeps: what stood there is dropped, and its memory
    /// serves again. The items are taken out of their list. After a refusal both lists are empty.
    fn for_each_into<H: Threads + Wait + Sync>(
        &mut self,
        rt: &H,
        alloc: Global,
        n_jobs: usize,
        items: &mut Vec<J::In>,
        outputs: &mut Vec<J::Out>,
    ) -> Result<(), Fault>
        requires sync { IsSync H.row }
        requires jobs { 0 < vec_len items.old → 0 < n_jobs }
        ensures answer { OnOk result (AllZip J.meets items.old.items outputs.new.items) }
        ensures taken { items.new.items ≡ [] }
        ensures given_up { OnErr result (outputs.new.items ≡ []) }
        ensures refused { IfErr result (refuses self.old (job_count (vec_len items.old) n_jobs)) }
        ensures goes_on { GoesOnAs threads refuses rests self.old self.new };

    /// Each of its rounds may be refused for want of memory,
    ghost may_want_memory: { (leader : Self) → (jobs : ℕ) → 0 < jobs → refuses leader jobs Memory };

    /// but a round of no jobs is never refused.
    ghost never_of_none: { (leader : Self) → (fault : Fault) → refuses leader 0 fault → ⊥ };
}

impl<'a, J: Opens<L>, G: Gate, L> RunsRounds<J> for Leader<'a, J, G, L> {
    ghost threads = { λ leader. threads_of leader };

    ghost refuses = { λ leader jobs. IsRefusal (workers_of leader) jobs };

    ghost rests = { λ leader. IsBetweenRounds leader };

    fn max_num_threads(&self) -> usize {
        self.leader_member.member.tables.counts.most()
    }

    fn for_each_into<H: Threads + Wait + Sync>(
        &mut self,
        rt: &H,
        alloc: Global,
        n_jobs: usize,
        items: &mut Vec<J::In>,
        outputs: &mut Vec<J::Out>,
    ) -> Result<(), Fault> {
        let items = mem::replace(items, Vec::new(alloc));
        self.round_into(rt, alloc, n_jobs, items, outputs)
    }

    ghost may_want_memory = { λ _ _ some. some };

    ghost never_of_none = { λ leader. never_of_none (workers_of leader) };
}

/// Rounds over the chunks of one list, by jobs that answer a list or a failure each. Whatever runs rounds over such jobs has them.
pub trait ChunkRounds<
    T: Eq + Drop,
    U: Drop,
    E: Drop,
    J: Job<In = ListRun<T>, Out = Result<Vec<U>, E>>,
>: RunsRounds<J> {
    /// Cuts the list into `n_jobs` chunks, or into as many as it has items where these are fewer, runs them in as many jobs, and
    /// answers the lists of all chunks joined in order, or the first failure among them.
    ///
    /// The chunks are those of `share_out_evenly`. An empty list is no chunk, and takes no memory. Where memory for the one list
    /// is refused, the answers are given up.
    fn map_chunks<H: Threads + Wait + Sync>(
        &mut self,
        rt: &H,
        alloc: Global,
        n_jobs: usize,
        list: &SharedList<T>,
    ) -> Result<Result<Vec<U>, E>, Fault>
        requires sync { IsSync H.row }
        requires jobs { 0 < length list.now → 0 < n_jobs }
        ensures answer { IfOk result (λ all. IsMapped J.meets n_jobs list.now all) }
        ensures refused { IfErr result
            (Self.RunsRounds.refuses self.old (job_count (length list.now) n_jobs)) }
        ensures goes_on { GoesOnAs Self.RunsRounds.threads Self.RunsRounds.refuses
            Self.RunsRounds.rests self.old self.new }
    {
        let _threads = self.max_num_threads();
        if list.is_empty() {
            return Ok(Ok(Vec::new(alloc)));
        }
        let mut chunks = list.share_out_evenly(alloc, n_jobs)?;
        let mut answers = Vec::new(alloc);
        self.for_each_into(rt, alloc, n_jobs, &mut chunks, &mut answers)?;
        gathered(alloc, answers)
    }
}

impl<
    T: Eq + Drop,
    U: Drop,
    E: Drop,
    J: Job<In = ListRun<T>, Out = Result<Vec<U>, E>>,
    R: RunsRounds<J>,
> ChunkRounds<T, U, E, J> for R {}
