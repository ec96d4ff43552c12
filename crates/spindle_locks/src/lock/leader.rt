//! The leader of a lock: rounds over lists of items.
//!
//! A round goes one way: items, pieces, jobs, outputs. All memory that a round takes is taken before its first job.
ghost use Rattle.std.specs.Prelude.{◌≡◌, ◌<◌, ◌≤◌, [], IfOk, IfErr, OnOk, OnErr, IsNone, IsErrOf, vec_len, vec_capacity};
ghost use Rattle.std.specs.List.{AllZip};
ghost use Rattle.std.specs.Fn.{FnOnceReturnsAtMut};
ghost use Rattle.spindle_parts.specs.Pieces.{counted};
ghost use Rattle.spindle_locks.specs.Leaders.{counts_of, threads_of, workers_of, AnnouncedRest, GoesOn, IsSameLock, MadeNoStep, PlayedAs, PlayedOnce};
ghost use Rattle.spindle_locks.specs.Rounds.{job_count, IsRefusal};

use crate::lock::nested::Leads;
use crate::lock::workspace::{Opens, Workspace};
use crate::pieces::list_runs::ListRuns;
use crate::pieces::place::SpareLists;
use crate::prelude::*;
use crate::running::in_trays::{play_ahead, play_alone};
use spindle_rounds::round_table::slots::Bare;
use spindle_rounds::threads::leader_member::LeaderMember;
use spindle_rounds::threads::tables::MemberCount;

/// A round has at most so many jobs, whatever a caller asks for.
pub const MOST_JOBS: usize = 4294967295;

/// The leader of a lock over jobs of kind J, lent to the closure that the lock was opened for.
#[derive(Drop)]
pub struct Leader<'a, J: Job, G: Gate, L = Workspace<J>> {
    pub(crate) workspace: &'a L,
    pub(crate) runner: Runner<'a, J, G>,
    pub(crate) leader_member: LeaderMember<'a, Bare>,
}

impl<'a, J: Opens<L>, G: Gate, L> Leader<'a, J, G, L> {
    /// The leader of a lock, in whose barrier it stands.
    pub(crate) fn new(
        workspace: &'a L,
        runner: Runner<'a, J, G>,
        leader_member: LeaderMember<'a, Bare>,
    ) -> Leader<'a, J, G, L>
        ensures threads { threads_of result ≡ (counts_of leader_member.entry).most }
        ensures workers { workers_of result ≡ (counts_of leader_member.entry).threads }
    {
        Leader {
            workspace,
            runner,
            leader_member,
        }
    }

    /// Runs the items in `n_jobs` jobs, or in as many as there are items where these are fewer, and at most in
    /// 4294967295. Each job runs a piece of the items, as `cut` cuts them. Outputs stand in the order of the items.
    ///
    /// One job is run by the leader directly. No items are no job: that round takes no memory. After a refusal the lock
    /// can be used further; the items are given up. It stands for `for_each` of spindle between two rounds of a lock.
    pub fn for_each<H: Threads + Wait + Sync>(
        &mut self,
        rt: &H,
        alloc: Global,
        n_jobs: usize,
        items: Vec<J::In>,
    ) -> Result<Vec<J::Out>, Fault>
        requires jobs { 0 < vec_len items → 0 < n_jobs }
        ensures answer { IfOk result (λ outputs. AllZip J.meets items.items outputs.items) }
        ensures refused { let jobs = job_count (vec_len items) n_jobs in
            IfErr result (IsRefusal (workers_of self.old) jobs) }
        ensures trail { let jobs = job_count (vec_len items) n_jobs in
            PlayedAs jobs self.old self.new result }
        ensures goes_on { GoesOn self.old self.new }
    {
        let mut outputs = Vec::new(alloc);
        self.round_into(rt, alloc, n_jobs, items, &mut outputs)?;
        Ok(outputs)
    }

    /// The round of `for_each`, whose outputs come into this list in place of what stands there. After a refusal it is empty.
    pub(crate) fn round_into<H: Threads + Wait + Sync>(
        &mut self,
        rt: &H,
        alloc: Global,
        n_jobs: usize,
        items: Vec<J::In>,
        outputs: &mut Vec<J::Out>,
    ) -> Result<(), Fault>
        requires jobs { 0 < vec_len items → 0 < n_jobs }
        ensures answer { OnOk result (AllZip J.meets items.items outputs.new.items) }
        ensures given_up { OnErr result (outputs.new.items ≡ []) }
        ensures refused { let jobs = job_count (vec_len items) n_jobs in
            IfErr result (IsRefusal (workers_of self.old) jobs) }
        ensures trail { let jobs = job_count (vec_len items) n_jobs in
            PlayedAs jobs self.old self.new result }
        ensures goes_on { GoesOn self.old self.new }
    {
        outputs.clear();
        if items.is_empty() {
            return Ok(());
        }
        let jobs = items.len().min(n_jobs.min(MOST_JOBS));
        outputs.reserve(items.len())?;
        if jobs > 1 && self.leader_member.member.tables.counts.threads() > 1 {
            return self.play(rt, alloc, jobs, items, outputs);
        }
        self.play_here(rt, alloc, jobs, items, outputs)
    }

    // The leader alone: one job directly, more by a round of its own. No piece is lost here.
    fn play_here<H: Threads + Wait + Sync>(
        &mut self,
        rt: &H,
        alloc: Global,
        jobs: usize,
        items: Vec<J::In>,
        outputs: &mut Vec<J::Out>,
    ) -> Result<(), Fault>
        requires jobs { (1 ≤ jobs) × (jobs ≤ 4294967295) × (jobs ≤ vec_len items) }
        requires empty { outputs.old.items ≡ [] }
        requires room { vec_len items ≤ vec_capacity outputs.old }
        ensures answer { OnOk result (AllZip J.meets items.items outputs.new.items) }
        ensures memory { OnErr result (IsErrOf result Fault.Memory × MadeNoStep self.old self.new) }
        ensures given_up { OnErr result (outputs.new.items ≡ []) }
        ensures played { OnOk result (2 ≤ jobs → PlayedOnce jobs self.old self.new) }
        ensures direct { jobs ≤ 1 → MadeNoStep self.old self.new }
        ensures lock { IsSameLock self.old self.new }
    {
        if jobs == 1 {
            let inputs = items.as_slice();
            self.runner.run(rt, alloc, None, inputs, outputs);
        } else {
            let pieces = ListRuns::cut(alloc, items, jobs)?;
            let trays = J::trays(self.workspace);
            let member = &mut self.leader_member;
            play_alone(rt, alloc, member, trays, &mut self.runner, &pieces, outputs);
        }
        Ok(())
    }

    // A round with the helpers: hand out, publish, work, wait, gather.
    fn play<H: Threads + Wait + Sync>(
        &mut self,
        rt: &H,
        alloc: Global,
        jobs: usize,
        items: Vec<J::In>,
        outputs: &mut Vec<J::Out>,
    ) -> Result<(), Fault>
        requires threads { 2 ≤ workers_of self.old }
        requires jobs { (2 ≤ jobs) × (jobs ≤ 4294967295) × (jobs ≤ vec_len items) }
        requires empty { outputs.old.items ≡ [] }
        requires room { vec_len items ≤ vec_capacity outputs.old }
        ensures answer { OnOk result (AllZip J.meets items.items outputs.new.items) }
        ensures given_up { OnErr result (outputs.new.items ≡ []) }
        ensures refused { IfErr result (IsRefusal (workers_of self.old) jobs) }
        ensures trail { PlayedAs jobs self.old self.new result }
        ensures lock { IsSameLock self.old self.new }
    {
        let pieces = ListRuns::cut(alloc, items, jobs)?;
        let trays = J::trays(self.workspace);
        trays.hand_out(rt, alloc, &pieces, &mut SpareLists::none(alloc))?;
        let member = &mut self.leader_member;
        let first = play_ahead(rt, alloc, member, trays, &mut self.runner, &pieces, outputs);
        match trays.gather_rest(rt, &pieces, first, outputs) {
            Ok(()) => Ok(()),
            Err(number) => {
                outputs.clear();
                Err(Fault::Lost(number))
            }
        }
    }

    /// Runs f in the same lock; the number has no effect, as in spindle between two rounds.
    pub fn with_lock<R, F: FnOnce(&mut Leader<'a, J, G, L>) -> R>(
        &mut self,
        _max_threads: usize,
        f: F,
    ) -> R
        requires some { 0 < _max_threads }
        requires callable { F.IsAlwaysCallable f }
        ensures { FnOnceReturnsAtMut F.FnOnce f self.old result self.new }
    {
        f(self)
    }

    /// How many threads take part in the lock now, the leader counted.
    pub fn current_num_threads(&self) -> usize
        ensures leader { 0 < result }
        ensures most { result ≤ threads_of self.now }
    {
        let tables = self.leader_member.member.tables;
        MemberCount::Barrier(tables.round.init()).current(tables.counts.most())
    }

    /// The lock's threads.
    pub fn max_num_threads(&self) -> usize
        ensures { result ≡ threads_of self.now }
    {
        self.leader_member.member.tables.counts.most()
    }

    /// None: a leader has no number between rounds.
    pub fn current_thread_index(&self) -> Option<usize>
        ensures { IsNone result }
    {
        None
    }

    /// Tells idle helpers to sleep at once until the next round.
    pub fn relieve_workers(&mut self)
        ensures lock { threads_of self.new ≡ threads_of self.old }
        ensures workers { workers_of self.new ≡ workers_of self.old }
        ensures quiet { MadeNoStep self.old self.new }
        ensures rest { AnnouncedRest self.old self.new }
    {
        self.runner.signals.announce_rest();
    }
}

impl<'a, J: Opens<L, In = usize>, G: Gate, L> Leader<'a, J, G, L> {
    /// Runs the numbers from 0 up to `n_jobs`, the end not included, as `for_each` runs items in so many jobs.
    pub fn for_each_raw<H: Threads + Wait + Sync>(
        &mut self,
        rt: &H,
        alloc: Global,
        n_jobs: usize,
    ) -> Result<Vec<J::Out>, Fault>
        ensures answer { IfOk result (λ outputs. AllZip J.meets (counted 0 n_jobs) outputs.items) }
        ensures refused { let jobs = job_count n_jobs n_jobs in
            IfErr result (IsRefusal (workers_of self.old) jobs) }
        ensures trail { let jobs = job_count n_jobs n_jobs in
            PlayedAs jobs self.old self.new result }
        ensures goes_on { GoesOn self.old self.new }
    {
        if n_jobs == 0 {
            return Ok(Vec::new(alloc));
        }
        self.for_each(rt, alloc, n_jobs, numbers(alloc, n_jobs)?)
    }
}

impl<'a, J: Opens<L>, G: Gate, L> Leads for Leader<'a, J, G, L> {
    ghost use Rattle.spindle_locks.specs.Leaders.{account_of};

    ghost account = { account_of };

    fn dismiss<H: Wait>(&mut self, rt: &H) {
        self.runner.signals.announce_exit();
        self.leader_member.member.tables.sleep.wake_for_news(rt);
    }

    fn leave<H: Wait>(self, rt: &H) {
        let LeaderMember { member } = self.leader_member;
        drop(member.leave(rt));
    }
}

/// The numbers from 0 up to a count, the end not included.
pub(crate) fn numbers(alloc: Global, count: usize) -> Result<Vec<usize>, AllocError>
    ensures items { IfOk result (λ numbers. numbers.items ≡ counted 0 count) }
    ensures len { IfOk result (λ numbers. vec_len numbers ≡ count) }
{
    let mut numbers = Vec::with_capacity(alloc, count)?;
    for number in 0..count {
        numbers.push_reserved(number);
    }
    Ok(numbers)
}
