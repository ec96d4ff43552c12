//! One round in a lock of its own, with trays or in place: for callers who run one list, and no other in the same lock.
ghost use Rattle.std.specs.Prelude.{◌≡◌, ◌<◌, ◌≤◌, IfOk, IfErr, OnErr, IsErrOf, vec_len};
ghost use Rattle.std.specs.List.{AllZip};
ghost use Rattle.spindle_locks.specs.Leaders.{workers_of};
ghost use Rattle.spindle_rounds.specs.ThreadCounts.{lock_threads};
ghost use Rattle.spindle.specs.OneRound.{asked_jobs};
ghost use Rattle.spindle.specs.SlotLeaders.{IsForMemory};
ghost use Rattle.spindle_locks.specs.Rounds.{job_count, IsRefusal};

use crate::prelude::*;
use spindle_locks::job::nest::Nest;
use spindle_locks::job::update::Updates;
use spindle_locks::lock::leader::MOST_JOBS;
use spindle_locks::lock::root::with_lock;

/// Opens a lock over jobs of kind J, runs the items in one round of `n_jobs` jobs, and closes the lock. Where `n_jobs` is 0,
/// there are as many jobs as the pool has threads. Outputs stand in the order of the items, as those of a leader's `for_each`.
///
/// The lock has the least of the pool's threads, the jobs and 32767; where jobs open locks, to which
/// helpers go, the jobs don't count. Its helpers start and end with the call, so rounds that follow
/// each other belong into one lock. No items are no job: that takes no memory and opens no lock.
pub fn run_one<J: Job + Send>(
    rt: &(impl Threads + Wait + Sync),
    alloc: Global,
    pool: &Pool<impl Gate + Sync>,
    n_jobs: usize,
    items: Vec<J::In>,
) -> Result<Vec<J::Out>, Fault>
where
    J::In: Send + Sync,
    J::Out: Send,
    J::Inner: Send,
    <J::Inner as Nest>::ChildSlots: Send + Sync,
    ensures answer { IfOk result (λ outputs. AllZip J.meets items.items outputs.items) }
    ensures refused { let threads = pool.now.threads in
        let jobs = job_count (vec_len items) (asked_jobs threads n_jobs) in
        IfErr result (IsRefusal (lock_threads threads jobs) jobs) }
{
    if items.is_empty() {
        return Ok(Vec::new(alloc));
    }
    let (jobs, threads) = size_of::<J>(pool.max_num_threads(), n_jobs, items.len());
    with_lock::<J, _, _, _, _, _>(
        rt,
        alloc,
        pool,
        threads,
        |leader|
            requires { 0 < jobs }
            ensures answer { IfOk result (λ outputs. AllZip J.meets items.items outputs.items) }
            ensures refused { IfErr result
                (IsRefusal (workers_of leader.old) (job_count (vec_len items) jobs)) }
        { leader.for_each(rt, alloc, jobs, items) },
    )?
}

/// Opens a lock over J, which is `InPlace<M>` for a kind M of updating, updates the items in one round of `n_jobs` jobs, and closes the
/// lock. Where `n_jobs` is 0, there are as many jobs as the pool has threads. What becomes of an item stands where the item stood.
///
/// The lock has as many threads as that of `run_one`. Its helpers start and end with the call, so
/// rounds that follow each other belong into one lock. No items are no job: that takes no memory and
/// opens no lock. A refusal, for memory alone, gives the items up.
pub fn update_one<J: Updates + Send, G: Gate + Sync, H: Threads + Wait + Sync>(
    rt: &H,
    alloc: Global,
    pool: &Pool<G>,
    n_jobs: usize,
    mut items: Vec<J::Item>,
) -> Result<Vec<J::Item>, Fault>
where
    J::In: Send + Sync,
    J::Out: Send,
    <J as Updates>::Item: Send,
    J::Inner: Send,
    <J::Inner as Nest>::ChildSlots: Send + Sync,
    ensures updated { IfOk result (λ new. AllZip J.updated items.items new.items) }
    ensures refused { IsForMemory (vec_len items) result }
{
    if items.is_empty() {
        return Ok(items);
    }
    let (jobs, threads) = size_of::<J>(pool.max_num_threads(), n_jobs, items.len());
    LockOf::<J>::with_slots_in_place(
        rt,
        alloc,
        pool,
        threads,
        jobs,
        |leader| -> Result<Vec<J::Item>, Fault>
            ensures updated { IfOk result (λ new. AllZip J.updated items.items new.items) }
            ensures memory { OnErr result (IsErrOf result Fault.Memory) }
        {
            leader.update_each(rt, alloc, items.len(), &mut items)?;
            Ok(items)
        },
    )?
}

// The jobs of one round over so many items, where 0 asks for one a thread of the pool, and the threads to ask for: one a job, or all of
// the pool where the jobs open locks, to which idle threads go.
fn size_of<J: Job>(pool: usize, n_jobs: usize, items: usize) -> (usize, usize)
    requires some { (0 < pool) × (0 < items) }
    ensures jobs { result.0 ≡ job_count items (asked_jobs pool n_jobs) }
    ensures some { 0 < result.0 }
    ensures threads { result.0 ≤ result.1 }
{
    let asked = if n_jobs == 0 { pool } else { n_jobs };
    let jobs = items.min(asked.min(MOST_JOBS));
    if J::Inner::child_slot_count(pool) == 0 {
        (jobs, jobs)
    } else {
        (jobs, pool.max(jobs))
    }
}
