//! The calls of a job that opens locks: a lock for a closure, or for one round.
ghost use Rattle.std.specs.Prelude.{◌≡◌, ◌<◌, ◌≤◌, IfOk, IfErr, OnErr, IsErrOf, vec_len, ◌⊎◌};
ghost use Rattle.std.specs.List.{AllZip};
ghost use Rattle.spindle_parts.specs.Pieces.{counted};
ghost use Rattle.spindle_locks.specs.Leaders.{workers_of, threads_of};
ghost use Rattle.spindle_locks.specs.Locks.{workers_in, nested_workers};
ghost use Rattle.spindle_locks.specs.Rounds.{job_count, IsRefusal};
ghost use Rattle.std.specs.Fn.{FnOnceReturnsAtMut};
ghost use Rattle.std.specs.Arc.{arc_value};
ghost use Rattle.spindle_rounds.specs.ThreadCounts.{lock_threads};
ghost use Rattle.spindle_rounds.specs.Opening.{AreSeatsAt};

use crate::job::context::{child_slots_for, counts_for};
use crate::job::gate::NoGate;
use crate::lock::helper::join_as_leader;
use crate::lock::leader::{Leader, MOST_JOBS, numbers};
use crate::lock::nested::Under;
use crate::lock::nested::child::{Child, Nested};
use crate::lock::nested::child_lease::{ChildLease, close};
use crate::lock::workspace::Opens;
use crate::prelude::*;
use crate::running::runner::run_each;
use spindle_rounds::round_table::slots::Bare;
use spindle_rounds::threads::seats::Seats;

impl<'a, K: Job> JobCx<'a, Under<K>> {
    /// Runs the items in `n_jobs` jobs, as a leader's `for_each` does, in a lock of so many threads that is opened for this round.
    ///
    /// One job runs directly: under the number of the thread that runs the calling job, which counts the threads as they are now,
    /// and with no child slots.
    pub fn for_each<H: Threads + Wait + Sync>(
        &mut self,
        rt: &H,
        alloc: Global,
        n_jobs: usize,
        items: Vec<K::In>,
    ) -> Result<Vec<K::Out>, Fault>
        requires jobs { 0 < vec_len items → 0 < n_jobs }
        ensures answer { IfOk result (λ outputs. AllZip K.meets items.items outputs.items) }
        ensures refused { let jobs = job_count (vec_len items) n_jobs in
            IfErr result (IsRefusal (workers_in self.old jobs) jobs) }
        ensures same { self.new ≡ self.old }
    {
        if items.is_empty() {
            return Ok(Vec::new(alloc));
        }
        let jobs = items.len().min(n_jobs.min(MOST_JOBS));
        if jobs == 1 {
            return self.run_directly(rt, alloc, items);
        }
        self.with_lock(
            rt,
            alloc,
            jobs,
            |leader|
                requires jobs { 0 < vec_len items → 0 < n_jobs }
                ensures answer { IfOk result (λ outputs. AllZip K.meets items.items outputs.items) }
                ensures refused { IfErr result
                    (IsRefusal (workers_of leader.old) (job_count (vec_len items) n_jobs)) }
            { leader.for_each(rt, alloc, n_jobs, items) },
        )?
    }

    // Runs the items here, as one job that has no child slots.
    fn run_directly<H: Threads + Wait + Sync>(
        &mut self,
        rt: &H,
        alloc: Global,
        items: Vec<K::In>,
    ) -> Result<Vec<K::Out>, Fault>
        ensures answer { IfOk result (λ outputs. AllZip K.meets items.items outputs.items) }
        ensures memory { OnErr result (IsErrOf result Fault.Memory) }
        ensures same { self.new ≡ self.old }
    {
        let mut outputs = Vec::with_capacity(alloc, items.len())?;
        let mut context = JobCx::<K::Inner>::within(self.signals.signals.another(), &self.site);
        run_each::<K, H>(rt, alloc, items.as_slice(), &mut context, &mut outputs);
        Ok(outputs)
    }

    /// Opens a lock over jobs of kind K, to which idle helpers of the job's lock move, runs f with its leader, and closes the lock.
    ///
    /// The lock has the least of the pool's threads, `max_threads` and 32767, its leader counted. With one thread, or where the
    /// job's lock has no free child slot, its leader works alone. `Memory` hasn't run f.
    pub fn with_lock<R, F: FnOnce(&mut Leader<K, NoGate, L>) -> R, L, H: Threads + Wait + Sync>(
        &mut self,
        rt: &H,
        alloc: Global,
        max_threads: usize,
        f: F,
    ) -> Result<R, Fault>
    where
        K: Opens<L>,
        requires some { 0 < max_threads }
        requires callable { F.IsAlwaysCallable f }
        ensures promise { IfOk result (λ r. (old : _) × (new : _)
            × (threads_of old ≡ lock_threads self.old.pool max_threads)
            × ((workers_of old ≡ 1)
            ⊎ (workers_of old ≡ nested_workers self.old.has_slots (threads_of old)))
            × FnOnceReturnsAtMut F.FnOnce f old r new) }
        ensures memory { OnErr result (IsErrOf result Fault.Memory) }
        ensures same { self.new ≡ self.old }
    {
        let counts = counts_for(self, max_threads);
        let sleep = self.site.sleep;
        if let Some(child_slots) = child_slots_for(self, counts) {
            let (child, seats) = Child::open(alloc, counts, sleep.idling())?;
            let request = self.signals.ask(child.tables());
            if let Some(child_lease) = ChildLease::take(rt, child_slots, &child, request, sleep) {
                let mut leader = take_lead(rt, &child, &NoGate, seats);
                let answer = f(&mut leader);
                close(rt, leader, child_lease);
                return Ok(answer);
            }
        }
        let (child, seats) = Child::open(alloc, counts.alone(), sleep.idling())?;
        let mut leader = take_lead(rt, &child, &NoGate, seats);
        Ok(f(&mut leader))
    }
}

impl<'a, K: Job<In = usize>> JobCx<'a, Under<K>> {
    /// Runs the numbers from 0 up to `n_jobs`, the end not included, as `for_each` runs items in so many jobs.
    pub fn for_each_raw<H: Threads + Wait + Sync>(
        &mut self,
        rt: &H,
        alloc: Global,
        n_jobs: usize,
    ) -> Result<Vec<K::Out>, Fault>
        ensures answer { IfOk result (λ outputs. AllZip K.meets (counted 0 n_jobs) outputs.items) }
        ensures refused { let jobs = job_count n_jobs n_jobs in
            IfErr result (IsRefusal (workers_in self.old jobs) jobs) }
        ensures same { self.new ≡ self.old }
    {
        if n_jobs == 0 {
            return Ok(Vec::new(alloc));
        }
        self.for_each(rt, alloc, n_jobs, numbers(alloc, n_jobs)?)
    }
}

// The leader of a lock that nobody leads yet.
fn take_lead<'b, K: Opens<L>, L, H: Wait>(
    rt: &H,
    child: &'b Child<Nested<K>>,
    gate: &'b NoGate,
    seats: Seats<Bare>,
) -> Leader<'b, K, NoGate, L>
    requires { AreSeatsAt (arc_value child.now.shared).tables seats }
    ensures threads { threads_of result ≡ (arc_value child.now.shared).tables.counts.most }
    ensures workers { workers_of result ≡ (arc_value child.now.shared).tables.counts.threads }
{
    let workspace = K::inner(child);
    let (member, runner) = join_as_leader::<Bare, K, NoGate, L, H>(
        rt,
        child.tables(),
        workspace,
        gate,
        seats,
    );
    Leader::new(workspace, runner, member)
}
