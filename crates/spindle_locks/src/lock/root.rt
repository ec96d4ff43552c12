//! Opening a root lock: its tables are made, its helpers start, and at its end they are dismissed and joined.
ghost use Rattle.std.specs.Prelude.{◌≡◌, ◌<◌, [], IfOk, OnErr, IsErrOf, vec_len};
ghost use Rattle.std.specs.Fn.{FnOnceReturnsAtMut};
ghost use Rattle.spindle_locks.specs.Leaders.{threads_of, workers_of, WasLed};
ghost use Rattle.spindle_rounds.specs.Opening.{AreSeatsAt};
ghost use Rattle.spindle_rounds.specs.ThreadCounts.{lock_threads};

use crate::lock::helper::{help, join_as_leader};
use crate::lock::leader::Leader;
use crate::lock::nested::Leads;
use crate::lock::workspace::{Opens, TakesPart};
use crate::prelude::*;
use spindle_rounds::round::Round;
use spindle_rounds::round_table::slots::{Bare, SlotContents};
use spindle_rounds::threads::ThreadCounts;
use spindle_rounds::threads::leader_member::LeaderMember;
use spindle_rounds::threads::seats::Seats;
use spindle_rounds::threads::tables::Tables;
use std::thread;
use std::thread::{JoinHandle, Scope};

/// Opens a lock over jobs of kind J, runs f with its leader, and closes the lock.
///
/// The lock has the least of the pool's threads, `max_threads` and 32767, its leader counted. A refusal hasn't run f.
/// Called inside a lock it opens another root lock, where spindle would open a nested one.
pub fn with_lock<
    J: Opens<L> + Send,
    G: Gate + Sync,
    R,
    F: FnOnce(&mut Leader<J, G, L>) -> R,
    L: Send + Sync + Drop,
    H: Threads + Wait + Sync,
>(rt: &H, alloc: Global, pool: &Pool<G>, max_threads: usize, f: F) -> Result<R, Fault>
where
    J::In: Send + Sync,
    J::Out: Send,
    J::Inner: Send,
    <J::Inner as Nest>::ChildSlots: Send + Sync,
    requires some { 0 < max_threads }
    requires callable { F.IsAlwaysCallable f }
    ensures promise { IfOk result (λ r. (old : _) × (new : _)
        × (threads_of old ≡ lock_threads pool.now.threads max_threads)
        × (workers_of old ≡ threads_of old)
        × FnOnceReturnsAtMut F.FnOnce f old r new) }
    ensures memory { OnErr result (IsErrOf result Fault.Memory) }
{
    let counts = ThreadCounts::new(pool.max_num_threads(), max_threads);
    let workspace = J::open(alloc, counts.threads())?;
    let (round, seat) = Round::new(alloc, counts.threads())?;
    let child_slots = J::Inner::child_slot_count(counts.threads());
    let (tables, seats) = Tables::new(alloc, counts, pool.idling(), child_slots, round, seat)?;
    let leader_start = LeaderStart::new(alloc, &tables, &workspace, pool, seats)?;
    Ok(scoped(rt, alloc, leader_start, f))
}

// Starts the helpers, runs f, and dismisses and joins them.
fn scoped<
    J: Opens<L> + CrossesThreads,
    G: Gate + Sync,
    R,
    F: FnOnce(&mut Leader<J, G, L>) -> R,
    L: Send + Sync,
    H: Threads + Wait + Sync,
>(rt: &H, alloc: Global, leader_start: LeaderStart<'_, Bare, G, L>, f: F) -> R
    requires callable { F.IsAlwaysCallable f }
    ensures { let counts = leader_start.entry.tables.now.counts in
        WasLed counts.most counts.threads F.FnOnce f result }
{
    thread::scope(
        thread::scope_env(),
        rt,
        |scope| -> R
            requires callable { F.IsAlwaysCallable f }
            ensures { let counts = leader_start.entry.tables.now.counts in
                WasLed counts.most counts.threads F.FnOnce f result }
        {
            let workspace = leader_start.workspace;
            let (member, runner, helpers) = leader_start.start_helpers::<_, J, H>(scope, rt, alloc);
            let mut leader = Leader::new(workspace, runner, member);
            let answer = f(&mut leader);
            leader.dismiss(rt);
            helpers.join(rt);
            answer
        },
    )
}

/// A kind of job whose inputs, outputs and nested locks threads may hand to each other.
pub trait CrossesThreads: Job<
    In: Send + Sync,
    Out: Send,
    Inner: Nest<ChildSlots: Send + Sync> + Send,
>
    + Send {}

impl<J: Job + Send> CrossesThreads for J
where
    J::In: Send + Sync,
    J::Out: Send,
    J::Inner: Send,
    <J::Inner as Nest>::ChildSlots: Send + Sync,
{}

/// What the leader of a lock comes to: the lock's tables, what stands beside them, its pool, the leader's seats, and room for the
/// helpers, which is made before the first starts, so that no memory is refused then.
#[derive(Drop)]
pub struct LeaderStart<'s, D: SlotContents, G: Gate, L> {
    tables: &'s Tables<D>,
    workspace: &'s L,
    pool: &'s Pool<G>,
    seats: Seats<D>,
    threads: Vec<JoinHandle<()>>,
    ghost seated: { AreSeatsAt tables.now seats },
    ghost empty: { vec_len threads ≡ 0 },
}

impl<
    's,
    D: SlotContents<Slot: Send, Note: Send> + Send + 's,
    G: Gate + Sync,
    L: Send + Sync,
> LeaderStart<'s, D, G, L> {
    /// Makes room for the helpers that the pool starts for a lock.
    pub fn new(
        alloc: Global,
        tables: &'s Tables<D>,
        workspace: &'s L,
        pool: &'s Pool<G>,
        seats: Seats<D>,
    ) -> Result<LeaderStart<'s, D, G, L>, AllocError>
        requires { AreSeatsAt tables.now seats }
        ensures { IfOk result (λ start. start.tables.now ≡ tables.now) }
    {
        let threads = Vec::with_capacity(alloc, pool.helpers(tables.counts.threads()))?;
        Ok(LeaderStart {
            tables,
            workspace,
            pool,
            seats,
            threads,
        })
    }

    /// Starts as many helpers as there is room for, and makes the leader a member, which runs jobs with what comes beside. A helper that
    /// can't be started is left out.
    pub fn start_helpers<E, J: CrossesThreads + 's, H: Threads + Wait + Sync + 's>(
        self,
        scope: &Scope<'s, E>,
        rt: &'s H,
        alloc: Global,
    ) -> (LeaderMember<'s, D>, Runner<'s, J, G>, Helpers)
    where
        L: TakesPart<J, D>,
        ensures tables { result.0.member.tables.now ≡ self.entry.tables.now }
        ensures counts { result.1.site.counts ≡ self.entry.tables.now.counts }
        ensures slots { let seat = result.0.member.barrier.seat in
            (seat.me.1 ≡ []) × (seat.me.0.board ≡ []) }
    {
        let LeaderStart {
            tables,
            workspace,
            pool,
            mut seats,
            mut threads,
        } = self;
        let gate = pool.gate();
        for asked in 0..threads.capacity() {
            let helper_seats = seats.helper_seats(tables);
            let life = move || drop(help::<D, J, L, G>(rt, alloc, helper_seats, workspace, gate));
            if let Ok(thread) = scope.spawn(life) {
                threads.push_reserved(thread);
            }
        }
        let (member, runner) = join_as_leader::<D, J, G, L, H>(rt, tables, workspace, gate, seats);
        (member, runner, Helpers { threads })
    }
}

/// The helpers of a lock that have started. It can't be dropped: they are joined.
pub struct Helpers {
    threads: Vec<JoinHandle<()>>,
}

impl Helpers {
    /// Waits until each thread has ended. They were told before.
    pub fn join<H: Threads>(self, rt: &H) {
        let Helpers { threads } = self;
        for thread in threads {
            thread.join(rt);
        }
    }
}
