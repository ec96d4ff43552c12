//! The locks of a kind of job, by its name: each call opens one, and names no type but that kind.
ghost use Rattle.std.specs.Prelude.{◌≡◌, ◌<◌, ◌≤◌, IfOk, OnErr, IsErrOf};
ghost use Rattle.std.specs.Fn.{FnOnceReturnsAtMut};
ghost use Rattle.spindle_rounds.specs.ThreadCounts.{lock_threads};
ghost use Rattle.spindle_locks.specs.Leaders.{workers_of, threads_of as tray_threads};
ghost use Rattle.spindle.specs.SlotLeaders.{TakesLeaders, IsLeaderOf};

use crate::lock::nested::UnderPieces;
use crate::lock::{nested, slot_root};
use crate::prelude::*;
use spindle_locks::job::nest::Nest;
use spindle_locks::job::update::Updates;
use spindle_locks::leader_states::opens_slots::MakesSlots;
use spindle_locks::lock::root;
use spindle_locks::lock::workspace::Opens;
use spindle_locks::pieces::of_kind::{ChunkOf, PieceOf};
use spindle_locks::running::in_slots::SlotWorkspace;
use spindle_rounds::round_table::pieces::PieceSlots;
use std::marker::PhantomData;

/// The locks over jobs of kind J, as in `LockOf::<Bill>::with_slots(rt, alloc, pool, threads, slots, |leader| ..)`. No value of it is
/// made. The compiler finds the other types of each call.
pub struct LockOf<J> {
    kind: PhantomData<J>,
}

impl<J> LockOf<J> {
    /// Opens a lock with trays: `spindle::with_lock`.
    pub fn with_lock<
        G: Gate + Sync,
        R,
        F: FnOnce(&mut Leader<J, G, L>) -> R,
        L: Send + Sync + Drop,
        H: Threads + Wait + Sync,
    >(rt: &H, alloc: Global, pool: &Pool<G>, max_threads: usize, f: F) -> Result<R, Fault>
    where
        J: Opens<L> + Send,
        J::In: Send + Sync,
        J::Out: Send,
        J::Inner: Send,
        <J::Inner as Nest>::ChildSlots: Send + Sync,
        requires some { 0 < max_threads }
        requires callable { F.IsAlwaysCallable f }
        ensures promise { IfOk result (λ r. (old : _) × (new : _)
            × (tray_threads old ≡ lock_threads pool.now.threads max_threads)
            × (workers_of old ≡ tray_threads old)
            × FnOnceReturnsAtMut F.FnOnce f old r new) }
        ensures memory { OnErr result (IsErrOf result Fault.Memory) }
    {
        root::with_lock::<J, G, R, F, L, H>(rt, alloc, pool, max_threads, f)
    }

    /// Opens a lock whose rounds have at most so many jobs: `spindle::with_slots`.
    pub fn with_slots<
        G: Gate + Sync,
        R,
        F: FnOnce(&mut SlotLeader<J, G, P>) -> R,
        P: Drop,
        H: Threads + Wait + Sync,
    >(
        rt: &H,
        alloc: Global,
        pool: &Pool<G>,
        max_threads: usize,
        slots: usize,
        f: F,
    ) -> Result<R, Fault>
    where
        J: MakesSlots<P, PieceSlots<PieceOf<J>>, SlotWorkspace<J>> + Send,
        J::In: Send + Sync,
        J::Out: Send,
        J::Inner: Send,
        <J::Inner as Nest>::ChildSlots: Send + Sync,
        requires some { 0 < max_threads }
        requires slots { (1 ≤ slots) × (slots ≤ 4294967295) }
        requires callable { TakesLeaders J.OpensSlots.slot_count slots F.FnOnce f }
        ensures promise { IfOk result (λ r. (old : _) × (new : _)
            × IsLeaderOf J.OpensSlots.slot_count
            (lock_threads pool.now.threads max_threads) slots old
            × FnOnceReturnsAtMut F.FnOnce f old r new) }
        ensures memory { OnErr result (IsErrOf result Fault.Memory) }
    {
        slot_root::with_slots::<J, G, R, F, P, H>(rt, alloc, pool, max_threads, slots, f)
    }

    /// Opens a lock whose rounds update lists in place, in at most so many jobs, runs f with its leader, and closes the lock. J is
    /// `InPlace<M>` for a kind M of updating. It is a lock as `with_slots` opens it, and a refusal hasn't run f.
    pub fn with_slots_in_place<
        G: Gate + Sync,
        R,
        F: FnOnce(&mut SlotLeader<J, G, P>) -> R,
        P: Drop,
        H: Threads + Wait + Sync,
    >(
        rt: &H,
        alloc: Global,
        pool: &Pool<G>,
        max_threads: usize,
        slots: usize,
        f: F,
    ) -> Result<R, Fault>
    where
        J: MakesSlots<P, PieceSlots<ChunkOf<J>>, SlotWorkspace<J>> + Updates + Send,
        J::In: Send + Sync,
        J::Out: Send,
        J::Item: Send,
        J::Inner: Send,
        <J::Inner as Nest>::ChildSlots: Send + Sync,
        requires some { 0 < max_threads }
        requires slots { (1 ≤ slots) × (slots ≤ 4294967295) }
        requires callable { TakesLeaders J.OpensSlots.slot_count slots F.FnOnce f }
        ensures promise { IfOk result (λ r. (old : _) × (new : _)
            × IsLeaderOf J.OpensSlots.slot_count
            (lock_threads pool.now.threads max_threads) slots old
            × FnOnceReturnsAtMut F.FnOnce f old r new) }
        ensures memory { OnErr result (IsErrOf result Fault.Memory) }
    {
        slot_root::open::<J, ChunkOf<J>, SlotWorkspace<J>, G, R, F, P, H>(
            rt,
            alloc,
            pool,
            max_threads,
            slots,
            f,
        )
    }

    /// Opens a lock with slots in a job, whose rounds have at most so many jobs, runs f with its leader, and closes the lock. (A lock
    /// with trays is the context's, `JobCx::with_lock`.)
    ///
    /// The lock has the least of the pool's threads, `max_threads` and 32767, its leader counted. With one thread, or where the
    /// job's lock has no free child slot, its leader works alone. `Memory` hasn't run f, and is the only refusal.
    pub fn nested_with_slots<
        R,
        F: FnOnce(&mut SlotLeader<J, NoGate, P>) -> R,
        P: Drop,
        H: Threads + Wait + Sync,
    >(
        rt: &H,
        alloc: Global,
        cx: &mut JobCx<'_, UnderPieces<J, PieceOf<J>>>,
        max_threads: usize,
        slots: usize,
        f: F,
    ) -> Result<R, Fault>
    where
        J: Job + MakesSlots<P, PieceSlots<PieceOf<J>>, SlotWorkspace<J>>,
        requires some { 0 < max_threads }
        requires slots { (1 ≤ slots) × (slots ≤ 4294967295) }
        requires callable { TakesLeaders J.OpensSlots.slot_count slots F.FnOnce f }
        ensures promise { IfOk result (λ r. (old : _) × (new : _)
            × IsLeaderOf J.OpensSlots.slot_count (lock_threads cx.old.pool max_threads) slots old
            × FnOnceReturnsAtMut F.FnOnce f old r new) }
        ensures memory { OnErr result (IsErrOf result Fault.Memory) }
        ensures same { cx.new ≡ cx.old }
    {
        nested::open::<J, PieceOf<J>, R, F, P, H>(rt, alloc, cx, max_threads, slots, f)
    }

    /// The same for rounds in place, where J is `InPlace<M>`.
    pub fn nested_with_slots_in_place<
        R,
        F: FnOnce(&mut SlotLeader<J, NoGate, P>) -> R,
        P: Drop,
        H: Threads + Wait + Sync,
    >(
        rt: &H,
        alloc: Global,
        cx: &mut JobCx<'_, UnderPieces<J, ChunkOf<J>>>,
        max_threads: usize,
        slots: usize,
        f: F,
    ) -> Result<R, Fault>
    where
        J: MakesSlots<P, PieceSlots<ChunkOf<J>>, SlotWorkspace<J>> + Updates,
        requires some { 0 < max_threads }
        requires slots { (1 ≤ slots) × (slots ≤ 4294967295) }
        requires callable { TakesLeaders J.OpensSlots.slot_count slots F.FnOnce f }
        ensures promise { IfOk result (λ r. (old : _) × (new : _)
            × IsLeaderOf J.OpensSlots.slot_count (lock_threads cx.old.pool max_threads) slots old
            × FnOnceReturnsAtMut F.FnOnce f old r new) }
        ensures memory { OnErr result (IsErrOf result Fault.Memory) }
        ensures same { cx.new ≡ cx.old }
    {
        nested::open::<J, ChunkOf<J>, R, F, P, H>(rt, alloc, cx, max_threads, slots, f)
    }
}
