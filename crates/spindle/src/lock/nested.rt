//! The locks with slots that a job may open, what the threads of one share, and how a job opens them, whatever the slots hold. Idle helpers
//! of the job's lock move there, as to those that `JobCx::with_lock` opens.
ghost use Rattle.std.specs.Prelude.{◌≡◌, ◌<◌, ◌≤◌, IfOk, OnErr, IsErrOf, All};
ghost use Rattle.std.specs.Arc.{arc_value};
ghost use Rattle.std.specs.Fn.{FnOnceReturnsAtMut};
ghost use Rattle.spindle_rounds.specs.SpareSeats.{AreSpareSeatsAt};
ghost use Rattle.spindle_rounds.specs.Opening.{AreSeatsAt};
ghost use Rattle.spindle_rounds.specs.ThreadCounts.{lock_threads};
ghost use Rattle.spindle.specs.SlotLeaders.{TakesLeaders, IsLeaderOf, WasLed};

use crate::lock::slot_root::make;
use crate::prelude::*;
use spindle_locks::job::context::{child_slots_for, counts_for, site_of};
use spindle_locks::job::nest::Nest;
use spindle_locks::leader_states::leader_state::{LeaderSeats, SlotShare};
use spindle_locks::leader_states::opens_slots::MakesSlots;
use spindle_locks::lock::helper::join_as_leader;
use spindle_locks::lock::nested::{
    Child, ChildLease, ChildSlot, TakesHelpers, close, help_from, make_child_slots,
    serve_child_slots,
};
use spindle_locks::pieces::of_kind::{ChunkOf, PieceOf};
use spindle_locks::running::in_slots::{RunsPieces, SlotWorkspace};
use spindle_rounds::round_table::pieces::{PieceKind, PieceSlots};
use spindle_rounds::threads::ThreadCounts;
use spindle_rounds::threads::limits::Idling;
use spindle_rounds::threads::seats::{Seats, SpareSeats};
use spindle_rounds::threads::signals::Signals;
use spindle_rounds::threads::tables::Tables;
use std::marker::PhantomData;
use std::sync::Arc;

/// Opens a lock whose slots hold A's pieces, runs f with its leader, and closes the lock.
pub(crate) fn open<
    J: Job + MakesSlots<P, PieceSlots<A>, SlotWorkspace<J>>,
    A: RunsPieces<J>,
    R,
    F: FnOnce(&mut SlotLeader<J, NoGate, P>) -> R,
    P: Drop,
    H: Threads + Wait + Sync,
>(
    rt: &H,
    alloc: Global,
    cx: &mut JobCx<'_, UnderPieces<J, A>>,
    max_threads: usize,
    slots: usize,
    f: F,
) -> Result<R, Fault>
    requires some { (0 < max_threads) × (1 ≤ slots) × (slots ≤ 4294967295) }
    requires callable { TakesLeaders J.OpensSlots.slot_count slots F.FnOnce f }
    ensures promise { IfOk result (λ r. (old : _) × (new : _)
        × IsLeaderOf J.OpensSlots.slot_count (lock_threads cx.old.pool max_threads) slots old
        × FnOnceReturnsAtMut F.FnOnce f old r new) }
    ensures memory { OnErr result (IsErrOf result Fault.Memory) }
    ensures same { cx.new ≡ cx.old }
{
    let (counts, sleep) = (counts_for(cx, max_threads), site_of(cx).sleep);
    let (child, leader_start) = NestedSlots::open(alloc, counts, sleep.idling(), slots)?;
    if let Some(child_slots) = child_slots_for(cx, counts) {
        let request = cx.signals.ask(&*child.shared.tables);
        // Where none is free, the leader works alone at the same tables.
        let lease = ChildLease::take(rt, &child_slots.slots, &child, request, sleep);
        return Ok(lead(rt, child, leader_start, lease, f));
    }
    Ok(lead(rt, child, leader_start, None::<ChildLease<'_, ()>>, f))
}

// Runs f with the leader of a lock that nobody leads yet, and closes the lock, if it stands in a child slot.
fn lead<
    J: Job + MakesSlots<P, PieceSlots<A>, SlotWorkspace<J>>,
    A: RunsPieces<J>,
    R,
    F: FnOnce(&mut SlotLeader<J, NoGate, P>) -> R,
    P: Drop,
    N: Drop,
    H: Wait,
>(
    rt: &H,
    child: Child<NestedSlots<SlotWorkspace<J>, A>>,
    leader_start: NestedLeaderStart<A>,
    lease: Option<ChildLease<'_, N>>,
    f: F,
) -> R
    requires share { arc_value leader_start.share.tables
        ≡ arc_value (arc_value child.shared).tables }
    requires callable { TakesLeaders J.OpensSlots.slot_count leader_start.share.slots F.FnOnce f }
    ensures { let counts = (arc_value leader_start.share.tables).counts in
        WasLed J.OpensSlots.slot_count counts.most leader_start.share.slots F.FnOnce f result }
{
    let NestedLeaderStart { share, seats } = leader_start;
    let (tables, workspace, gate) = (&*child.shared.tables, &child.shared.workspace, NoGate);
    let (member, runner) = join_as_leader::<_, J, _, _, H>(rt, tables, workspace, &gate, seats);
    let mut leader_seats = Some(LeaderSeats::new(share, member));
    let mut leader = SlotLeader::new(runner, J::settle(&mut leader_seats));
    let answer = f(&mut leader);
    if let Some(lease) = lease {
        close(rt, leader, lease);
    }
    answer
}

/// Nested locks with slots over jobs of kind J, whose slots hold A's pieces: `UnderSlots<K>` or `UnderInPlace<M>`.
pub struct UnderPieces<J, A> {
    kind: PhantomData<(J, A)>,
}

/// Nested locks with slots over jobs of kind K.
pub type UnderSlots<K> = UnderPieces<K, PieceOf<K>>;

/// Nested locks whose rounds update items of the kind M in place.
pub type UnderInPlace<M> = UnderPieces<InPlace<M>, ChunkOf<InPlace<M>>>;

/// What the threads of a nested lock with slots share: its tables, what stands beside them, and seats for its helpers. W is
/// `SlotWorkspace<J>` for its kind of job J; a bound on it here would be passed on with each lock that stands in another.
#[derive(Drop)]
pub struct NestedSlots<W, A: PieceKind> {
    tables: Arc<Tables<PieceSlots<A>>>,
    workspace: W,
    spare_seats: Vec<SpareSeats<PieceSlots<A>>>,
    ghost seated: { All (AreSpareSeatsAt (arc_value tables)) spare_seats.items },
}

/// What the leader of a nested lock with slots comes with: a share of the lock's tables, and its seats there.
#[derive(Drop)]
struct NestedLeaderStart<A: PieceKind> {
    share: SlotShare<PieceSlots<A>>,
    seats: Seats<PieceSlots<A>>,
    ghost seated: { AreSeatsAt (arc_value share.tables) seats },
}

impl<J: Job, A: RunsPieces<J>> NestedSlots<SlotWorkspace<J>, A> {
    // A nested lock of so many slots, and what its leader comes with.
    fn open(
        alloc: Global,
        counts: ThreadCounts,
        idling: Idling,
        slots: usize,
    ) -> Result<(Child<Self>, NestedLeaderStart<A>), Fault>
        requires slots { (1 ≤ slots) × (slots ≤ 4294967295) }
        ensures share { IfOk result (λ t.
            arc_value t.1.share.tables ≡ arc_value (arc_value t.0.shared).tables) }
        ensures counts { IfOk result (λ t. (arc_value t.1.share.tables).counts ≡ counts) }
        ensures slots { IfOk result (λ t. t.1.share.slots ≡ slots) }
        ensures idling { IfOk result (λ t. (arc_value t.1.share.tables).sleep.idling ≡ idling) }
        ensures memory { OnErr result (IsErrOf result Fault.Memory) }
    {
        let child_slots = <J::Inner as Nest>::make(alloc, counts.threads())?;
        let (tables, mut seats) = make::<J, A>(alloc, counts, idling, slots)?;
        let spare_seats = tables.spare_seats(alloc, &mut seats)?;
        let tables = Arc::new(alloc, tables)?;
        let shared_tables = Arc::try_clone(&tables)?;
        let share = SlotShare {
            tables: shared_tables,
            slots,
        };
        let nested = NestedSlots {
            tables,
            workspace: SlotWorkspace::new(child_slots),
            spare_seats,
        };
        let shared = Arc::new(alloc, nested)?;
        let leader_start = NestedLeaderStart { share, seats };
        Ok((Child { shared }, leader_start))
    }
}

impl<J: Job, A: RunsPieces<J>> TakesHelpers for NestedSlots<SlotWorkspace<J>, A> {
    fn help<H: Threads + Wait + Sync>(&self, rt: &H, alloc: Global) {
        let spare_seats = self.spare_seats.as_slice();
        let tables = self.tables.as_ref();
        help_from::<_, J, SlotWorkspace<J>, H>(rt, alloc, tables, &self.workspace, spare_seats);
    }
}

/// The child slots in which such locks stand.
#[derive(Drop)]
pub struct PieceChildSlots<W, A: PieceKind> {
    slots: Vec<ChildSlot<NestedSlots<W, A>>>,
}

impl<J: Job, A: RunsPieces<J>> Nest for UnderPieces<J, A> {
    type ChildSlots = PieceChildSlots<SlotWorkspace<J>, A>;

    fn child_slot_count(threads: usize) -> usize {
        threads
    }

    fn make(alloc: Global, threads: usize) -> Result<PieceChildSlots<SlotWorkspace<J>, A>, Fault> {
        let slots = make_child_slots(alloc, threads)?;
        Ok(PieceChildSlots { slots })
    }

    fn serve<H: Threads + Wait + Sync>(
        rt: &H,
        alloc: Global,
        child_slots: &PieceChildSlots<SlotWorkspace<J>, A>,
        signals: &mut Signals<'_>,
    ) {
        serve_child_slots(rt, alloc, &child_slots.slots, signals);
    }
}
