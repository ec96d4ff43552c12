//! Opening a lock with slots in a thread that is in none: over lists, and in place. It opens as a lock with trays, with a table that has a
//! slot for each job of a round.
ghost use Rattle.std.specs.Prelude.{◌≡◌, ◌<◌, ◌≤◌, IfOk, OnErr, IsErrOf};
ghost use Rattle.std.specs.Arc.{arc_value};
ghost use Rattle.std.specs.Fn.{FnOnceReturnsAtMut};
ghost use denote.Param.Send.{IsSync};
ghost use Rattle.spindle_rounds.specs.Seating.{HasSlots};
ghost use Rattle.spindle_rounds.specs.Opening.{AreSeatsAt};
ghost use Rattle.spindle_rounds.specs.ThreadCounts.{lock_threads};
ghost use Rattle.spindle.specs.SlotLeaders.{TakesLeaders, IsLeaderOf, WasLed};

use crate::prelude::*;
use spindle_locks::job::nest::Nest;
use spindle_locks::job::update::Updates;
use spindle_locks::leader_states::leader_state::{LeaderSeats, SlotShare};
use spindle_locks::leader_states::opens_slots::MakesSlots;
use spindle_locks::lock::nested::Leads;
use spindle_locks::lock::root::{CrossesThreads, LeaderStart};
use spindle_locks::lock::workspace::TakesPart;
use spindle_locks::pieces::of_kind::{ChunkOf, PieceOf};
use spindle_locks::running::in_slots::SlotWorkspace;
use spindle_rounds::round::Round;
use spindle_rounds::round_table::pieces::{PieceKind, PieceSlots};
use spindle_rounds::threads::ThreadCounts;
use spindle_rounds::threads::limits::Idling;
use spindle_rounds::threads::seats::Seats;
use spindle_rounds::threads::tables::Tables;
use std::sync::Arc;
use std::thread;

/// Opens a lock over jobs of kind J whose rounds have at most so many jobs, runs f with its leader, and closes the lock.
///
/// Each job's piece stands in a slot of the round table, and the step that begins its number gives the right to that slot: no
/// piece is lost, nothing is compared, and nothing is behind a lock. The lock has as many threads as one that `with_lock`
/// opens. A refusal hasn't run f.
pub fn with_slots<
    J: MakesSlots<P, PieceSlots<PieceOf<J>>, SlotWorkspace<J>> + Send,
    G: Gate + Sync,
    R,
    F: FnOnce(&mut SlotLeader<J, G, P>) -> R,
    P: Drop,
    H: Threads + Wait + Sync,
>(rt: &H, alloc: Global, pool: &Pool<G>, max_threads: usize, slots: usize, f: F) -> Result<R, Fault>
where
    J::In: Send + Sync,
    J::Out: Send,
    J::Inner: Send,
    <J::Inner as Nest>::ChildSlots: Send + Sync,
    requires some { 0 < max_threads }
    requires slots { (1 ≤ slots) × (slots ≤ 4294967295) }
    requires callable { TakesLeaders J.OpensSlots.slot_count slots F.FnOnce f }
    ensures promise { IfOk result (λ r. (old : _) × (new : _)
        × IsLeaderOf J.OpensSlots.slot_count (lock_threads pool.now.threads max_threads) slots old
        × FnOnceReturnsAtMut F.FnOnce f old r new) }
    ensures memory { OnErr result (IsErrOf result Fault.Memory) }
{
    open::<J, PieceOf<J>, SlotWorkspace<J>, G, R, F, P, H>(rt, alloc, pool, max_threads, slots, f)
}

/// Opens a lock whose slots hold A's pieces, runs f with its leader, and closes the lock. A refusal hasn't run f.
pub(crate) fn open<
    J: MakesSlots<P, PieceSlots<A>, L> + CrossesThreads,
    A: PieceKind<Piece: Send, Answer: Send> + Send,
    L: TakesPart<J, PieceSlots<A>> + Drop + Send + Sync,
    G: Gate + Sync,
    R,
    F: FnOnce(&mut SlotLeader<J, G, P>) -> R,
    P: Drop,
    H: Threads + Wait + Sync,
>(rt: &H, alloc: Global, pool: &Pool<G>, max_threads: usize, slots: usize, f: F) -> Result<R, Fault>
    requires some { (0 < max_threads) × (1 ≤ slots) × (slots ≤ 4294967295) }
    requires callable { TakesLeaders J.OpensSlots.slot_count slots F.FnOnce f }
    ensures promise { IfOk result (λ r. (old : _) × (new : _)
        × IsLeaderOf J.OpensSlots.slot_count (lock_threads pool.now.threads max_threads) slots old
        × FnOnceReturnsAtMut F.FnOnce f old r new) }
    ensures memory { OnErr result (IsErrOf result Fault.Memory) }
{
    let counts = ThreadCounts::new(pool.max_num_threads(), max_threads);
    let workspace = J::workspace(alloc, counts.threads())?;
    let (tables, seats) = make::<J, A>(alloc, counts, pool.idling(), slots)?;
    let tables = Arc::new(alloc, tables)?;
    let start = LeaderStart::new(alloc, &*tables, &workspace, pool, seats)?;
    let shared = Arc::try_clone(&tables)?;
    let share = SlotShare {
        tables: shared,
        slots,
    };
    let lock = SlotLeaderStart { start, share };
    Ok(scoped::<J, A, L, G, R, F, P, H>(rt, alloc, lock, f))
}

/// The tables of such a lock, and the leader's seats at them.
pub(crate) fn make<J: Job, A: PieceKind>(
    alloc: Global,
    counts: ThreadCounts,
    idling: Idling,
    slots: usize,
) -> Result<(Tables<PieceSlots<A>>, Seats<PieceSlots<A>>), Fault>
    ensures made { IfOk result (λ t. (t.0.counts ≡ counts) × AreSeatsAt t.0 t.1
        × HasSlots t.0.round.init slots) }
    ensures idling { IfOk result (λ t. t.0.sleep.idling ≡ idling) }
    ensures memory { OnErr result (IsErrOf result Fault.Memory) }
{
    let threads = counts.threads();
    let (round, seat) = Round::with_slots(alloc, threads, slots)?;
    let child_slots = J::Inner::child_slot_count(threads);
    Ok(Tables::new(alloc, counts, idling, child_slots, round, seat)?)
}

// What the leader of such a lock comes to, with its share of the tables.
#[derive(Drop)]
struct SlotLeaderStart<'s, A: PieceKind, G: Gate, L> {
    start: LeaderStart<'s, PieceSlots<A>, G, L>,
    share: SlotShare<PieceSlots<A>>,
    ghost shared: { arc_value share.tables ≡ start.tables.now },
}

// Starts the helpers, runs f with a leader that has a share of the tables, and dismisses and joins them.
fn scoped<
    J: MakesSlots<P, PieceSlots<A>, L> + CrossesThreads,
    A: PieceKind<Piece: Send, Answer: Send> + Send,
    L: TakesPart<J, PieceSlots<A>> + Send + Sync,
    G: Gate + Sync,
    R,
    F: FnOnce(&mut SlotLeader<J, G, P>) -> R,
    P: Drop,
    H: Threads + Wait + Sync,
>(rt: &H, alloc: Global, lock: SlotLeaderStart<'_, A, G, L>, f: F) -> R
    requires callable { TakesLeaders J.OpensSlots.slot_count lock.share.slots F.FnOnce f }
    ensures { let most = lock.entry.start.tables.now.counts.most in
        WasLed J.OpensSlots.slot_count most lock.entry.share.slots F.FnOnce f result }
{
    thread::scope(
        thread::scope_env(),
        rt,
        |scope| -> R
            requires share { arc_value lock.share.tables ≡ lock.start.tables.now }
            requires callable { TakesLeaders J.OpensSlots.slot_count lock.share.slots F.FnOnce f }
            requires sync { IsSync H.row }
            ensures { let most = lock.entry.start.tables.now.counts.most in
                WasLed J.OpensSlots.slot_count most lock.entry.share.slots F.FnOnce f result }
        {
            let (member, runner, helpers) = lock.start.start_helpers::<_, J, H>(scope, rt, alloc);
            let mut leader_seats = Some(LeaderSeats::new(lock.share, member));
            let mut leader = SlotLeader::new(runner, J::settle(&mut leader_seats));
            let answer = f(&mut leader);
            leader.dismiss(rt);
            helpers.join(rt);
            answer
        },
    )
}
