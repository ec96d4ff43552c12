//! What stands around a thread's work in a round: the leader's publish before it, and the round's end after it.
ghost use Rattle.std.specs.Prelude.{◌≡◌, ◌≤◌, ◌∷◌, ◌<◌, ℕ, false, true};
ghost use Rattle.spindle_rounds.specs.RoundConditions.{IsFreeInside, IsDone, IsWaiting, MayExit, MayFill, MayLeave, MayPublish};
ghost use Rattle.spindle_rounds.specs.RoundShown.{Showed};
ghost use Rattle.spindle_rounds.specs.RoundSteps.{publishing, round_of};
ghost use Rattle.spindle_rounds.specs.Seating.{IsSeatAt, IsSameSeat, slots_of};
ghost use Rattle.spindle_rounds.specs.RoundViews.{StopsAsBefore, published_of};
ghost use Rattle.spindle_rounds.specs.Holding.{IsHeld, Keeps};
ghost use Rattle.spindle_rounds.specs.Passing.{InNext};
ghost use Rattle.spindle_rounds.specs.PieceRounds.{PublishedPieces};
ghost use Rattle.spindle_rounds.specs.RoundPieces.{IsUnrun};
ghost use Rattle.spindle_rounds.specs.RoundSlots.{spot_at};
ghost use Rattle.spindle_rounds.specs.SlotLoops.{IsPiece, Turning};
ghost use Rattle.spindle_rounds.specs.declared.round_table.view.Spot.TheVariants.{Out};
ghost use Rattle.spindle_rounds.specs.Working.{OnPublished, IsIdle};
ghost use Rattle.spindle_rounds.specs.Accounts.{account_of, IsSameThread};
ghost use Rattle.spindle_rounds.specs.Helpers.{EndedOrLeft};
ghost use Rattle.spindle_rounds.specs.Waits.{ArrivedAndWaited, WaitedForEnd, patience_of};
ghost use Rattle.spindle_rounds.specs.Signals.{EndedRest};
ghost use Rattle.spindle_rounds.specs.Members.{IsAt, LastPublished, party_view};

use crate::barrier::steps::{Arrival, Look};
use crate::barrier::{Barrier, ExitStatus};
use crate::round::Round;
use crate::round::publishing::PublishedRound;
use crate::round_table::Seat;
use crate::round_table::pieces::{PieceKind, PieceSlots};
use crate::round_table::slots::SlotContents;
use crate::threads::signals::Signals;
use crate::threads::tables::Tables;
use std::sync::Wait;

/// The leader publishes a round, and wakes the helpers.
pub fn publish<'a, D: SlotContents, H: Wait>(
    rt: &H,
    tables: &Tables<D>,
    barrier: &mut Barrier<'a, D>,
    signals: &mut Signals<'a>,
    published: PublishedRound,
)
    requires at { IsAt tables.now barrier.old }
    requires leads { MayFill (party_view barrier.old) }
    requires idle { IsIdle (party_view barrier.old) }
    requires counted { (2 ≤ published.jobs) × (published.jobs ≤ 4294967295) }
    requires pieces { let v = party_view barrier.old in
        D.discipline.may_publish (round_of v.standing) published.jobs v.board }
    ensures at { IsAt tables.now barrier.new × Keeps barrier.old barrier.new }
    ensures on { OnPublished published.jobs published.may_stop (party_view barrier.new) }
    ensures idle { IsIdle (party_view barrier.new) }
    ensures leader { (party_view barrier.new).leader ≡ (party_view barrier.old).leader }
    ensures published { let old = party_view barrier.old in let new = party_view barrier.new in
        (new.standing ≡ old.standing) × (published_of new.trail
        ≡ Showed (round_of old.standing) published.jobs published.may_stop
        ∷ published_of old.trail) }
    ensures stops { StopsAsBefore (party_view barrier.old) (party_view barrier.new) }
    ensures last { LastPublished (round_of (party_view barrier.old).standing)
        published.jobs published.may_stop (party_view barrier.new) }
    ensures rest { EndedRest (account_of signals.old) (account_of signals.new) }
{
    tables.round.fill(barrier.seat(), published.jobs);
    signals.end_rest();
    store_published(&tables.round, barrier.seat(), published);
    tables.sleep.wake_for_news(rt);
}

// One store of the published word: that of a plain round, or of one that may stop.
fn store_published<D: SlotContents>(round: &Round<D>, seat: &mut Seat<D>, published: PublishedRound)
    requires seated { IsSeatAt round.now.init seat.old }
    requires leads { MayPublish D.discipline round.now.init.threads published.jobs seat.old.me.0 }
    requires counted { (2 ≤ published.jobs) × (published.jobs ≤ 4294967295) }
    ensures seat { IsSameSeat seat.old seat.new }
    ensures step { seat.new.me
        ≡ (publishing published.may_stop published.jobs seat.old.me.0, seat.old.me.1) }
{
    if published.may_stop {
        round.publish_try(seat, published.jobs);
    } else {
        round.publish(seat, published.jobs);
    }
}

/// The leader of a lock with slots, all of which it holds, publishes so many pieces in the first ones, and wakes the helpers.
pub fn publish_held<A: PieceKind, H: Wait>(
    rt: &H,
    tables: &Tables<PieceSlots<A>>,
    seat: &mut Seat<PieceSlots<A>>,
    signals: &mut Signals<'_>,
    jobs: u64,
)
    requires seated { IsSeatAt tables.now.round.init seat.old }
    requires leads { MayFill seat.old.me.0 }
    requires held { Turning (λ k y. IsUnrun A.answers y) IsPiece (slots_of tables.now.round.init)
        jobs seat.old.me.1 }
    requires out { (k : ℕ) → k < slots_of tables.now.round.init
        → spot_at seat.old.me.0.board k ≡ Out }
    requires counted { (2 ≤ jobs) × (jobs ≤ 4294967295) }
    ensures seat { IsSameSeat seat.old seat.new }
    ensures published { PublishedPieces A.answers jobs seat.old.me seat.new.me }
    ensures rest { EndedRest (account_of signals.old) (account_of signals.new) }
{
    signals.end_rest();
    tables.round.publish_held(seat, jobs);
    tables.sleep.wake_for_news(rt);
}

/// Arrives, and waits until the round has ended. The closer ends it, and wakes the others.
pub fn end_round<'a, D: SlotContents, H: Wait>(
    rt: &H,
    tables: &Tables<D>,
    barrier: &mut Barrier<'a, D>,
)
    requires held { IsHeld barrier.old }
    requires free { IsFreeInside (party_view barrier.old) }
    requires done { IsDone (party_view barrier.old) }
    ensures held { Keeps barrier.old barrier.new }
    ensures next { InNext barrier.old.seat.me barrier.new.seat.me }
{
    match barrier.arrive() {
        Arrival::Closer => {
            barrier.close();
            tables.sleep.wake_for_end(rt);
        }
        Arrival::Arrived => await_end(rt, tables, barrier),
    }
}

// Waits for the closer, as idle threads do.
fn await_end<'a, D: SlotContents, H: Wait>(rt: &H, tables: &Tables<D>, barrier: &mut Barrier<'a, D>)
    requires held { IsHeld barrier.old }
    requires waiting { IsWaiting (party_view barrier.old) }
    ensures held { Keeps barrier.old barrier.new }
    ensures next { InNext barrier.old.seat.me barrier.new.seat.me }
{
    let mut idle = tables.sleep.idle_until_end();
    for _ in rt.forever() {
        if let Look::Ended = barrier.look() {
            return;
        }
        idle.pass(rt, false);
    }
    unreachable!()
}

/// Arrives, and waits until the round has ended, but leaves where nested locks ask for helpers. The closer ends the round, and
/// wakes the others.
pub fn end_or_leave<'a, D: SlotContents, H: Wait>(
    rt: &H,
    tables: &Tables<D>,
    mut barrier: Barrier<'a, D>,
    signals: &mut Signals<'_>,
) -> ExitStatus<'a, D>
    requires held { IsHeld barrier }
    requires free { MayExit (party_view barrier) }
    requires done { IsDone (party_view barrier) }
    ensures status { EndedOrLeft barrier.entry result }
    ensures turns { ArrivedAndWaited (patience_of tables.now)
        (account_of signals.old) (account_of signals.new) barrier.entry result }
    ensures same { IsSameThread signals.old signals.new }
{
    match barrier.arrive() {
        Arrival::Closer => {
            barrier.close();
            tables.sleep.wake_for_end(rt);
            ExitStatus::Remain(barrier)
        }
        Arrival::Arrived => await_end_or_leave(rt, tables, barrier, signals),
    }
}

// Waits for the closer as idle threads do, or leaves.
fn await_end_or_leave<'a, D: SlotContents, H: Wait>(
    rt: &H,
    tables: &Tables<D>,
    mut barrier: Barrier<'a, D>,
    signals: &mut Signals<'_>,
) -> ExitStatus<'a, D>
    requires held { IsHeld barrier }
    requires waiting { MayLeave (party_view barrier) }
    ensures status { EndedOrLeft barrier.entry result }
    ensures turns { WaitedForEnd (patience_of tables.now) (account_of signals.old)
        (account_of signals.new) barrier.entry.sense barrier.entry.seat.me result }
    ensures same { IsSameThread signals.old signals.new }
{
    let mut idle = tables.sleep.idle_until_end();
    for _ in rt.forever() {
        let asked = signals.requests_if(idle.looks_at_requests());
        barrier = match barrier.take_turn(asked) {
            Ok(barrier) => barrier,
            Err(status) => return status,
        };
        idle.pass_or_hurry(rt, asked > 0);
    }
    unreachable!()
}
