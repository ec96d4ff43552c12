//! What a party of a barrier without a round does in tests: it joins and arrives.
ghost use Rattle.std.specs.Prelude.{◌≡◌};
ghost use Rattle.spindle_rounds.specs.Holding.{IsHeld};
ghost use Rattle.spindle_rounds.specs.RoundConditions.{IsClosing, IsDone, MayExit, MayLeave};
ghost use Rattle.spindle_rounds.specs.Working.{IsIdle};
ghost use Rattle.spindle_rounds.specs.declared.round_table.view.Standing.TheVariants.{Away};
ghost use Rattle.spindle_rounds.specs.Seating.{IsSeatAt};

use spindle_rounds::barrier::steps::Arrival;
use spindle_rounds::barrier::{Barrier, BarrierInit};
use spindle_rounds::round_table::Seat;
use spindle_rounds::round_table::slots::Bare;
use std::process::Abort;

/// A party that is out joins.
pub fn join<'a>(
    rt: &impl Abort,
    init: &'a BarrierInit<Bare>,
    seat: Seat<Bare>,
    thread: usize,
) -> Barrier<'a, Bare>
    requires seated { IsSeatAt init.now seat }
    requires away { seat.me.0.standing ≡ Away }
    requires idle { IsIdle seat.me.0 × (seat.me.0.threads ≡ 0) }
    ensures held { IsHeld result }
    ensures home { result.init.now ≡ init.now }
    ensures done { IsDone result.seat.me.0 }
    ensures goes { MayExit result.seat.me.0 }
{
    let Ok(party) = init.try_join(seat, thread) else {
        rt.panic("a join was refused")
    };
    party
}

/// A party arrives, though not last, and waits.
pub fn arrive(rt: &impl Abort, party: &mut Barrier<Bare>)
    requires held { IsHeld party.old }
    requires done { IsDone party.old.seat.me.0 }
    requires goes { MayExit party.old.seat.me.0 }
    ensures held { IsHeld party.new }
    ensures waits { MayLeave party.new.seat.me.0 }
{
    let Arrival::Arrived = party.arrive() else {
        rt.panic("a party that isn't the last closes")
    };
}

/// A party arrives last, and closes.
pub fn arrive_last(rt: &impl Abort, party: &mut Barrier<Bare>)
    requires held { IsHeld party.old }
    requires done { IsDone party.old.seat.me.0 }
    requires goes { MayExit party.old.seat.me.0 }
    ensures held { IsHeld party.new }
    ensures closes { IsClosing party.new.seat.me.0 }
{
    let Arrival::Closer = party.arrive() else {
        rt.panic("the last to arrive doesn't close")
    };
}
