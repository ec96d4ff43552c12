//! What a member of a round of two jobs does: it learns of the round, begins and finishes its jobs, and finds nothing left.
ghost use Rattle.std.specs.Prelude.{◌≡◌, ◌<◌, ◌≤◌, ℕ, Some, false, IfSome, IsTrue};
ghost use Rattle.spindle_rounds.specs.Holding.{IsHeld};
ghost use Rattle.spindle_rounds.specs.RoundConditions.{IsFreeInside, MayFill, MayClaim, MayFinish, MayArrive};
ghost use Rattle.spindle_rounds.specs.RoundViews.{Onward};
ghost use Rattle.spindle_rounds.specs.Seating.{IsSeatAt, IsSameSeat};

use super::play;
use spindle_rounds::barrier::Barrier;
use spindle_rounds::round::Round;
use spindle_rounds::round::claim::{Claim, Claimed, Steal};
use spindle_rounds::round_table::Seat;
use spindle_rounds::round_table::slots::Bare;
use std::process::Abort;

/// The leader fills and publishes a round of two jobs.
pub fn publish_two(round: &Round<Bare>, leader: &mut Barrier<Bare>)
    requires held { IsHeld leader.old }
    requires seated { IsSeatAt round.now.init leader.old.seat }
    requires leads { MayFill leader.old.seat.me.0 }
    requires free { IsFreeInside leader.old.seat.me.0 }
    ensures held { IsHeld leader.new }
    ensures seated { IsSeatAt round.now.init leader.new.seat }
    ensures same { (leader.new.seat.me.0.leader ≡ leader.old.seat.me.0.leader)
        × (leader.new.seat.me.0.threads ≡ leader.old.seat.me.0.threads) }
    ensures free { MayClaim leader.new.seat.me.0 }
{
    round.fill(leader.seat(), 2);
    round.publish(leader.seat(), 2);
}

/// Whether a member finds a round of two jobs published.
pub fn learn(round: &Round<Bare>, member: &mut Barrier<Bare>) -> bool
    requires held { IsHeld member.old }
    requires seated { IsSeatAt round.now.init member.old.seat }
    requires free { IsFreeInside member.old.seat.me.0 }
    ensures held { IsHeld member.new }
    ensures seated { IsSeatAt round.now.init member.new.seat }
    ensures same { (member.new.seat.me.0.leader ≡ member.old.seat.me.0.leader)
        × (member.new.seat.me.0.threads ≡ member.old.seat.me.0.threads) }
    ensures free { IsTrue result → MayClaim member.new.seat.me.0 }
{
    round.published(member.seat()) == 2
}

/// Begins a number of the remainder.
pub fn begin(rt: &impl Abort, round: &Round<Bare>, member: &mut Barrier<Bare>) -> Claimed
    requires held { IsHeld member.old }
    requires seated { IsSeatAt round.now.init member.old.seat }
    requires free { MayClaim member.old.seat.me.0 }
    ensures held { IsHeld member.new }
    ensures seated { IsSeatAt round.now.init member.new.seat }
    ensures same { (member.new.seat.me.0.leader ≡ member.old.seat.me.0.leader)
        × (member.new.seat.me.0.threads ≡ member.old.seat.me.0.threads) }
    ensures own { MayFinish result member.new.seat.me.0 }
    ensures share { member.new.seat.me.0.to ≤ member.new.seat.me.0.from }
    ensures knows { ((n : ℕ) × (member.new.seat.me.0.known.number ≡ Some n))
        × (member.new.seat.me.0.known.seen_stop ≡ false) }
{
    match round.try_claim_rest(member.seat()) {
        Claim::Job(claimed) => claimed,
        Claim::Nothing => rt.panic("the remainder is empty"),
        Claim::Again => rt.panic("another step came between"),
    }
}

/// Finishes that number, which is answered.
pub fn finish(round: &Round<Bare>, member: &mut Barrier<Bare>, claimed: Claimed) -> u64
    requires held { IsHeld member.old }
    requires seated { IsSeatAt round.now.init member.old.seat }
    requires own { MayFinish claimed member.old.seat.me.0 }
    requires share { member.old.seat.me.0.to ≤ member.old.seat.me.0.from }
    requires knows { ((n : ℕ) × (member.old.seat.me.0.known.number ≡ Some n))
        × (member.old.seat.me.0.known.seen_stop ≡ false) }
    ensures held { IsHeld member.new }
    ensures seated { IsSeatAt round.now.init member.new.seat }
    ensures same { (member.new.seat.me.0.leader ≡ member.old.seat.me.0.leader)
        × (member.new.seat.me.0.threads ≡ member.old.seat.me.0.threads) }
    ensures free { MayClaim member.new.seat.me.0 }
{
    play::finish(round, member.seat(), claimed)
}

/// Reads every range and the remainder as empty.
fn find_nothing(rt: &impl Abort, round: &Round<Bare>, seat: &mut Seat<Bare>)
    requires seated { IsSeatAt round.now.init seat.old }
    requires threads { seat.old.me.0.threads ≡ round.now.init.threads }
    requires free { MayClaim seat.old.me.0 }
    ensures seat { IsSameSeat seat.old seat.new }
    ensures goes_on { Onward seat.old.me.0 seat.new.me.0 }
    ensures done { MayArrive seat.new.me.0 }
{
    match round.try_steal(seat) {
        Steal::Nothing => {}
        Steal::Job(_claimed, _share) => rt.panic("a range isn't empty"),
        Steal::Again => rt.panic("another step came between"),
    }
    match round.try_claim_rest(seat) {
        Claim::Nothing => {}
        Claim::Job(_claimed) => rt.panic("the remainder isn't empty"),
        Claim::Again => rt.panic("another step came between"),
    }
}

/// A member finds nothing left of its round.
pub fn find_nothing_left(rt: &impl Abort, round: &Round<Bare>, member: &mut Barrier<Bare>)
    requires held { IsHeld member.old }
    requires seated { IsSeatAt round.now.init member.old.seat }
    requires threads { member.old.seat.me.0.threads ≡ round.now.init.threads }
    requires free { MayClaim member.old.seat.me.0 }
    ensures held { IsHeld member.new }
    ensures seated { IsSeatAt round.now.init member.new.seat }
    ensures same { (member.new.seat.me.0.leader ≡ member.old.seat.me.0.leader)
        × (member.new.seat.me.0.threads ≡ member.old.seat.me.0.threads) }
    ensures done { MayArrive member.new.seat.me.0 }
{
    find_nothing(rt, round, member.seat());
}
