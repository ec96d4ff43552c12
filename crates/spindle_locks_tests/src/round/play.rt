//! What one thread does in a round: each claims, runs and finishes.
ghost use Rattle.std.specs.Prelude.{◌≡◌, ◌<◌, ◌≤◌, true};
ghost use Rattle.std.proofs.Common.{rules};
ghost use Rattle.spindle_rounds.specs.Parties.{IsOut, IsIn};
ghost use Rattle.spindle_rounds.specs.RoundConditions.{IsFreeInside, MayFill, MayClaim, MayBegin, MayFinish, IsItsShare};
ghost use Rattle.spindle_rounds.specs.RoundViews.{Onward, SeesAsBefore, SharesAsBefore};
ghost use Rattle.spindle_rounds.specs.Seating.{IsSeatAt, IsSameSeat};
ghost use Rattle.spindle_rounds.specs.Words.{words_of};

use spindle_rounds::barrier::Barrier;
use spindle_rounds::round::Round;
use spindle_rounds::round::claim::{Claim, Claimed, Numbered, Share, Steal};
use spindle_rounds::round::stopping::PutBack;
use spindle_rounds::round_table::Seat;
use spindle_rounds::round_table::slots::Bare;
use std::process::Abort;
use std::sync::Wait;
use std::thread::Threads;

/// A piece of no items.
#[derive(Drop)]
pub struct Empty {
    /// Its number.
    pub number: u64,
}

impl Numbered for Empty {
    ghost number = { λ piece. piece.number };

    ghost answered = { λ piece. Unit {0} };

    fn tell_answered(&self) {}
}

/// A party that is out joins.
pub fn enter<'a>(
    rt: &impl Abort,
    round: &'a Round<Bare>,
    seat: Seat<Bare>,
    thread: usize,
) -> Barrier<'a, Bare>
    requires out { IsOut round.now seat.me.0.leader seat }
    ensures party { IsIn round.now seat.me.0.leader result }
    ensures leads { seat.me.0.leader ≡ true → MayFill result.seat.me.0 }
{
    let Ok(member) = round.init().try_join(seat, thread) else {
        rt.panic("a party's join was refused")
    };
    member
}

/// Finishes a number, with no items.
pub fn finish(round: &Round<Bare>, seat: &mut Seat<Bare>, claimed: Claimed) -> u64
    requires seated { IsSeatAt round.now.init seat.old }
    requires own { MayFinish claimed seat.old.me.0 }
    ensures seat { IsSameSeat seat.old seat.new }
    ensures goes_on { Onward seat.old.me.0 seat.new.me.0
        × SeesAsBefore seat.old.me.0 seat.new.me.0 }
    ensures share { SharesAsBefore seat.old.me.0 seat.new.me.0 × (seat.new.me.0.claim ≡ None) }
{
    let number = claimed.number();
    round.finish(seat, claimed, &Empty { number });
    number
}

/// Claims and finishes the first number of the range of thread t.
pub fn own(round: &Round<Bare>, seat: &mut Seat<Bare>, t: usize) -> Option<u64>
    requires seated { IsSeatAt round.now.init seat.old }
    requires thread { t < round.now.init.threads }
    requires free { MayClaim seat.old.me.0 }
    ensures seat { IsSameSeat seat.old seat.new }
    ensures free { MayClaim seat.new.me.0 }
    ensures may { seat.new.me.0.known.may_stop ≡ seat.old.me.0.known.may_stop }
{
    match round.try_claim_own(seat, t) {
        Claim::Job(claimed) => Some(finish(round, seat, claimed)),
        Claim::Nothing => None,
        Claim::Again => None,
    }
}

/// Claims and finishes the first number left of the remainder.
pub fn rest(round: &Round<Bare>, seat: &mut Seat<Bare>) -> Option<u64>
    requires seated { IsSeatAt round.now.init seat.old }
    requires free { MayClaim seat.old.me.0 }
    ensures seat { IsSameSeat seat.old seat.new }
    ensures free { MayClaim seat.new.me.0 }
{
    match round.try_claim_rest(seat) {
        Claim::Job(claimed) => Some(finish(round, seat, claimed)),
        Claim::Nothing => None,
        Claim::Again => None,
    }
}

/// Steals, and finishes what it has got: the number of the steal, and how many numbers of its share followed.
pub fn steal(round: &Round<Bare>, seat: &mut Seat<Bare>) -> Option<(u64, u64)>
    requires seated { IsSeatAt round.now.init seat.old }
    requires threads { 0 < round.now.init.threads }
    requires free { MayClaim seat.old.me.0 }
    ensures seat { IsSameSeat seat.old seat.new }
    ensures free { MayClaim seat.new.me.0 }
{
    match round.try_steal(seat) {
        Steal::Job(claimed, share) => {
            let number = finish(round, seat, claimed);
            Some((number, spend(round, seat, share)))
        }
        Steal::Nothing => None,
        Steal::Again => None,
    }
}

/// Begins and finishes what is left of a share: how many numbers that were.
pub fn spend(round: &Round<Bare>, seat: &mut Seat<Bare>, mut share: Share) -> u64
    requires seated { IsSeatAt round.now.init seat.old }
    requires threads { 0 < round.now.init.threads }
    requires free { MayBegin seat.old.me.0 }
    requires own { IsItsShare share seat.old.me.0 }
    ensures seat { IsSameSeat seat.old seat.new }
    ensures goes_on { Onward seat.old.me.0 seat.new.me.0
        × SeesAsBefore seat.old.me.0 seat.new.me.0 }
    ensures free { (seat.new.me.0.to ≤ seat.new.me.0.from) × (seat.new.me.0.claim ≡ None) }
{
    let (from, to) = share.bounds();
    let mut count = 0;
    for i in from..to {
        match round.next_of_share(seat, 0, &mut share) {
            Some(claimed) => {
                finish(round, seat, claimed);
                count = i + 1 - from;
            }
            None => {}
        }
    }
    share.done();
    count
}

/// Fills and publishes a round of n jobs that may stop.
pub fn lead(round: &Round<Bare>, seat: &mut Seat<Bare>, jobs: u64)
    requires seated { IsSeatAt round.now.init seat.old }
    requires leads { MayFill seat.old.me.0 }
    requires free { IsFreeInside seat.old.me.0 }
    requires counted { (2 ≤ jobs) × (jobs ≤ 4294967295) }
    ensures seat { IsSameSeat seat.old seat.new }
    ensures free { MayClaim seat.new.me.0 }
    ensures may { seat.new.me.0.known.may_stop ≡ true }
{
    round.fill(seat, jobs);
    round.publish_try(seat, jobs);
}

/// Steals, stops the round, and tries to put the share back into the ranges 1 and 0.
pub fn steal_and_stop(
    rt: &impl Abort,
    round: &Round<Bare>,
    seat: &mut Seat<Bare>,
) -> Option<(PutBack, PutBack, bool)>
    requires seated { IsSeatAt round.now.init seat.old }
    requires threads { 1 < round.now.init.threads }
    requires free { MayClaim seat.old.me.0 }
    requires may { seat.old.me.0.known.may_stop ≡ true }
    ensures { IsSameSeat seat.old seat.new }
{
    match round.try_steal(seat) {
        Steal::Job(claimed, mut share) => {
            round.stop(seat, &claimed);
            finish(round, seat, claimed);
            let first = round.put_back(seat, 1, &mut share);
            let second = round.put_back(seat, 0, &mut share);
            if !share.is_empty() {
                rt.panic("the share was put back nowhere")
            }
            share.done();
            Some((first, second, round.stopped(seat)))
        }
        Steal::Nothing => None,
        Steal::Again => None,
    }
}

/// What a word of the table holds.
pub fn word(round: &Round<Bare>, i: usize) -> u64
    requires { i < words_of round.now.init.threads }
{
    round.init().peek(i)
}
