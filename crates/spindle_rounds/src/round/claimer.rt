//! A party at work in a published round: it claims numbers in one order, and what is done with each is a parameter.
//!
//! A party takes numbers from its own range, then steals from the longest range, a share at a time, and at last takes
//! from the remainder. In a round that may stop it looks before each claim whether the round was stopped; then it puts
//! its share back, and nothing of the round is left for it. Whoever finishes the round's last job looks no further.
//!
//! What is done with a number is a `Work`. Its `holds` is what is true between two numbers, of the work and of the slots
//! in the seat's hands; `keeps` is what stays from one number to the next, of the work and of what the seat knows. What a
//! claim took from the slots stands in the clause `taken`. A work that has nothing to say writes `Unit {0}` for both. It
//! goes to `Claimer::work` by value and comes back; a ghost field keeps what is needed of what it borrowed.
//!
//! Who calls `Claimer::work` has a seat that is at work in the published round (`IsAtPublished`), with nothing claimed and no share, and
//! afterwards one that may arrive: the clauses `idle` and `done` are what `Barrier::arrive` asks.
ghost use Rattle.std.specs.Prelude.{◌≡◌, ◌+◌, ◌<◌, ℕ, List, None, true, MatchBool};
ghost use denote.Param.Send.{IsSync};
ghost use Rattle.spindle_rounds.specs.RoundConditions.{MayFinish, MayPutBack, IsItsShare, IsDone, HasEmptiedAll};
ghost use Rattle.spindle_rounds.specs.RoundViews.{Onward, SharesAsBefore, StopsAsBefore};
ghost use Rattle.spindle_rounds.specs.Seating.{IsSameSeat};
ghost use Rattle.spindle_rounds.specs.Sources.{IsIn, HasEmptied, HasLeft};
ghost use Rattle.spindle_rounds.specs.Working.{IsIdle};
ghost use Rattle.spindle_rounds.specs.declared.round_table.view.View.{View};
ghost use Rattle.spindle_rounds.specs.PartyWork.{IsAtPublished, WentOn, HasTaken, HasFinished};

use crate::round::Round;
use crate::round::claim::{Claimed, Share};
use crate::round::claiming::{Source, Taken};
use crate::round::publishing::PublishedRound;
use crate::round::stopping::PutBack;
use crate::round_table::Seat;
use crate::round_table::slots::SlotContents;
use std::sync::Wait;
use std::thread;
use std::thread::Threads;

/// A party's place in a published round.
#[derive(Drop)]
pub struct Claimer<'r, D: SlotContents> {
    /// The rounds of its table.
    pub round: &'r Round<D>,
    /// Its thread number, which is that of its range.
    pub thread: usize,
    /// What the published word says of the round.
    pub published: PublishedRound,
    ghost placed: { thread < round.now.init.threads },
}

/// What a party does with each number that it has begun.
pub trait Work<D: SlotContents> {
    /// What holds of the work, and of the slots in its seat's hands, between two numbers.
    ghost holds: { Self → List (ℕ × D.Slot) → Type 0 };

    /// What stays from one number to the next, of the work and of what its seat knows.
    ghost keeps: { Self → View D.Note → Self → View D.Note → Type 0 };

    /// Does what belongs to a number that has begun, and finishes it. It may stop a round that may stop. Answers how many jobs of
    /// the round were finished before this one.
    fn run<H: Threads + Wait + Sync>(
        &mut self,
        rt: &H,
        claimer: &Claimer<'_, D>,
        seat: &mut Seat<D>,
        claimed: Claimed,
    ) -> u64
        requires sync { IsSync H.row }
        requires at { IsAtPublished claimer.now.round.now claimer.now.published seat.old }
        requires own { MayFinish claimed seat.old.me.0 }
        requires taken { HasTaken D.discipline (holds self.old) claimed seat.old.me }
        ensures seat { IsSameSeat seat.old seat.new }
        ensures finished { HasFinished result seat.old.me.0 seat.new.me.0 }
        ensures holds { holds self.new seat.new.me.1 }
        ensures keeps { keeps self.old seat.old.me.0 self.new seat.new.me.0 };

    ghost keeps_same: { (w : Self) (x y : View D.Note) → Onward x y → StopsAsBefore x y
        → keeps w x w y };

    ghost keeps_then: { (u v w : Self) (x y z : View D.Note) → keeps u x v y → keeps v y w z
        → keeps u x w z };
}

impl<'r, D: SlotContents> Claimer<'r, D> {
    /// Works until nothing of the round is left for the party.
    pub fn work<W: Work<D> + Drop, H: Threads + Wait + Sync>(
        &self,
        rt: &H,
        seat: &mut Seat<D>,
        mut work: W,
    ) -> W
        requires at { IsAtPublished self.now.round.now self.now.published seat.old }
        requires idle { IsIdle seat.old.me.0 }
        requires holds { W.holds work seat.old.me.1 }
        ensures went { WentOn self.now.round.now self.now.published seat.old seat.new }
        ensures idle { IsIdle seat.new.me.0 }
        ensures done { IsDone seat.new.me.0 }
        ensures holds { W.holds result seat.new.me.1 }
        ensures keeps { W.keeps work seat.old.me.0 result seat.new.me.0 }
    {
        self.work_off(rt, seat, &mut work);
        work
    }

    // Its own range, then the longest ones, then the remainder.
    fn work_off<W: Work<D>, H: Threads + Wait + Sync>(
        &self,
        rt: &H,
        seat: &mut Seat<D>,
        work: &mut W,
    )
        requires at { IsAtPublished self.now.round.now self.now.published seat.old }
        requires idle { IsIdle seat.old.me.0 }
        requires holds { W.holds work.old seat.old.me.1 }
        ensures went { WentOn self.now.round.now self.now.published seat.old seat.new }
        ensures idle { IsIdle seat.new.me.0 }
        ensures done { IsDone seat.new.me.0 }
        ensures holds { W.holds work.new seat.new.me.1 }
        ensures keeps { W.keeps work.old seat.old.me.0 work.new seat.new.me.0 }
    {
        if self.run_from(rt, seat, work, Source::Range(self.thread)) {
            return;
        }
        if self.run_from(rt, seat, work, Source::Longest) {
            return;
        }
        self.run_from(rt, seat, work, Source::Remainder);
    }

    // Whether the round was stopped.
    fn sees_stop(&self, seat: &mut Seat<D>) -> bool
        requires at { IsAtPublished self.now.round.now self.now.published seat.old }
        ensures went { WentOn self.now.round.now self.now.published seat.old seat.new }
        ensures same { SharesAsBefore seat.old.me.0 seat.new.me.0
            × (seat.new.me.0.claim ≡ seat.old.me.0.claim) }
        ensures stops { StopsAsBefore seat.old.me.0 seat.new.me.0 }
        ensures hands { seat.new.me.1 ≡ seat.old.me.1 }
        ensures seen { seat.new.me.0.known.seen_stop ≡ result }
    {
        self.published.may_stop && self.round.stopped(seat)
    }

    // The numbers of a source until it is empty, or until nothing of the round is left for the party: then it answers true.
    fn run_from<W: Work<D>, H: Threads + Wait + Sync>(
        &self,
        rt: &H,
        seat: &mut Seat<D>,
        work: &mut W,
        source: Source,
    ) -> bool
        requires at { IsAtPublished self.now.round.now self.now.published seat.old }
        requires there { IsIn self.now.round.now.init.threads source }
        requires idle { IsIdle seat.old.me.0 }
        requires holds { W.holds work.old seat.old.me.1 }
        ensures went { WentOn self.now.round.now self.now.published seat.old seat.new }
        ensures idle { IsIdle seat.new.me.0 }
        ensures left { MatchBool result (IsDone seat.new.me.0) (HasEmptied source seat.new.me.0) }
        ensures holds { W.holds work.new seat.new.me.1 }
        ensures keeps { W.keeps work.old seat.old.me.0 work.new seat.new.me.0 }
    {
        for _ in rt.forever() {
            if self.sees_stop(seat) {
                return true;
            }
            match source.try_claim(self.round, seat) {
                Taken::Job(claimed, share) => {
                    if self.run(rt, seat, work, claimed, share) {
                        return true;
                    }
                }
                Taken::Nothing => return false,
                Taken::Again => {}
            }
        }
        unreachable!()
    }

    // A number that has begun, and then the share that was taken with it. True where nothing of the round is left for the party.
    fn run<W: Work<D>, H: Threads + Wait + Sync>(
        &self,
        rt: &H,
        seat: &mut Seat<D>,
        work: &mut W,
        claimed: Claimed,
        share: Option<Share>,
    ) -> bool
        requires at { IsAtPublished self.now.round.now self.now.published seat.old }
        requires own { MayFinish claimed seat.old.me.0 }
        requires share { HasLeft share seat.old.me.0 }
        requires taken { HasTaken D.discipline (W.holds work.old) claimed seat.old.me }
        ensures went { WentOn self.now.round.now self.now.published seat.old seat.new }
        ensures idle { IsIdle seat.new.me.0 }
        ensures over { result ≡ true → IsDone seat.new.me.0 }
        ensures holds { W.holds work.new seat.new.me.1 }
        ensures keeps { W.keeps work.old seat.old.me.0 work.new seat.new.me.0 }
    {
        let is_over = self.is_last(work.run(rt, self, seat, claimed));
        match share {
            Some(share) => self.run_share(rt, seat, work, share, is_over),
            None => is_over,
        }
    }

    // Whether the job before which so many were finished is the round's last.
    fn is_last(&self, before: u64) -> bool
        ensures { result ≡ true → self.now.published.jobs ≡ before + 1 }
    {
        self.published.jobs.saturating_sub(before) == 1
    }

    // The numbers of a share, where `is_over` says whether nothing of the round is left beside them; true where nothing is left
    // for the party. Where the round is stopped the rest of the share goes back.
    fn run_share<W: Work<D>, H: Threads + Wait + Sync>(
        &self,
        rt: &H,
        seat: &mut Seat<D>,
        work: &mut W,
        mut share: Share,
        mut is_over: bool,
    ) -> bool
        requires at { IsAtPublished self.now.round.now self.now.published seat.old }
        requires idle { seat.old.me.0.claim ≡ None }
        requires share { IsItsShare share seat.old.me.0 }
        requires over { is_over ≡ true → HasEmptiedAll seat.old.me.0 }
        requires holds { W.holds work.old seat.old.me.1 }
        ensures went { WentOn self.now.round.now self.now.published seat.old seat.new }
        ensures idle { IsIdle seat.new.me.0 }
        ensures over { result ≡ true → IsDone seat.new.me.0 }
        ensures holds { W.holds work.new seat.new.me.1 }
        ensures keeps { W.keeps work.old seat.old.me.0 work.new seat.new.me.0 }
    {
        for _ in rt.forever() {
            if self.sees_stop(seat) {
                self.put_back(rt, seat, share);
                return true;
            }
            match self.round.next_of_share(seat, self.thread, &mut share) {
                Some(claimed) => is_over = self.is_last(work.run(rt, self, seat, claimed)),
                None => {
                    share.done();
                    return is_over;
                }
            }
        }
        unreachable!()
    }

    // The range that is tried in this turn for a share that goes back: the party's own, then the others.
    fn range_of_turn(&self, turn: usize) -> usize
        requires { turn < self.now.round.now.init.threads }
        ensures { result < self.now.round.now.init.threads }
    {
        if turn == 0 {
            self.thread
        } else if turn <= self.thread {
            turn - 1
        } else {
            turn
        }
    }

    // Puts a share back into its own range, or into the first of the others that is empty.
    fn put_back<H: Wait>(&self, rt: &H, seat: &mut Seat<D>, mut share: Share)
        requires at { IsAtPublished self.now.round.now self.now.published seat.old }
        requires free { MayPutBack seat.old.me.0 }
        requires share { IsItsShare share seat.old.me.0 }
        ensures went { WentOn self.now.round.now self.now.published seat.old seat.new }
        ensures idle { IsIdle seat.new.me.0 }
        ensures seen { seat.new.me.0.known.seen_stop ≡ true }
        ensures stops { StopsAsBefore seat.old.me.0 seat.new.me.0 }
        ensures hands { seat.new.me.1 ≡ seat.old.me.1 }
    {
        let mut turn = 0;
        for _ in rt.forever() {
            let range = self.range_of_turn(turn);
            if let PutBack::Put = self.round.put_back(seat, range, &mut share) {
                return share.done();
            }
            thread::yield_now();
            turn = (turn + 1) % self.round.init.threads;
        }
        unreachable!()
    }
}
