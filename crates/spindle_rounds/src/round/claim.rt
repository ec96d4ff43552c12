//! What a claim gives: a number that has begun, and a share of numbers to begin. Both must be spent. The end of a job counts its number
//! as finished, and spends the claim.
ghost use Rattle.std.specs.Prelude.{◌≡◌, ◌+◌, ◌<◌, ◌≤◌, ℕ, Bool, true, IsTrue, ◌↔◌};
ghost use Rattle.spindle_rounds.specs.Spans.{Span};
ghost use Rattle.spindle_rounds.specs.PartyWork.{HasFinished};
ghost use Rattle.spindle_rounds.specs.RoundAnswers.{FinishedBy};
ghost use Rattle.spindle_rounds.specs.RoundSteps.{finishing};
ghost use Rattle.spindle_rounds.specs.RoundConditions.{MayFinish, MayGive};
ghost use Rattle.spindle_rounds.specs.Seating.{IsSeatAt, IsSameSeat};

use crate::round::Round;
use crate::round_table::plays::Finishes;
use crate::round_table::slots::{Bare, SlotContents};
use crate::round_table::{FINISHED, Seat};
use std::marker::Model;

/// A number that a party has begun. It is spent by `Round::finish`.
pub struct Claimed {
    number: u64,
}

/// A claim is its number.
impl Model for Claimed {
    ghost use Rattle.std.specs.Prelude.{ℕ};

    ghost Value = { ℕ };

    ghost view = { λ claim. claim.number };
}

impl Claimed {
    pub(crate) fn new(number: u64) -> Claimed
        ensures { result ≡ number }
    {
        Claimed { number }
    }

    /// The number of the job.
    pub fn number(&self) -> u64
        ensures { result ≡ self.now }
    {
        self.number
    }

    pub(crate) fn spend(self) {
        let Claimed { number: _ } = self;
    }
}

/// What came of a claim.
pub enum Claim {
    /// The number that begins.
    Job(Claimed),
    /// The words that were asked were read as empty in this call.
    Nothing,
    /// Another step came between.
    Again,
}

/// Numbers that a party has taken and not begun. It is spent by `Share::done` once it is empty.
pub struct Share {
    from: u64,
    to: u64,
}

/// A share is the numbers left in it.
impl Model for Share {
    ghost use Rattle.std.specs.Prelude.{◌≤◌};
    ghost use Rattle.spindle_rounds.specs.Spans.{Span};

    ghost Value = { Span };

    ghost view = { λ share. record { from = share.from; to = share.to } };

    ghost invariant = { λ share. (share.from ≤ share.to) × (share.to ≤ 4294967295) };
}

impl Share {
    pub(crate) fn new(from: u64, to: u64) -> Share
        requires { (from ≤ to) × (to ≤ 4294967295) }
        ensures { (result.from ≡ from) × (result.to ≡ to) }
    {
        Share { from, to }
    }

    /// Whether no number is left.
    pub fn is_empty(&self) -> bool
        ensures { IsTrue result ↔ (self.now.from ≡ self.now.to) }
    {
        self.from == self.to
    }

    /// Spends an empty share.
    pub fn done(self)
        requires { self.from ≡ self.to }
    {
        let Share { from: _, to: _ } = self;
    }

    /// The first number and the end.
    pub fn bounds(&self) -> (u64, u64)
        ensures value { (result.0 ≡ self.now.from) × (result.1 ≡ self.now.to) }
        ensures ordered { (result.0 ≤ result.1) × (result.1 ≤ 4294967295) }
    {
        (self.from, self.to)
    }

    /// Without its first number.
    pub(crate) fn drop_first(&mut self)
        requires { self.old.from < self.old.to }
        ensures { (self.new.from ≡ self.old.from + 1) × (self.new.to ≡ self.old.to) }
    {
        self.from += 1;
    }

    /// Without any number.
    pub(crate) fn empty(&mut self)
        ensures { (self.new.from ≡ self.old.to) × (self.new.to ≡ self.old.to) }
    {
        self.from = self.to;
    }
}

/// What came of a steal: the first number of the last half of the longest range, and the rest of that half.
pub enum Steal {
    /// The number that begins, and the numbers after it, which may be none.
    Job(Claimed, Share),
    /// Every range was read as empty in this call.
    Nothing,
    /// Another step came between.
    Again,
}

/// A piece of a round that was run. The round knows its number, and that its outputs answer its inputs.
pub trait Numbered {
    /// The number of the piece.
    ghost number: { Self → ℕ };

    /// Its outputs answer its inputs, as its kind of job asks.
    ghost answered: { Self → Type 0 };

    /// Tells this of a piece: each one of the type is answered.
    fn tell_answered(&self)
        ensures { answered self.now };
}

impl<D: SlotContents> Round<D> {
    /// The number of the seat's claim is counted as finished, by one fetch_add, which answers how many were before. Its slot,
    /// if it has one, goes back.
    pub(crate) fn count_finished(&self, seat: &mut Seat<D>, claimed: Claimed) -> u64
        requires seated { IsSeatAt self.now.init seat.old }
        requires own { MayFinish claimed seat.old.me.0 }
        requires slot { MayGive D.discipline claimed seat.old.me }
        ensures seat { IsSameSeat seat.old seat.new }
        ensures step { FinishedBy D.discipline result seat.old.me seat.new.me }
    {
        claimed.spend();
        self.init
            .table
            .shared
            .fetch_add::<Finishes<D>>(seat, FINISHED, 1)
    }
}

impl Round<Bare> {
    /// Finishes the job that the seat has claimed, whose piece was run: its outputs answer its inputs. Answers how many jobs of
    /// the round were finished before. Who finishes the last one knows that nothing is left.
    pub fn finish<P: Numbered>(&self, seat: &mut Seat<Bare>, claimed: Claimed, piece: &P) -> u64
        requires seated { IsSeatAt self.now.init seat.old }
        requires own { MayFinish claimed seat.old.me.0 }
        requires piece { P.number piece.now ≡ claimed }
        ensures seat { IsSameSeat seat.old seat.new }
        ensures step { seat.new.me ≡ (finishing result seat.old.me.0, seat.old.me.1) }
        ensures finished { HasFinished result seat.old.me.0 seat.new.me.0 }
        ensures answered { P.answered piece.now }
    {
        piece.tell_answered();
        self.count_finished(seat, claimed)
    }
}
