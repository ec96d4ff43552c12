//! The stop of a round: a party stops it, the others see that, and put their shares back. After the round the leader reads what hasn't
//! begun off the words that its round has left.
ghost use Rattle.std.specs.Prelude.{◌≡◌, ◌+◌, ◌<◌, ◌≤◌, ℕ, IsTrue, ◌↔◌, ◌==◌, ◌⊎◌, Bool, length, Some};
ghost use Rattle.spindle_rounds.specs.RoundSteps.{stopping, seeing};
ghost use Rattle.spindle_rounds.specs.RoundAnswers.{SeenBy, PutBy};
ghost use Rattle.spindle_rounds.specs.Leftovers.{HasMoment, LeftOverBy, EveryLeftover, AreUnbegun, IsFoundLeft, IsMarked};
ghost use Rattle.spindle_rounds.specs.RoundConditions.{MayFill, MayStop, MaySee, MayPutBack, IsItsShare};
ghost use Rattle.spindle_rounds.specs.Seating.{IsSeatAt, IsSameSeat};
ghost use Rattle.spindle_rounds.specs.RoundShown.{Showed, deeds_of};
ghost use Rattle.spindle_rounds.specs.RoundViews.{Onward, SharesAsBefore};
ghost use Rattle.spindle_rounds.specs.SlotSteps.{IsDeed};

use crate::round::Round;
use crate::round::claim::{Claimed, Share};
use crate::round_table::plays::{Finds, FindsRemainder, PutsBack, Searches, Sees, Stops};
use crate::round_table::slots::SlotContents;
use crate::round_table::{APART, HIGH, RANGES, REMAINDER, STOPPED, Seat};

/// What came of putting a share back into the range of a thread.
#[derive(Clone, Copy, Debug, PartialEq, Eq)]
pub enum PutBack {
    /// The range holds the share's numbers.
    Put,
    /// That range isn't empty.
    Occupied,
    /// Another step came between.
    Again,
}

impl<D: SlotContents> Round<D> {
    /// Stops the round, whose job has failed.
    pub fn stop(&self, seat: &mut Seat<D>, claimed: &Claimed)
        requires seated { IsSeatAt self.now.init seat.old }
        requires own { MayStop claimed.now seat.old.me.0 }
        ensures seat { IsSameSeat seat.old seat.new }
        ensures step { seat.new.me ≡ (stopping 1 seat.old.me.0, seat.old.me.1) }
    {
        let _failed = claimed;
        self.init.table.shared.store::<Stops>(seat, STOPPED, 1);
    }

    /// Whether the round was stopped.
    pub fn stopped(&self, seat: &mut Seat<D>) -> bool
        requires seated { IsSeatAt self.now.init seat.old }
        requires inside { MaySee seat.old.me.0 }
        ensures seat { IsSameSeat seat.old seat.new }
        ensures step { SeenBy result seat.old.me seat.new.me }
    {
        self.init.table.shared.load::<Sees>(seat, STOPPED) == 1
    }

    /// What is left: the range of thread t, or the remainder where t is the number of threads. Between rounds the leader
    /// knows these words from then on; `mark_left` says what they tell of the numbers that began.
    pub fn left(&self, seat: &mut Seat<D>, t: usize) -> u64
        requires seated { IsSeatAt self.now.init seat.old }
        requires there { t ≤ self.now.init.threads }
        ensures seat { IsSameSeat seat.old seat.new }
        ensures step { LeftOverBy self.now.init.threads t result seat.old.me seat.new.me }
        ensures moment { t ≡ self.now.init.threads → MayFill seat.old.me.0
            → HasMoment D.discipline seat.new.me.0 }
    {
        let words = &self.init.table.shared;
        if t < self.init.threads {
            words.load::<Finds>(seat, RANGES + APART * t)
        } else {
            words.load::<FindsRemainder<D>>(seat, REMAINDER)
        }
    }

    /// Puts a share back into the range of thread t, if that is empty.
    pub fn put_back(&self, seat: &mut Seat<D>, t: usize, share: &mut Share) -> PutBack
        requires seated { IsSeatAt self.now.init seat.old }
        requires thread { t < self.now.init.threads }
        requires free { MayPutBack seat.old.me.0 }
        requires own { IsItsShare share.old seat.old.me.0 }
        ensures seat { IsSameSeat seat.old seat.new }
        ensures step { PutBy t result share.old share.new seat.old.me seat.new.me }
    {
        let words = &self.init.table.shared;
        let word = RANGES + APART * t;
        let range = words.load::<Searches>(seat, word);
        if range % HIGH < range / HIGH {
            return PutBack::Occupied;
        }
        let (from, to) = share.bounds();
        let found = words.compare_exchange::<PutsBack>(seat, word, range, from + HIGH * to);
        if found != range {
            return PutBack::Again;
        }
        share.empty();
        PutBack::Put
    }
}

/// What ranges and remainder stand for at every moment after a round, as its leader has read them and while it stores
/// nothing for another: the numbers that haven't begun in that round, as the trails of all seats tell.
pub fn every_leftover<D: SlotContents>()
    ensures { EveryLeftover D.discipline }
{}

impl<D: SlotContents> Round<D> {
    /// After a round the leader marks the numbers that are left in the ranges and in the remainder, of as many as there are
    /// marks. Each word is read once.
    ///
    /// By its own trail these are the numbers that it found left; by the rule of the table they are the ones that nobody has
    /// begun. The last of its loads is a moment for which such rules speak.
    pub fn mark_left(&self, seat: &mut Seat<D>, marks: &mut Vec<bool>)
        requires seated { IsSeatAt self.now.init seat.old }
        requires sized { seat.old.me.0.threads ≡ self.now.init.threads }
        requires between { MayFill seat.old.me.0 }
        requires unmarked { (k : ℕ) → IsMarked marks.old.items k → ⊥ }
        ensures seat { IsSameSeat seat.old seat.new × (seat.new.me.1 ≡ seat.old.me.1) }
        ensures goes_on { Onward seat.old.me.0 seat.new.me.0 }
        ensures same { SharesAsBefore seat.old.me.0 seat.new.me.0
            × (seat.new.me.0.claim ≡ seat.old.me.0.claim) }
        ensures deeds { deeds_of seat.new.me.0.trail ≡ deeds_of seat.old.me.0.trail }
        ensures moment { HasMoment D.discipline seat.new.me.0 }
        ensures count { length marks.new.items ≡ length marks.old.items }
        ensures left { (k : ℕ) → IsMarked marks.new.items k
            ↔ IsFoundLeft seat.new.me.0 self.now.init.threads (length marks.old.items) k }
        ensures unbegun { (q : ℕ) (may_stop : Bool) → seat.old.me.0.laid ≡ Some q
            → IsDeed (Showed q (length marks.old.items) may_stop) (deeds_of seat.old.me.0.trail)
            → AreUnbegun D.discipline q (length marks.old.items) seat.new.me.0 (IsMarked marks.new.items) }
    {
        let threads = self.init.threads;
        for thread in 0..threads {
            let range = self.left(seat, thread);
            mark(marks, range % HIGH, range / HIGH);
        }
        let jobs = marks.len() as u64;
        let rest = self.left(seat, threads);
        mark(marks, jobs.saturating_sub(rest), jobs);
    }
}

// Marks the numbers from one up to another, the end not included, as far as there are marks.
fn mark(marks: &mut Vec<bool>, from: u64, to: u64)
    ensures count { length marks.new.items ≡ length marks.old.items }
    ensures marked { (k : ℕ) → IsMarked marks.new.items k
        ↔ (IsMarked marks.old.items k ⊎ ((from ≤ k) × (k < to) × (k < length marks.old.items))) }
{
    let end = (to as usize).min(marks.len());
    for number in from as usize..end {
        marks[number] = true;
    }
}
