//! Where a party claims numbers: from its own range, from the longest range of all by a steal, and from the remainder. By one exchange a
//! number begins. A thief takes the last half of a range, and spends it number by number.
ghost use Rattle.std.specs.Prelude.{◌≡◌, ◌<◌, ◌+◌, ℕ};
ghost use Rattle.spindle_rounds.specs.RoundAnswers.{OwnClaimedBy, RemainderClaimedBy, ReadAll, StolenBy, SharedBy};
ghost use Rattle.spindle_rounds.specs.RoundSteps.{number_or, stolen_from};
ghost use Rattle.spindle_rounds.specs.RoundConditions.{MayClaim, MayBegin, IsItsShare};
ghost use Rattle.spindle_rounds.specs.Seating.{IsSeatAt, IsSameSeat};
ghost use Rattle.spindle_rounds.specs.Sources.{IsIn, AfterTaking, of_claim, of_steal};
ghost use Rattle.spindle_rounds.specs.Words.{start_of, end_of, length_of};

use crate::round::Round;
use crate::round::claim::{Claim, Claimed, Share, Steal};
use crate::round_table::plays::{
    Claims, ClaimsRemainder, ReadsRemainder, Recalls, Searches, Steals, TakesShare,
};
use crate::round_table::slots::SlotContents;
use crate::round_table::{APART, HIGH, PUBLISHED, RANGES, REMAINDER, Seat};

impl<D: SlotContents> Round<D> {
    /// Claims the first number of the range of thread t.
    pub fn try_claim_own(&self, seat: &mut Seat<D>, t: usize) -> Claim
        requires seated { IsSeatAt self.now.init seat.old }
        requires thread { t < self.now.init.threads }
        requires free { MayClaim seat.old.me.0 }
        ensures seat { IsSameSeat seat.old seat.new }
        ensures step { OwnClaimedBy D.discipline t result seat.old.me seat.new.me }
    {
        let words = &self.init.table.shared;
        let word = RANGES + APART * t;
        let range = words.load::<Searches>(seat, word);
        if range / HIGH <= range % HIGH {
            return Claim::Nothing;
        }
        let found = words.compare_exchange::<Claims<D>>(seat, word, range, range + 1);
        if found == range {
            Claim::Job(Claimed::new(range % HIGH))
        } else {
            Claim::Again
        }
    }

    /// Claims the first number left of the remainder.
    pub fn try_claim_rest(&self, seat: &mut Seat<D>) -> Claim
        requires seated { IsSeatAt self.now.init seat.old }
        requires free { MayClaim seat.old.me.0 }
        ensures seat { IsSameSeat seat.old seat.new }
        ensures step { RemainderClaimedBy D.discipline (number_or seat.old.me.0.known.number)
            result seat.old.me seat.new.me }
    {
        let words = &self.init.table.shared;
        let rest = words.load::<ReadsRemainder>(seat, REMAINDER);
        if rest == 0 {
            return Claim::Nothing;
        }
        // A seat has no bytes to keep the number of jobs in, so it is read again.
        let jobs = words.load::<Recalls>(seat, PUBLISHED) % HIGH;
        let found = words.compare_exchange::<ClaimsRemainder<D>>(seat, REMAINDER, rest, rest - 1);
        if found == rest {
            Claim::Job(Claimed::new(jobs - rest))
        } else {
            Claim::Again
        }
    }
}

/// What a party takes numbers from.
#[derive(Clone, Copy)]
pub enum Source {
    /// The range of this thread number.
    Range(usize),
    /// The longest of all ranges.
    Longest,
    /// The numbers of no thread's range.
    Remainder,
}

/// What came of a claim from a source: a number that has begun, and after a steal the rest of what was stolen.
pub enum Taken {
    /// The number that begins, and the rest of what was stolen; none after a claim from elsewhere.
    Job(Claimed, Option<Share>),
    /// The source was read as empty in this call.
    Nothing,
    /// Another step came between.
    Again,
}

impl Taken {
    fn of_claim(claim: Claim) -> Taken
        ensures { result ≡ of_claim claim }
    {
        match claim {
            Claim::Job(claimed) => Taken::Job(claimed, None),
            Claim::Nothing => Taken::Nothing,
            Claim::Again => Taken::Again,
        }
    }

    fn of_steal(steal: Steal) -> Taken
        ensures { result ≡ of_steal steal }
    {
        match steal {
            Steal::Job(claimed, share) => Taken::Job(claimed, Some(share)),
            Steal::Nothing => Taken::Nothing,
            Steal::Again => Taken::Again,
        }
    }
}

impl Source {
    /// Claims the next number, if there is one and no step comes between.
    pub fn try_claim<D: SlotContents>(self, round: &Round<D>, seat: &mut Seat<D>) -> Taken
        requires seated { IsSeatAt round.now.init seat.old }
        requires sized { seat.old.me.0.threads ≡ round.now.init.threads }
        requires there { IsIn round.now.init.threads self }
        requires free { MayClaim seat.old.me.0 }
        ensures seat { IsSameSeat seat.old seat.new }
        ensures taken { AfterTaking D.discipline self result seat.old.me seat.new.me }
    {
        match self {
            Source::Range(thread) => Taken::of_claim(round.try_claim_own(seat, thread)),
            Source::Longest => Taken::of_steal(round.try_steal(seat)),
            Source::Remainder => Taken::of_claim(round.try_claim_rest(seat)),
        }
    }
}

/// How many numbers a range holds.
fn length(range: u64) -> u64
    ensures { result ≡ length_of range }
{
    let (start, end) = (range % HIGH, range / HIGH);
    if start < end { end - start } else { 0 }
}

/// Where the last half of a range starts. Half is rounded down, and at least 1.
fn last_half(range: u64) -> u64
    requires { start_of range < end_of range }
    ensures { result ≡ stolen_from range }
{
    let half = length(range) / 2;
    if half == 0 {
        range / HIGH - 1
    } else {
        range / HIGH - half
    }
}

impl<D: SlotContents> Round<D> {
    /// Reads all ranges: whose is the longest, the first among equals, and its value.
    fn longest(&self, seat: &mut Seat<D>) -> (usize, u64)
        requires seated { IsSeatAt self.now.init seat.old }
        ensures seat { IsSameSeat seat.old seat.new }
        ensures read { ReadAll self.now.init.threads result.0 result.1 seat.old.me seat.new.me }
    {
        let words = &self.init.table.shared;
        let mut thread = 0;
        let mut range = 0;
        for i in 0..self.init.threads {
            let found = words.load::<Searches>(seat, RANGES + APART * i);
            if length(range) < length(found) {
                thread = i;
                range = found;
            }
        }
        (thread, range)
    }

    /// Steals the last half of the longest range: its first number begins, and the others are the share.
    pub fn try_steal(&self, seat: &mut Seat<D>) -> Steal
        requires seated { IsSeatAt self.now.init seat.old }
        requires free { MayClaim seat.old.me.0 }
        ensures seat { IsSameSeat seat.old seat.new }
        ensures step { StolenBy D.discipline self.now.init.threads result seat.old.me seat.new.me }
    {
        let (thread, range) = self.longest(seat);
        let (start, end) = (range % HIGH, range / HIGH);
        if end <= start {
            return Steal::Nothing;
        }
        let first = last_half(range);
        let left = start + HIGH * first;
        let word = RANGES + APART * thread;
        let words = &self.init.table.shared;
        if words.compare_exchange::<Steals<D>>(seat, word, range, left) == range {
            Steal::Job(Claimed::new(first), Share::new(first + 1, end))
        } else {
            Steal::Again
        }
    }
}

impl<D: SlotContents> Round<D> {
    /// Begins the first number of a share, and stores what is left of it in the share word of thread t, which nobody
    /// reads. `None`, without a step, where the share is empty.
    pub fn next_of_share(&self, seat: &mut Seat<D>, t: usize, share: &mut Share) -> Option<Claimed>
        requires seated { IsSeatAt self.now.init seat.old }
        requires thread { t < self.now.init.threads }
        requires free { MayBegin seat.old.me.0 }
        requires own { IsItsShare share.old seat.old.me.0 }
        ensures seat { IsSameSeat seat.old seat.new }
        ensures step { SharedBy D.discipline (self.now.init.threads + t)
            share.old result share.new seat.old.me seat.new.me }
    {
        let (first, end) = share.bounds();
        if first == end {
            return None;
        }
        let word = RANGES + APART * (self.init.threads + t);
        let left = first + 1 + HIGH * end;
        self.init
            .table
            .shared
            .store::<TakesShare<D>>(seat, word, left);
        share.drop_first();
        Some(Claimed::new(first))
    }
}
