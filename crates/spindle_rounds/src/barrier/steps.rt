//! The calls of a party, each one atomic step or a load and a step.
ghost use Rattle.std.specs.Prelude.{◌≡◌, ◌<◌, true, ℕ, IfOk, IfErr, Option, Bool};
ghost use Rattle.spindle_rounds.specs.RoundAnswers.{ArrivedBy, LookedBy, EndedBy};
ghost use Rattle.spindle_rounds.specs.Holding.{IsHeld, Keeps, EndTold, AwaitTold, TurnsLast};
ghost use Rattle.spindle_rounds.specs.Seats.{LendsSeat};
ghost use Rattle.std.specs.Borrow.{sem};
ghost use Rattle.spindle_rounds.specs.RoundConditions.{IsFreeInside, IsDone, IsWaiting, IsClosing, HasCleared, MayLeave};
ghost use Rattle.spindle_rounds.specs.RoundSteps.{clearing};
ghost use Rattle.spindle_rounds.specs.Seating.{IsSeatAt, IsSameSeat};
ghost use Rattle.spindle_rounds.specs.Passing.{Stayed, InNext, TurnsOn};
ghost use Rattle.spindle_rounds.specs.declared.round_table.view.Standing.TheVariants.{Closing};

use crate::barrier::membership::Leave;
use crate::barrier::waiting::ExitStatus;
use crate::barrier::word::{FIELD, MEMBER, SENSE};
use crate::barrier::{Barrier, BarrierInit};
use crate::round_table::plays::{Arrives, Clears, CloserReads, Ends, Looks};
use crate::round_table::slots::SlotContents;
use crate::round_table::{BARRIER, PUBLISHED, Seat};

/// What came of one attempt to join.
pub enum JoinStep {
    /// With the sense of the word.
    Joined(u64),
    /// As many parties as there may be.
    Full,
    /// All have arrived, and the closer is about to end the round.
    Closing,
    /// Another step came between.
    Again,
}

/// How a party arrived.
#[derive(Clone, Copy, Debug, PartialEq, Eq)]
pub enum Arrival {
    /// Others haven't yet.
    Arrived,
    /// It was the last, and closes the round.
    Closer,
}

/// What a party that has arrived sees of its round.
#[derive(Clone, Copy, Debug, PartialEq, Eq)]
pub enum Look {
    /// Its own sense stands in the word.
    Ended,
    /// Some member hasn't arrived.
    Running,
    /// All have arrived, and the closer is about to end the round.
    Closing,
}

/// What came of one attempt to leave.
pub enum LeaveStep {
    /// The party is no member any more.
    Left,
    /// Its round has ended: it is inside the next.
    Ended,
    /// All have arrived, and the closer is about to end the round.
    Closing,
    /// Another step came between.
    Again,
}

/// What came of one attempt to exit.
pub enum ExitStep {
    /// The party is no member any more.
    Gone,
    /// The others have arrived, so the party is the closer, though no member.
    Closer,
    /// Another step came between.
    Again,
}

impl<'a, D: SlotContents> Barrier<'a, D> {
    /// The party's seat, for the calls of `Round`.
    pub fn seat(&mut self) -> &mut Seat<D>
        ensures* writes_back { sem 𝓛
            (LendsSeat D.row D.Slot.row D.Note.row D.SlotContents self.entry result) }
        ensures value { result.now ≡ self.old.seat }
    {
        &mut self.seat
    }

    /// The party has done its part of the round: one fetch_sub of 1 from the count. Who found count 1 is the closer.
    pub fn arrive(&mut self) -> Arrival
        requires held { IsHeld self.old }
        requires free { IsFreeInside self.old.seat.me.0 }
        requires done { IsDone self.old.seat.me.0 }
        ensures held { Keeps self.old self.new }
        ensures step { ArrivedBy result self.old.seat.me self.new.seat.me }
    {
        let words = &self.init.table.shared;
        let found = words.fetch_sub::<Arrives>(&mut self.seat, BARRIER, 1);
        self.sense = 1 - self.sense;
        if found % FIELD == 1 {
            Arrival::Closer
        } else {
            Arrival::Arrived
        }
    }

    /// What a party that has arrived sees of its round, by one load.
    pub fn look(&mut self) -> Look
        requires held { IsHeld self.old }
        requires waiting { IsWaiting self.old.seat.me.0 }
        ensures held { Keeps self.old self.new × (self.new.sense ≡ self.old.sense) }
        ensures step { LookedBy self.old.sense result self.old.seat.me self.new.seat.me }
    {
        let words = &self.init.table.shared;
        let word = words.load::<Looks>(&mut self.seat, BARRIER);
        if word / SENSE == self.sense {
            Look::Ended
        } else if word % FIELD == 0 {
            Look::Closing
        } else {
            Look::Running
        }
    }
}

/// What the closer has after the round's end.
#[derive(Drop)]
pub enum AfterEnd<'a, D: SlotContents> {
    /// A member, which is inside the next round.
    Next(Barrier<'a, D>),
    /// Its seat, where it had exited.
    Gone(Seat<D>),
}

pub(crate) fn end_round<D: SlotContents>(init: &BarrierInit<D>, seat: &mut Seat<D>)
    requires seated { IsSeatAt init.now seat.old }
    requires cleared { HasCleared seat.old.me.0 }
    ensures seat { IsSameSeat seat.old seat.new }
    ensures step { EndedBy seat.old.me seat.new.me }
{
    let words = &init.table.shared;
    let word = words.load::<CloserReads>(seat, BARRIER);
    let most = word / MEMBER % FIELD;
    let turned = most + MEMBER * most + SENSE * (1 - word / SENSE);
    words.store::<Ends>(seat, BARRIER, turned);
}

impl<'a, D: SlotContents> Barrier<'a, D> {
    /// The closer stores 0 in the published word.
    pub fn clear(&mut self)
        requires held { IsHeld self.old }
        requires closer { IsClosing self.old.seat.me.0 }
        ensures held { Keeps self.old self.new × (self.new.sense ≡ self.old.sense) }
        ensures step { self.new.seat.me ≡ (clearing 0 self.old.seat.me.0, self.old.seat.me.1) }
    {
        let words = &self.init.table.shared;
        words.store::<Clears>(&mut self.seat, PUBLISHED, 0);
    }

    /// The closer, which has cleared, ends the round: all members are inside the next.
    pub fn end(mut self) -> AfterEnd<'a, D>
        requires held { IsHeld self }
        requires cleared { HasCleared self.seat.me.0 }
        ensures { EndTold self.entry result }
    {
        end_round(self.init, &mut self.seat);
        if self.is_member {
            AfterEnd::Next(self)
        } else {
            AfterEnd::Gone(self.seat)
        }
    }
}

impl<'a, D: SlotContents> Barrier<'a, D> {
    /// One turn of a member that waits: it leaves where the number that it was asked with is above 0, and else looks. It goes on
    /// waiting where its barrier comes back.
    pub fn take_turn(mut self, asked: u64) -> Result<Barrier<'a, D>, ExitStatus<'a, D>>
        requires held { IsHeld self }
        requires waiting { MayLeave self.seat.me.0 }
        ensures stays { IfOk result (λ b. Keeps self.entry b
            × Stayed self.entry.seat.me b.seat.me) }
        ensures ends { IfErr result (λ e. AwaitTold self.entry e) }
        ensures on { IfOk result (λ b. TurnsOn self.entry.sense asked
            self.entry.seat.me b.seat.me) }
        ensures last { IfErr result (λ e. TurnsLast self.entry.sense asked self.entry.seat.me e) }
    {
        if asked > 0 {
            return match self.try_leave() {
                Leave::Left(seat) => Err(ExitStatus::Exit(seat)),
                Leave::Ended(next) => Err(ExitStatus::Remain(next)),
                Leave::Closing(barrier) => Ok(barrier),
                Leave::Again(barrier) => Ok(barrier),
            };
        }
        match self.look() {
            Look::Ended => Err(ExitStatus::Remain(self)),
            _ => Ok(self),
        }
    }

    /// The closer's two stores, by a member.
    pub fn close(&mut self)
        requires held { IsHeld self.old }
        requires closer { (q : ℕ) × (was : Bool) × (read : Option ℕ)
            × (self.old.seat.me.0.standing ≡ Closing q true was read) }
        ensures held { Keeps self.old self.new }
        ensures next { InNext self.old.seat.me self.new.seat.me }
    {
        self.clear();
        end_round(self.init, &mut self.seat);
    }
}
