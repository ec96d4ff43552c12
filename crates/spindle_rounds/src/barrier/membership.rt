//! Who is a member of the barrier: a party joins, one that waits leaves, and one that hasn't arrived exits.
ghost use Rattle.std.specs.Prelude.{◌≡◌, ◌<◌, ◌⊎◌, true, false, IfOk, IfErr, ℕ, Option, Bool};
ghost use Rattle.spindle_rounds.specs.RoundAnswers.{LeftBy, ExitedBy, JoinedBy, JoinRefusedBy};
ghost use Rattle.spindle_rounds.specs.RoundConditions.{MayLeave, MayExit, HasSense};
ghost use Rattle.spindle_rounds.specs.Holding.{IsHeld, LeaveTold, ExitTold, IsPartyOf};
ghost use Rattle.spindle_rounds.specs.Seating.{IsSeatAt, IsSameSeat};
ghost use Rattle.spindle_rounds.specs.declared.round_table.view.Standing.TheVariants.{Away, Closing};
ghost use Rattle.spindle_rounds.specs.declared.barrier.steps.JoinStep.TheVariants.{Joined};
ghost use Rattle.spindle_rounds.specs.Passing.{WentOut, Departed, JoinedAtLast, FullAtLast};

use crate::barrier::steps::{ExitStep, JoinStep, LeaveStep, end_round};
use crate::barrier::waiting::{Departure, Full};
use crate::barrier::word::{FIELD, MEMBER, PARTY, SENSE};
use crate::barrier::{Barrier, BarrierInit, JoinRefused, MASK};
use crate::round_table::plays::{Exits, Joins, Leaves, Loads, Looks};
use crate::round_table::slots::SlotContents;
use crate::round_table::{BARRIER, Seat};
use spindle_parts::pauses::Pauses;
use std::sync::Wait;

/// What came of one attempt to leave.
#[derive(Drop)]
pub enum Leave<'a, D: SlotContents> {
    /// The party is no member any more.
    Left(Seat<D>),
    /// Its round has ended: it is inside the next.
    Ended(Barrier<'a, D>),
    /// All have arrived, and the closer is about to end the round.
    Closing(Barrier<'a, D>),
    /// Another step came between.
    Again(Barrier<'a, D>),
}

/// What came of one attempt to exit.
#[derive(Drop)]
pub enum Exit<'a, D: SlotContents> {
    /// The party is no member any more.
    Gone(Seat<D>),
    /// It is no member any more, but all others have arrived: it closes the round.
    Closer(Barrier<'a, D>),
    /// Another step came between.
    Again(Barrier<'a, D>),
}

fn leave_once<D: SlotContents>(init: &BarrierInit<D>, seat: &mut Seat<D>, sense: u64) -> LeaveStep
    requires seated { IsSeatAt init.now seat.old }
    requires waiting { MayLeave seat.old.me.0 }
    requires sense { HasSense seat.old.me.0.standing sense }
    ensures seat { IsSameSeat seat.old seat.new }
    ensures step { LeftBy sense result seat.old.me seat.new.me }
{
    let words = &init.table.shared;
    let word = words.load::<Looks>(seat, BARRIER);
    if word / SENSE == sense {
        return LeaveStep::Ended;
    }
    if word % FIELD == 0 {
        return LeaveStep::Closing;
    }
    let less = word.saturating_sub(MEMBER);
    if words.compare_exchange::<Leaves>(seat, BARRIER, word, less) == word {
        LeaveStep::Left
    } else {
        LeaveStep::Again
    }
}

fn exit_once<D: SlotContents>(init: &BarrierInit<D>, seat: &mut Seat<D>) -> ExitStep
    requires seated { IsSeatAt init.now seat.old }
    requires free { MayExit seat.old.me.0 }
    ensures seat { IsSameSeat seat.old seat.new }
    ensures step { ExitedBy result seat.old.me seat.new.me }
{
    let words = &init.table.shared;
    let word = words.load::<Loads>(seat, BARRIER);
    let most = word / MEMBER % FIELD;
    let less = if most == 1 {
        SENSE * (1 - word / SENSE)
    } else {
        word.saturating_sub(PARTY)
    };
    if words.compare_exchange::<Exits>(seat, BARRIER, word, less) != word {
        ExitStep::Again
    } else if word % FIELD == 1 && most > 1 {
        ExitStep::Closer
    } else {
        ExitStep::Gone
    }
}

impl<'a, D: SlotContents> Barrier<'a, D> {
    /// A party that has arrived leaves, unless its round has ended or is closing: the members become one less.
    pub fn try_leave(mut self) -> Leave<'a, D>
        requires held { IsHeld self }
        requires waiting { MayLeave self.seat.me.0 }
        ensures { LeaveTold self.entry result }
    {
        let sense = self.sense;
        match leave_once(self.init, &mut self.seat, sense) {
            LeaveStep::Left => Leave::Left(self.seat),
            LeaveStep::Ended => Leave::Ended(self),
            LeaveStep::Closing => Leave::Closing(self),
            LeaveStep::Again => Leave::Again(self),
        }
    }

    /// A party that hasn't arrived goes. The last member ends the round by it, and one whom the others wait for becomes
    /// the closer.
    pub fn try_exit(mut self) -> Exit<'a, D>
        requires held { IsHeld self }
        requires free { MayExit self.seat.me.0 }
        ensures { ExitTold self.entry result }
    {
        match exit_once(self.init, &mut self.seat) {
            ExitStep::Gone => Exit::Gone(self.seat),
            ExitStep::Closer => {
                self.sense = 1 - self.sense;
                self.is_member = false;
                Exit::Closer(self)
            }
            ExitStep::Again => Exit::Again(self),
        }
    }
}

fn join<D: SlotContents>(init: &BarrierInit<D>, seat: &mut Seat<D>) -> JoinStep
    requires seated { IsSeatAt init.now seat.old }
    requires away { seat.old.me.0.standing ≡ Away }
    ensures seat { IsSameSeat seat.old seat.new }
    ensures step { JoinedBy result seat.old.me seat.new.me }
{
    let words = &init.table.shared;
    let word = words.load::<Loads>(seat, BARRIER);
    let most = word / MEMBER % FIELD;
    if most == MASK as u64 {
        return JoinStep::Full;
    }
    if word % FIELD == 0 && most > 0 {
        return JoinStep::Closing;
    }
    if words.compare_exchange::<Joins>(seat, BARRIER, word, word + PARTY) == word {
        JoinStep::Joined(word / SENSE)
    } else {
        JoinStep::Again
    }
}

impl<D: SlotContents> BarrierInit<D> {
    /// Joins the barrier by one exchange. The party's sense starts as the word's; `thread_id` decides nothing.
    ///
    /// # Errors
    /// `Full`, `Closing` or `Again`, each with the seat.
    pub fn try_join(
        &self,
        mut seat: Seat<D>,
        thread_id: usize,
    ) -> Result<Barrier<'_, D>, JoinRefused<Seat<D>>>
        requires seated { IsSeatAt self.now seat }
        requires away { seat.me.0.standing ≡ Away }
        ensures joined { IfOk result (λ b. JoinedBy (Joined b.sense) seat.me b.seat.me
            × IsPartyOf seat thread_id b) }
        ensures held { IfOk result (λ b. IsHeld b × (b.init.now ≡ self.now)) }
        ensures refused { IfErr result (λ e. JoinRefusedBy seat e) }
    {
        match join(self, &mut seat) {
            JoinStep::Joined(sense) => Ok(Barrier {
                init: self,
                seat,
                sense,
                is_member: true,
                thread_id,
            }),
            JoinStep::Full => Err(JoinRefused::Full(seat)),
            JoinStep::Closing => Err(JoinRefused::Closing(seat)),
            JoinStep::Again => Err(JoinRefused::Again(seat)),
        }
    }
}

impl<P> JoinRefused<P> {
    // The seat, to try again with.
    fn unless_full(self) -> Result<P, Full<P>>
        ensures again { IfOk result (λ s. (self ≡ JoinRefused.Closing s)
            ⊎ (self ≡ JoinRefused.Again s)) }
        ensures full { IfErr result (λ f. self ≡ JoinRefused.Full f.seat) }
    {
        match self {
            JoinRefused::Full(seat) => Err(Full { seat }),
            JoinRefused::Closing(seat) => Ok(seat),
            JoinRefused::Again(seat) => Ok(seat),
        }
    }
}

impl<D: SlotContents> BarrierInit<D> {
    /// Joins the barrier, and tries again until it has (`BarrierInit::barrier` of spindle).
    ///
    /// # Errors
    /// `Full`, with the seat.
    pub fn barrier<R: Wait>(
        &self,
        rt: &R,
        seat: Seat<D>,
        thread_id: usize,
    ) -> Result<Barrier<'_, D>, Full<Seat<D>>>
        requires seated { IsSeatAt self.now seat }
        requires away { seat.me.0.standing ≡ Away }
        ensures joined { IfOk result (λ b. JoinedAtLast b.sense seat.me b.seat.me
            × IsPartyOf seat thread_id b) }
        ensures held { IfOk result (λ b. IsHeld b × (b.init.now ≡ self.now)) }
        ensures full { IfErr result (λ e. IsSameSeat seat e.seat
            × FullAtLast seat.me e.seat.me) }
    {
        let mut pauses = Pauses::new();
        let mut seat = seat;
        for _ in rt.forever() {
            seat = match self.try_join(seat, thread_id) {
                Ok(barrier) => return Ok(barrier),
                Err(refused) => refused.unless_full()?,
            };
            pauses.pause();
        }
        unreachable!()
    }
}

impl<'a, D: SlotContents> Barrier<'a, D> {
    /// Exits, and tells whether it closed the round: then others waited for its end.
    pub fn depart<R: Wait>(self, rt: &R) -> Departure<D>
        requires held { IsHeld self }
        requires free { MayExit self.seat.me.0 }
        ensures seat { IsSameSeat self.entry.seat result.seat }
        ensures out { WentOut self.entry.seat.me result.seat.me }
        ensures told { Departed result.has_closed self.entry.seat.me result.seat.me }
    {
        let mut pauses = Pauses::new();
        let mut barrier = self;
        for _ in rt.forever() {
            barrier = match barrier.try_exit() {
                Exit::Gone(seat) => {
                    return Departure {
                        seat,
                        has_closed: false,
                    };
                }
                Exit::Closer(closer) => {
                    return Departure {
                        seat: closer.close_out(),
                        has_closed: true,
                    };
                }
                Exit::Again(again) => again,
            };
            pauses.pause();
        }
        unreachable!()
    }

    // The closer's two stores, by one that has exited.
    fn close_out(mut self) -> Seat<D>
        requires held { IsHeld self }
        requires closer { (q : ℕ) × (was : Bool) × (read : Option ℕ)
            × (self.seat.me.0.standing ≡ Closing q false was read) }
        ensures seat { IsSameSeat self.entry.seat result }
        ensures out { WentOut self.entry.seat.me result.me }
    {
        self.clear();
        end_round(self.init, &mut self.seat);
        self.seat
    }
}
