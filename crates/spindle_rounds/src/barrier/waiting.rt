//! The forms of the barrier's calls that wait: loops, which spin between the first looks and then yield.
ghost use Rattle.spindle_rounds.specs.RoundConditions.{IsFreeInside, IsDone, IsWaiting, MayExit, MayLeave};
ghost use Rattle.spindle_rounds.specs.Holding.{IsHeld, Keeps, AwaitTold, StatusTold, WaitTold, TurnsTold};
ghost use Rattle.spindle_rounds.specs.Passing.{InNext, WentOut};
ghost use Rattle.spindle_rounds.specs.Seating.{IsSameSeat};

use crate::barrier::Barrier;
use crate::barrier::membership::Exit;
use crate::barrier::steps::{Arrival, Look};
use crate::round_table::Seat;
use crate::round_table::slots::SlotContents;
use spindle_parts::pauses::Pauses;
use std::sync::Wait;

/// There are as many parties as there may be. The seat comes back.
#[derive(Drop)]
pub struct Full<P> {
    /// The seat of the party that wasn't let in.
    pub seat: P,
}

/// What a party has after it waited for its round's end, or left.
#[derive(Drop)]
pub enum ExitStatus<'a, D: SlotContents> {
    /// It left, and is no member any more.
    Exit(Seat<D>),
    /// It is inside the next round.
    Remain(Barrier<'a, D>),
}

/// What is left of a party that has exited.
#[derive(Drop)]
pub struct Departure<D: SlotContents> {
    /// Its seat.
    pub seat: Seat<D>,
    /// Whether it closed its round, for whose end others waited.
    pub has_closed: bool,
}

impl<'a, D: SlotContents> Barrier<'a, D> {
    /// Arrives, and waits until the round has ended (`Barrier::wait` of spindle).
    pub fn wait<R: Wait>(&mut self, rt: &R)
        requires held { IsHeld self.old }
        requires free { IsFreeInside self.old.seat.me.0 }
        requires done { IsDone self.old.seat.me.0 }
        ensures held { Keeps self.old self.new }
        ensures next { InNext self.old.seat.me self.new.seat.me }
    {
        match self.arrive() {
            Arrival::Closer => self.close(),
            Arrival::Arrived => self.await_end(rt),
        }
    }

    /// The same as `wait`, since whoever closes a round clears it (`Barrier::wait_and_clear` of spindle).
    pub fn wait_and_clear<R: Wait>(&mut self, rt: &R)
        requires held { IsHeld self.old }
        requires free { IsFreeInside self.old.seat.me.0 }
        requires done { IsDone self.old.seat.me.0 }
        ensures held { Keeps self.old self.new }
        ensures next { InNext self.old.seat.me self.new.seat.me }
    {
        self.wait(rt);
    }

    /// Exits, and closes the round where the others wait for it (`Barrier::exit` of spindle).
    pub fn exit<R: Wait>(self, rt: &R) -> Seat<D>
        requires held { IsHeld self }
        requires free { MayExit self.seat.me.0 }
        ensures seat { IsSameSeat self.entry.seat result }
        ensures out { WentOut self.entry.seat.me result.me }
    {
        self.depart(rt).seat
    }

    /// Arrives, and waits until the round has ended. Each turn it calls `requests` once: where that answers more than 0 it
    /// tries to leave, and else it looks. The closer remains (`Barrier::wait_and_clear_while` of spindle).
    pub fn wait_and_clear_while<R: Wait, F: FnMut() -> u64>(
        mut self,
        rt: &R,
        requests: F,
    ) -> ExitStatus<'a, D>
        requires held { IsHeld self }
        requires free { MayExit self.seat.me.0 }
        requires done { IsDone self.seat.me.0 }
        requires requests { F.IsAlwaysCallable requests }
        ensures status { StatusTold self.entry result }
        ensures turns { TurnsTold (λ f n g. F.step f n g) requests self.entry result }
    {
        match self.arrive() {
            Arrival::Closer => {
                self.close();
                ExitStatus::Remain(self)
            }
            Arrival::Arrived => self.await_end_while(rt, requests),
        }
    }

    // A member that has arrived waits for the closer, or leaves.
    fn await_end_while<R: Wait, F: FnMut() -> u64>(
        self,
        rt: &R,
        mut requests: F,
    ) -> ExitStatus<'a, D>
        requires held { IsHeld self }
        requires waiting { MayLeave self.seat.me.0 }
        requires requests { F.IsAlwaysCallable requests }
        ensures status { AwaitTold self.entry result }
        ensures turns { WaitTold (λ f n g. F.step f n g) requests
            self.entry.sense self.entry.seat.me result }
    {
        let mut pauses = Pauses::new();
        let mut barrier = self;
        for _ in rt.forever() {
            let asked = requests();
            barrier = match barrier.take_turn(asked) {
                Ok(barrier) => barrier,
                Err(status) => return status,
            };
            pauses.pause();
        }
        unreachable!()
    }

    // A member that has arrived waits for the closer.
    fn await_end<R: Wait>(&mut self, rt: &R)
        requires held { IsHeld self.old }
        requires waiting { IsWaiting self.old.seat.me.0 }
        ensures held { Keeps self.old self.new }
        ensures next { InNext self.old.seat.me self.new.seat.me }
    {
        let mut pauses = Pauses::new();
        for _ in rt.forever() {
            if let Look::Ended = self.look() {
                return;
            }
            pauses.pause();
        }
        unreachable!()
    }
}
