//! A round whose slots hold its pieces. The leader holds all slots between two rounds: it puts a piece into each and publishes, and
//! after the round each slot holds an answer.
//!
//! The step that begins a number gives the right to its slot, so a piece is taken and an answer put by plain moves: no lock, and nothing
//! is compared. That all have answered the leader concludes from its own trail and the table's rule: it published so many pieces, with
//! these in the slots, and it is inside a later round. So no answer is looked for at run time, and none is missing.
ghost use Rattle.std.specs.Prelude.{◌≡◌, ◌≤◌, ◌<◌, ◌∷◌, ◌++◌, ℕ, [], ◌-◌, true, IfOk, OnErr, IsErrOf};
ghost use Rattle.atomic_table.specs.Table.{rest};
ghost use Rattle.spindle_rounds.specs.RoundPieces.{pieces, AreFilled, AreAnswered, IsAtHand, IsUnrun, AnswersNote};
ghost use Rattle.spindle_rounds.specs.RoundConditions.{MayFill, MayTakeOut, MayGiveBack, MayFinish};
ghost use Rattle.spindle_rounds.specs.SlotLoops.{IsAny, IsEmpty, IsPiece, HoldsEach, Turning};
ghost use Rattle.spindle_rounds.specs.SlotSteps.{HasPublished, TakenOut, giving_back};
ghost use Rattle.spindle_rounds.specs.PieceRounds.{PublishedPieces, AwaitsAnswers};
ghost use Rattle.spindle_rounds.specs.Holding.{IsHeld, Keeps};
ghost use Rattle.spindle_rounds.specs.Passing.{InNext};
ghost use Rattle.spindle_rounds.specs.Seating.{IsSeatAt, IsSameSeat, slots_of, HasSlots};
ghost use Rattle.spindle_rounds.specs.RoundSlots.{spot_at};
ghost use Rattle.spindle_rounds.specs.declared.round_table.pieces.SlotState.TheVariants.{Empty, Done, Waits};
ghost use Rattle.spindle_rounds.specs.declared.round_table.view.Spot.TheVariants.{Out};
ghost use Rattle.spindle_rounds.specs.SlotHands.{AllVacant, HoldsAll, turned_by};
ghost use Rattle.spindle_rounds.specs.RoundSteps.{outsider, finishing};
ghost use Rattle.spindle_rounds.specs.PartyWork.{HasFinished};

use crate::barrier::{Barrier, BarrierInit};
use crate::round::Round;
use crate::round::claim::Claimed;
use crate::round_table::pieces::{PieceKind, PieceSlots, SlotState};
use crate::round_table::plays::{GivesBack, TakesOut};
use crate::round_table::slots::SlotContents;
use crate::round_table::{PUBLISHED, Seat};
use spindle_parts::fault::Fault;
use std::alloc::Global;
use std::sync::Wait;

impl<A: PieceKind> Round<PieceSlots<A>> {
    /// After a round of so many pieces the leader takes every slot out: those of the pieces hold their answers.
    pub fn take_answered(&self, seat: &mut Seat<PieceSlots<A>>, jobs: u64)
        requires seated { IsSeatAt self.now.init seat.old }
        requires leads { MayTakeOut (pieces A.answers) (slots_of self.now.init) seat.old.me.0 }
        requires few { jobs ≤ slots_of self.now.init }
        requires published { (r : ℕ) × HasPublished seat.old.me.0 r jobs
            × AreFilled A.answers r jobs seat.old.me.0.board }
        ensures seat { IsSameSeat seat.old seat.new }
        ensures step { (found : ℕ) × TakenOut (pieces A.answers) (slots_of self.now.init) found
            seat.old.me seat.new.me }
        ensures answered { AreAnswered A.answers jobs seat.old.me.0.board seat.new.me.1 }
    {
        let _jobs = jobs;
        self.take_slots(seat);
    }

    /// Takes the answer out of the slot at the leader's hand, which then goes behind the others that it holds.
    pub fn take_answer(&self, seat: &mut Seat<PieceSlots<A>>, slot: usize) -> A::Answer
        requires seated { IsSeatAt self.now.init seat.old }
        requires head { (o : _) × IsAtHand slot (Done o) seat.old.me.1 }
        ensures seat { IsSameSeat seat.old seat.new }
        ensures found { IsAtHand slot (Done result) seat.old.me.1 }
        ensures behind { seat.new.me
            ≡ (seat.old.me.0, rest seat.old.me.1 ++ (slot, Empty) ∷ []) }
    {
        match self.swap_slot(seat, slot, SlotState::Empty) {
            SlotState::Done(answer) => answer,
            SlotState::Empty => unreachable!(),
            SlotState::Waits(_) => unreachable!(),
        }
    }

    /// Gives back the slots, all of which the leader holds, and publishes the round: from now on every member may claim its
    /// jobs. The first slots have the pieces of so many jobs, and in the others stands nothing that was run.
    pub fn publish_held(&self, seat: &mut Seat<PieceSlots<A>>, jobs: u64)
        requires seated { IsSeatAt self.now.init seat.old }
        requires leads { MayFill seat.old.me.0 }
        requires held { Turning (λ k y. IsUnrun A.answers y) IsPiece (slots_of self.now.init) jobs
            seat.old.me.1 }
        requires out { (k : ℕ) → k < slots_of self.now.init → spot_at seat.old.me.0.board k ≡ Out }
        requires counted { (2 ≤ jobs) × (jobs ≤ 4294967295) }
        ensures seat { IsSameSeat seat.old seat.new }
        ensures published { PublishedPieces A.answers jobs seat.old.me seat.new.me }
    {
        self.give_slots(seat);
        self.fill(seat, jobs);
        self.publish(seat, jobs);
    }

    /// Empties the slots at the leader's hand, of which there are so many.
    pub fn empty_slots(&self, seat: &mut Seat<PieceSlots<A>>, slots: usize)
        requires seated { IsSeatAt self.now.init seat.old }
        requires held { HoldsEach IsAny slots seat.old.me.1 }
        ensures seat { IsSameSeat seat.old seat.new × (seat.new.me.0 ≡ seat.old.me.0) }
        ensures held { HoldsEach IsEmpty slots seat.new.me.1 }
    {
        for slot in 0..slots {
            let _ = self.swap_slot(seat, slot, SlotState::Empty);
        }
    }

    /// Waits until the round has ended, and takes every slot out: those of the pieces hold their answers.
    pub fn await_answers<R: Wait>(&self, rt: &R, leader: &mut Barrier<PieceSlots<A>>, jobs: u64)
        requires held { IsHeld leader.old }
        requires seated { IsSeatAt self.now.init leader.old.seat }
        requires few { jobs ≤ slots_of self.now.init }
        requires awaits { AwaitsAnswers A.answers (slots_of self.now.init) jobs
            leader.old.seat.me }
        ensures held { Keeps leader.old leader.new }
        ensures taken { (u : _) × InNext leader.old.seat.me u × ((found : ℕ)
            × TakenOut (pieces A.answers) (slots_of self.now.init) found u leader.new.seat.me) }
        ensures answered { AreAnswered A.answers jobs leader.old.seat.me.0.board
            leader.new.seat.me.1 }
    {
        leader.wait(rt);
        self.take_answered(&mut leader.seat, jobs);
    }
}

impl<D: SlotContents> Round<D> {
    /// The leader takes every slot out. They are at its hand in their order, the first one first.
    pub fn take_slots(&self, seat: &mut Seat<D>)
        requires seated { IsSeatAt self.now.init seat.old }
        requires leads { MayTakeOut D.discipline (slots_of self.now.init) seat.old.me.0 }
        ensures seat { IsSameSeat seat.old seat.new }
        ensures step { (found : ℕ) × TakenOut D.discipline (slots_of self.now.init) found
            seat.old.me seat.new.me }
    {
        self.init.table.shared.load::<TakesOut<D>>(seat, PUBLISHED);
    }

    /// The leader gives back every slot that it holds.
    pub fn give_slots(&self, seat: &mut Seat<D>)
        requires seated { IsSeatAt self.now.init seat.old }
        requires leads { MayGiveBack D.discipline seat.old.me }
        ensures seat { IsSameSeat seat.old seat.new }
        ensures step { (found : ℕ) × (seat.new.me
            ≡ (giving_back D.discipline found seat.old.me.1 seat.old.me.0, [])) }
    {
        self.init.table.shared.load::<GivesBack<D>>(seat, PUBLISHED);
    }
}

impl<A: PieceKind> Round<PieceSlots<A>> {
    /// A leader that has done nothing with the slots, of which there are so many, takes all of them: they are empty.
    pub fn hold_slots(&self, seat: &mut Seat<PieceSlots<A>>, slots: usize)
        requires seated { IsSeatAt self.now.init seat.old }
        requires slots { HasSlots self.now.init slots }
        requires leads { MayFill seat.old.me.0 }
        requires fresh { (seat.old.me.1 ≡ []) × AllVacant slots seat.old.me.0.board }
        ensures seat { IsSameSeat seat.old seat.new }
        ensures step { (found : ℕ) × TakenOut (pieces A.answers) slots found
            seat.old.me seat.new.me }
        ensures held { HoldsAll slots seat.new.me }
    {
        let _slots = slots;
        self.take_slots(seat);
    }

    /// Turns the slots from one on behind the others that the leader holds, of so many in all. Nothing is done at run time.
    pub fn turn_slots(&self, seat: &mut Seat<PieceSlots<A>>, from: usize, slots: usize)
        requires { from ≤ slots }
        ensures seat { IsSameSeat seat.old seat.new }
        ensures turned { seat.new.me
            ≡ (seat.old.me.0, turned_by (slots - from) seat.old.me.1) }
    {
        for _ in from..slots {
            seat.turn();
        }
    }
}

impl<A: PieceKind> Round<PieceSlots<A>> {
    /// The rounds of up to 32767 threads with so many slots, all of them empty, and the leader's seat.
    ///
    /// # Errors
    /// `Memory`.
    pub fn with_slots(
        alloc: Global,
        threads: usize,
        slots: usize,
    ) -> Result<(Round<PieceSlots<A>>, Seat<PieceSlots<A>>), Fault>
        requires threads { (1 ≤ threads) × (threads ≤ 32767) }
        ensures opened { IfOk result (λ t. (t.0.init.threads ≡ threads)
            × IsSeatAt t.0.init t.1 × (t.1.id ≡ 0) × HasSlots t.0.init slots
            × (t.1.me ≡ (outsider threads true, []))) }
        ensures memory { OnErr result (IsErrOf result Fault.Memory) }
    {
        let (init, seat) = BarrierInit::open(alloc, threads, slots)?;
        Ok((Round { init }, seat))
    }

    /// Takes the claim's piece out of its slot, which stays at the seat's hand.
    pub fn take_piece(&self, seat: &mut Seat<PieceSlots<A>>, claimed: &Claimed) -> A::Piece
        requires seated { IsSeatAt self.now.init seat.old }
        requires held { (x : _) × IsAtHand claimed.now (Waits x) seat.old.me.1 }
        ensures seat { IsSameSeat seat.old seat.new }
        ensures piece { IsAtHand claimed.now (Waits result) seat.old.me.1 }
        ensures left { seat.new.me
            ≡ (seat.old.me.0, (claimed.now, Empty) ∷ rest seat.old.me.1) }
    {
        let slot = claimed.number() as usize;
        match self
            .init
            .table
            .shared
            .exchange(seat, slot, SlotState::Empty)
        {
            SlotState::Waits(piece) => piece,
            SlotState::Empty => unreachable!(),
            SlotState::Done(_) => unreachable!(),
        }
    }

    /// Finishes a claim whose piece was taken and run. The answer goes into its slot, in which nothing stands, and the slot goes back.
    pub fn finish(
        &self,
        seat: &mut Seat<PieceSlots<A>>,
        claimed: Claimed,
        finished: A::Answer,
    ) -> u64
        requires seated { IsSeatAt self.now.init seat.old }
        requires own { MayFinish claimed seat.old.me.0 }
        requires taken { IsAtHand claimed Empty seat.old.me.1 }
        requires answers { AnswersNote A.answers seat.old.me.0.note finished }
        ensures seat { IsSameSeat seat.old seat.new }
        ensures step { seat.new.me ≡ (finishing result seat.old.me.0, rest seat.old.me.1) }
        ensures finished { HasFinished result seat.old.me.0 seat.new.me.0 }
    {
        let slot = claimed.number() as usize;
        let done = SlotState::Done(finished);
        match self.init.table.shared.exchange(seat, slot, done) {
            SlotState::Empty => {}
            SlotState::Waits(_) => unreachable!(),
            SlotState::Done(_) => unreachable!(),
        }
        self.count_finished(seat, claimed)
    }

    /// Puts a piece into the slot at the leader's hand, in which nothing stands, and which then goes behind the others that it
    /// holds.
    pub fn put_piece(&self, seat: &mut Seat<PieceSlots<A>>, slot: usize, piece: A::Piece)
        requires seated { IsSeatAt self.now.init seat.old }
        requires head { IsAtHand slot Empty seat.old.me.1 }
        ensures seat { IsSameSeat seat.old seat.new }
        ensures behind { seat.new.me
            ≡ (seat.old.me.0, rest seat.old.me.1 ++ (slot, Waits piece) ∷ []) }
    {
        match self.swap_slot(seat, slot, SlotState::Waits(piece)) {
            SlotState::Empty => {}
            SlotState::Waits(_) => unreachable!(),
            SlotState::Done(_) => unreachable!(),
        }
    }

    /// Changes what stands in the slot at the leader's hand, which then goes behind the others that it holds.
    pub fn swap_slot(
        &self,
        seat: &mut Seat<PieceSlots<A>>,
        slot: usize,
        new: SlotState<A::Piece, A::Answer>,
    ) -> SlotState<A::Piece, A::Answer>
        requires seated { IsSeatAt self.now.init seat.old }
        requires head { (y : _) × IsAtHand slot y seat.old.me.1 }
        ensures seat { IsSameSeat seat.old seat.new }
        ensures found { IsAtHand slot result seat.old.me.1 }
        ensures behind { seat.new.me
            ≡ (seat.old.me.0, rest seat.old.me.1 ++ (slot, new) ∷ []) }
    {
        let old = self.init.table.shared.exchange(seat, slot, new);
        seat.turn();
        old
    }
}
