//! Rounds over lists: a thread runs the items of its piece, and puts their outputs into the piece's slot. The leader plays them by its
//! state.
ghost use Rattle.std.specs.Prelude.{◌≡◌, ◌≤◌, [], true, length, vec_capacity, OnOk, OnErr, IsErrOf};
ghost use Rattle.std.specs.List.{AllZip};
ghost use Rattle.spindle_rounds.specs.Holding.{Keeps};
ghost use Rattle.spindle_rounds.specs.Working.{PlayedRound};
ghost use Rattle.spindle_locks.specs.SlotRounds.{LeadsIn};
ghost use denote.Param.Send.{IsSync};
ghost use Rattle.spindle_rounds.specs.SlotMembers.{view_in};
ghost use Rattle.spindle_rounds.specs.RoundConditions.{MayFill};

use crate::leader_states::leader_state::{LeaderState, SlotMember, SlotTables};
use crate::leader_states::opens_slots::OpensSlots;
use crate::pieces::items::FillsSlots;
use crate::pieces::of_kind::PieceOf;
use crate::pieces::slot_piece::{Batch, OneOr, OutputBuffers, Outputs};
use crate::prelude::*;
use crate::running::in_slots::{RunsPieces, play_held};
use spindle_rounds::barrier::Barrier;
use spindle_rounds::round_table::pieces::PieceSlots;
use spindle_rounds::threads::tables::Tables;

impl<'t, J: Job> SlotTables<'t, PieceSlots<PieceOf<J>>> {
    /// A leader's round: the pieces of the items go into the slots, are played, and their outputs come out of the slots, in order.
    /// Memory is refused before the publish alone.
    pub(crate) fn play<S: FillsSlots<J>, G: Gate, H: Threads + Wait + Sync>(
        &self,
        rt: &H,
        alloc: Global,
        barrier: &mut Barrier<'_, PieceSlots<PieceOf<J>>>,
        runner: &mut Runner<'_, J, G>,
        items: &mut S,
        buffers: &mut OutputBuffers<J::In, J::Out>,
        outputs: &mut Vec<J::Out>,
    ) -> Result<(), Fault>
        requires leads { LeadsIn self.now.tables.now barrier.old }
        requires counted { (2 ≤ S.pieces items.old) × (S.pieces items.old ≤ 4294967295) }
        requires few { S.pieces items.old ≤ self.now.slots }
        requires empty { outputs.old.items ≡ [] }
        requires room { length (S.items items.old) ≤ vec_capacity outputs.old }
        ensures leads { LeadsIn self.now.tables.now barrier.new }
        ensures same { Keeps barrier.old barrier.new }
        ensures answered { OnOk result (AllZip J.meets (S.items items.old) outputs.new.items) }
        ensures played { OnOk result
            (PlayedRound (S.pieces items.old) barrier.old.seat.me.0 barrier.new.seat.me.0) }
        ensures left { OnErr result (barrier.new.seat.me.0 ≡ barrier.old.seat.me.0) }
        ensures memory { OnErr result (IsErrOf result Fault.Memory) }
    {
        let pieces = items.pieces();
        items.fill(alloc, self, barrier.seat(), buffers)?;
        play_held(rt, alloc, self, barrier, runner, pieces as u64);
        let round = &self.tables.round;
        for slot in 0..pieces {
            let answer = round.take_answer(barrier.seat(), slot);
            buffers.keep(slot, answer.unload(outputs));
        }
        round.turn_slots(barrier.seat(), pieces, self.slots);
        Ok(())
    }
}

impl<J: Job> RunsPieces<J> for PieceOf<J> {
    fn run_piece<G: Gate, H: Threads + Wait + Sync>(
        rt: &H,
        alloc: Global,
        runner: &mut Runner<'_, J, G>,
        number: usize,
        piece: &mut Option<OneOr<J::In, Batch<J::In, J::Out>>>,
    ) -> OneOr<J::Out, Outputs<J::In, J::Out>> {
        let Some(piece) = piece.take() else {
            unreachable!()
        };
        let number = Some(number);
        match piece {
            OneOr::One(item) => OneOr::One(runner.run_one(rt, alloc, number, &item)),
            OneOr::Many(batch) => {
                let (inputs, mut parts) = batch.into_parts();
                runner.run(rt, alloc, number, inputs.as_slice(), &mut parts.outputs);
                OneOr::Many(Outputs::new(parts))
            }
        }
    }
}

/// The state of a leader that plays rounds over lists. It keeps buffers for their outputs.
pub type SlotLeaderState<J> = LeaderState<
    PieceOf<J>,
    OutputBuffers<<J as Job>::In, <J as Job>::Out>,
>;

/// The kinds of jobs whose leader with a state of type P plays rounds over lists of items.
pub trait PlaysPieces<P>: OpensSlots<P> {
    /// A round over these items, whose outputs are put at the end of the list. Memory is refused before the publish alone.
    fn play<'a, S: FillsSlots<Self>, G: Gate, H: Threads + Wait + Sync>(
        rt: &H,
        alloc: Global,
        state: &mut P,
        runner: &mut Runner<'a, Self, G>,
        items: &mut S,
        outputs: &mut Vec<Self::Out>,
    ) -> Result<(), Fault>
        requires sync { IsSync H.row }
        requires jobs { (2 ≤ S.pieces items.old)
            × (S.pieces items.old ≤ Self.OpensSlots.slot_count state.old) }
        requires empty { outputs.old.items ≡ [] }
        requires room { length (S.items items.old) ≤ vec_capacity outputs.old }
        ensures answered { OnOk result
            (AllZip Self.Job.meets (S.items items.old) outputs.new.items) }
        ensures memory { OnErr result (IsErrOf result Fault.Memory) }
        ensures played { OnOk result (PlayedRound (S.pieces items.old)
            (Self.OpensSlots.view state.old) (Self.OpensSlots.view state.new)) }
        ensures left { OnErr result
            (Self.OpensSlots.view state.new ≡ Self.OpensSlots.view state.old) }
        ensures between { MayFill (Self.OpensSlots.view state.new) }
        ensures slots { Self.OpensSlots.slot_count state.new
            ≡ Self.OpensSlots.slot_count state.old };
}

impl<J: Job> PlaysPieces<SlotLeaderState<J>> for J {
    fn play<'a, S: FillsSlots<J>, G: Gate, H: Threads + Wait + Sync>(
        rt: &H,
        alloc: Global,
        state: &mut SlotLeaderState<J>,
        runner: &mut Runner<'a, J, G>,
        items: &mut S,
        outputs: &mut Vec<J::Out>,
    ) -> Result<(), Fault> {
        let buffers = state.kept.get_or_insert_with(|| OutputBuffers::new(alloc));
        state
            .member
            .play(rt, alloc, runner, items, buffers, outputs)
    }
}

impl<J: Job> SlotMember<PieceOf<J>> {
    // Plays a round over items at its barrier.
    fn play<S: FillsSlots<J>, G: Gate, H: Threads + Wait + Sync>(
        &mut self,
        rt: &H,
        alloc: Global,
        runner: &mut Runner<'_, J, G>,
        items: &mut S,
        buffers: &mut OutputBuffers<J::In, J::Out>,
        outputs: &mut Vec<J::Out>,
    ) -> Result<(), Fault>
        requires jobs { (2 ≤ S.pieces items.old) × (S.pieces items.old ≤ self.old.share.slots) }
        requires empty { outputs.old.items ≡ [] }
        requires room { length (S.items items.old) ≤ vec_capacity outputs.old }
        ensures answered { OnOk result (AllZip J.meets (S.items items.old) outputs.new.items) }
        ensures memory { OnErr result (IsErrOf result Fault.Memory) }
        ensures played { OnOk result (PlayedRound (S.pieces items.old)
            (view_in self.old.party) (view_in self.new.party)) }
        ensures left { OnErr result (view_in self.new.party ≡ view_in self.old.party) }
        ensures slots { self.new.share.slots ≡ self.old.share.slots }
    {
        let Some(party) = self.party.take() else {
            unreachable!()
        };
        let tables: &Tables<PieceSlots<PieceOf<J>>> = &*self.share.tables;
        let mut barrier = tables.round.resume(party);
        let table = SlotTables {
            tables,
            slots: self.share.slots,
        };
        let played = table.play(rt, alloc, &mut barrier, runner, items, buffers, outputs);
        self.party = Some(barrier.part());
        played
    }
}
