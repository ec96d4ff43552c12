//! The items of a round on their way into the slots of its table: each by itself where there are as many pieces, else in runs of a
//! list that the pieces share; or numbers, of which there is no list.
ghost use Rattle.std.specs.Prelude.{◌≡◌, ◌<◌, ◌≤◌, ℕ, List, IfOk, OnOk, OnErr, IsErrOf, vec_len};
ghost use Rattle.spindle_parts.specs.Pieces.{counted};
ghost use Rattle.spindle_rounds.specs.Seating.{IsSeatAt, IsSameSeat};
ghost use Rattle.spindle_rounds.specs.SlotHands.{WaitsAs};
ghost use Rattle.spindle_rounds.specs.SlotLoops.{HoldsEach, IsEmpty, Turning};
ghost use Rattle.spindle_locks.specs.SlotPieces.{IsPieceOf, all_items, pieces_of};

use crate::leader_states::leader_state::SlotTables;
use crate::pieces::list_runs::ListRuns;
use crate::pieces::of_kind::PieceOf;
use crate::pieces::slot_piece::OutputBuffers;
use crate::prelude::*;
use spindle_parts::lists::shared::SharedList;
use spindle_rounds::round_table::{Seat, pieces};

/// What the slots of a round over jobs of kind J are filled with.
pub trait FillsSlots<J: Job> {
    /// The items, in their order.
    ghost items: { Self → List J.In };

    /// How many pieces they are cut into.
    ghost pieces: { Self → ℕ };

    /// How many pieces there are.
    fn pieces(&self) -> usize
        ensures { result ≡ pieces self.now };

    /// Puts each piece into the slot of its number: a sole item itself, a run with the room that is kept for its outputs. After a
    /// refusal all slots are empty.
    fn fill(
        &mut self,
        alloc: Global,
        tables: &SlotTables<'_, pieces::PieceSlots<PieceOf<J>>>,
        seat: &mut Seat<pieces::PieceSlots<PieceOf<J>>>,
        buffers: &mut OutputBuffers<J::In, J::Out>,
    ) -> Result<(), Fault>
        requires seated { IsSeatAt tables.now.tables.now.round.init seat.old }
        requires held { HoldsEach IsEmpty tables.now.slots seat.old.me.1 }
        requires few { pieces self.old ≤ tables.now.slots }
        ensures seat { IsSameSeat seat.old seat.new × (seat.new.me.0 ≡ seat.old.me.0) }
        ensures put { OnOk result
            (Turning IsEmpty (WaitsAs (IsPieceOf (items self.old) (pieces self.old)))
            tables.now.slots (pieces self.old) seat.new.me.1) }
        ensures empty { OnErr result (HoldsEach IsEmpty tables.now.slots seat.new.me.1) }
        ensures memory { OnErr result (IsErrOf result Fault.Memory) };
}

/// The items of a round, and how they are cut.
#[derive(Drop)]
pub enum Items<T> {
    /// Each is a piece.
    Each(Vec<T>),
    /// A piece is a run of them.
    Runs(ListRuns<T>),
}

impl<T: Drop> Items<T> {
    /// The items for so many jobs, which are at most as many.
    pub fn new(alloc: Global, items: Vec<T>, jobs: usize) -> Result<Items<T>, AllocError>
        requires { (0 < jobs) × (jobs ≤ vec_len items) }
        ensures items { IfOk result (λ all. all_items all ≡ items.items) }
        ensures pieces { IfOk result (λ all. pieces_of all ≡ jobs) }
    {
        if jobs == items.len() {
            return Ok(Items::Each(items));
        }
        let shared = SharedList::from_vec(alloc, items)?;
        Ok(Items::Runs(ListRuns::new(shared, jobs)))
    }
}

impl<J: Job> FillsSlots<J> for Items<J::In> {
    ghost items = { λ items. all_items items };

    ghost pieces = { λ items. pieces_of items };

    fn pieces(&self) -> usize {
        match self {
            Items::Each(items) => items.len(),
            Items::Runs(pieces) => pieces.count(),
        }
    }

    fn fill(
        &mut self,
        alloc: Global,
        tables: &SlotTables<'_, pieces::PieceSlots<PieceOf<J>>>,
        seat: &mut Seat<pieces::PieceSlots<PieceOf<J>>>,
        buffers: &mut OutputBuffers<J::In, J::Out>,
    ) -> Result<(), Fault> {
        match self {
            Items::Each(items) => {
                tables.fill_each(seat, items);
                Ok(())
            }
            Items::Runs(pieces) => tables.fill_runs(alloc, seat, pieces, buffers),
        }
    }
}

/// The numbers from 0 up to a count, the end not included, each a piece. They stand in no list.
#[derive(Drop)]
pub struct Numbers {
    count: usize,
}

impl Numbers {
    /// So many.
    pub fn new(count: usize) -> Numbers
        ensures { result.count ≡ count }
    {
        Numbers { count }
    }
}

impl<J: Job<In = usize>> FillsSlots<J> for Numbers {
    ghost items = { λ numbers. counted 0 numbers.count };

    ghost pieces = { λ numbers. numbers.count };

    fn pieces(&self) -> usize {
        self.count
    }

    fn fill(
        &mut self,
        _alloc: Global,
        tables: &SlotTables<'_, pieces::PieceSlots<PieceOf<J>>>,
        seat: &mut Seat<pieces::PieceSlots<PieceOf<J>>>,
        _buffers: &mut OutputBuffers<J::In, J::Out>,
    ) -> Result<(), Fault> {
        tables.fill_counted(seat, self.count);
        Ok(())
    }
}
