//! The items of a round on their way into the slots of its table: the leader puts each piece into the slot of its number.
ghost use Rattle.std.specs.Prelude.{◌≡◌, ◌<◌, ◌≤◌, [], IfOk, OnOk, OnErr, IsErrOf, vec_len, vec_capacity};
ghost use Rattle.spindle_rounds.specs.Seating.{IsSeatAt, IsSameSeat};
ghost use Rattle.spindle_rounds.specs.SlotHands.{WaitsAs};
ghost use Rattle.spindle_rounds.specs.SlotLoops.{HoldsEach, IsEmpty, Turning};
ghost use Rattle.spindle_parts.specs.Pieces.{counted};
ghost use Rattle.spindle_locks.specs.SlotPieces.{IsItemOf, IsPieceOf};
ghost use Rattle.spindle_locks.specs.InPlace.{IsReady};

use crate::job::update::Updates;
use crate::leader_states::leader_state::SlotTables;
use crate::pieces::chunk_buffers::ChunkBuffers;
use crate::pieces::list_runs;
use crate::pieces::of_kind::{ChunkOf, PieceOf};
use crate::pieces::slot_piece::{Batch, OneOr, OutputBuffers, Parts};
use crate::prelude::*;
use spindle_rounds::round_table::Seat;
use spindle_rounds::round_table::pieces::{PieceKind, PieceSlots};

// The piece of a number, with this room for its outputs, if there is any.
fn batch<T: Drop, U: Drop>(
    pieces: &list_runs::ListRuns<T>,
    number: usize,
    buffer: Result<Box<Parts<T, U>>, AllocError>,
) -> Result<OneOr<T, Batch<T, U>>, AllocError>
    requires { number < pieces.now.count }
    ensures { IfOk result (IsPieceOf pieces.now.items pieces.now.count number) }
{
    Ok(OneOr::Many(Batch::new(pieces.run(number)?, buffer?)?))
}

impl<'t, T: Drop, M: Drop, A: PieceKind<Piece = OneOr<T, M>>> SlotTables<'t, PieceSlots<A>> {
    /// Puts each item into a slot of its own, in order. The list keeps its room.
    pub(crate) fn fill_each(&self, seat: &mut Seat<PieceSlots<A>>, items: &mut Vec<T>)
        requires seated { IsSeatAt self.now.tables.now.round.init seat.old }
        requires held { HoldsEach IsEmpty self.now.slots seat.old.me.1 }
        requires few { vec_len items.old ≤ self.now.slots }
        ensures seat { IsSameSeat seat.old seat.new × (seat.new.me.0 ≡ seat.old.me.0) }
        ensures put { Turning IsEmpty (WaitsAs (IsItemOf items.old.items))
            self.now.slots (vec_len items.old) seat.new.me.1 }
        ensures items { (items.new.items ≡ [])
            × (vec_capacity items.new ≡ vec_capacity items.old) }
    {
        items.reverse();
        for slot in 0..items.len() {
            let item = items.take_last();
            self.tables.round.put_piece(seat, slot, OneOr::One(item));
        }
    }
}

impl<'t, M: Drop, A: PieceKind<Piece = OneOr<usize, M>>> SlotTables<'t, PieceSlots<A>> {
    /// Puts the numbers from 0 up to a count into slots, each into its own.
    pub(crate) fn fill_counted(&self, seat: &mut Seat<PieceSlots<A>>, count: usize)
        requires seated { IsSeatAt self.now.tables.now.round.init seat.old }
        requires held { HoldsEach IsEmpty self.now.slots seat.old.me.1 }
        requires few { count ≤ self.now.slots }
        ensures seat { IsSameSeat seat.old seat.new × (seat.new.me.0 ≡ seat.old.me.0) }
        ensures put { Turning IsEmpty (WaitsAs (IsItemOf (counted 0 count)))
            self.now.slots count seat.new.me.1 }
    {
        for slot in 0..count {
            self.tables.round.put_piece(seat, slot, OneOr::One(slot));
        }
    }
}

impl<'t, J: Job> SlotTables<'t, PieceSlots<PieceOf<J>>> {
    /// Puts the runs into slots, in order, each with the room that is kept for its outputs. After a refusal all slots are empty.
    pub(crate) fn fill_runs(
        &self,
        alloc: Global,
        seat: &mut Seat<PieceSlots<PieceOf<J>>>,
        pieces: &list_runs::ListRuns<J::In>,
        buffers: &mut OutputBuffers<J::In, J::Out>,
    ) -> Result<(), Fault>
        requires seated { IsSeatAt self.now.tables.now.round.init seat.old }
        requires held { HoldsEach IsEmpty self.now.slots seat.old.me.1 }
        requires few { pieces.now.count ≤ self.now.slots }
        ensures seat { IsSameSeat seat.old seat.new × (seat.new.me.0 ≡ seat.old.me.0) }
        ensures put { OnOk result
            (Turning IsEmpty (WaitsAs (IsPieceOf pieces.now.items pieces.now.count))
            self.now.slots pieces.now.count seat.new.me.1) }
        ensures empty { OnErr result (HoldsEach IsEmpty self.now.slots seat.new.me.1) }
        ensures memory { OnErr result (IsErrOf result Fault.Memory) }
    {
        buffers.reserve(pieces.count())?;
        let round = &self.tables.round;
        for slot in 0..pieces.count() {
            let buffer = buffers.take(alloc, slot);
            let Ok(piece) = batch(pieces, slot, buffer) else {
                round.turn_slots(seat, slot, self.slots);
                round.empty_slots(seat, self.slots);
                return Err(Fault::Memory);
            };
            round.put_piece(seat, slot, piece);
        }
        Ok(())
    }
}

impl<'t, J: Updates> SlotTables<'t, PieceSlots<ChunkOf<J>>> {
    /// Puts the items into the slots of so many jobs: each into one of its own, where there are as many, else in chunks. The list
    /// keeps its room.
    pub(crate) fn fill_in_place(
        &self,
        seat: &mut Seat<PieceSlots<ChunkOf<J>>>,
        buffers: &mut ChunkBuffers<J::Item>,
        jobs: usize,
        items: &mut Vec<J::Item>,
    )
        requires seated { IsSeatAt self.now.tables.now.round.init seat.old }
        requires held { HoldsEach IsEmpty self.now.slots seat.old.me.1 }
        requires few { (1 ≤ jobs) × (jobs ≤ self.now.slots) × (jobs ≤ vec_len items.old) }
        requires ready { jobs < vec_len items.old → IsReady (vec_len items.old) jobs
            buffers.old.ready.items buffers.old.chunks.items (vec_capacity buffers.old.chunks) }
        ensures seat { IsSameSeat seat.old seat.new × (seat.new.me.0 ≡ seat.old.me.0) }
        ensures put { Turning IsEmpty (WaitsAs (IsPieceOf items.old.items jobs))
            self.now.slots jobs seat.new.me.1 }
        ensures items { (items.new.items ≡ [])
            × (vec_capacity items.new ≡ vec_capacity items.old) }
    {
        if jobs == items.len() {
            self.fill_each(seat, items);
            return;
        }
        buffers.load(items, jobs);
        for slot in 0..jobs {
            let chunk = buffers.chunks.take_last();
            self.tables.round.put_piece(seat, slot, OneOr::Many(chunk));
        }
    }
}
