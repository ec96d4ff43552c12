//! Slots that hold the pieces of a round: what is given to a number's party, and what it brings back.
ghost use Rattle.std.specs.Prelude.{◌≡◌, ℕ, ◌<◌, length, IfOk};
ghost use mathlib.Core.Option.{some};
ghost use lib.ListN.{get_elem?};
ghost use Rattle.spindle_rounds.specs.RoundPieces.{pieces, EverySlot};
ghost use Rattle.spindle_rounds.specs.PiecesKept.{pieces_lawful};

use crate::round_table::slots::SlotContents;
use std::alloc::{AllocError, Global};
use std::marker::PhantomData;

/// What a piece is, what answers it, and which answers are right.
pub trait PieceKind {
    /// What the party of a number is given.
    type Piece: Drop;

    /// What it brings back.
    type Answer: Drop;

    ghost answers: { Self.Piece → Self.Answer → Type 0 };
}

/// What stands in a slot.
#[derive(Drop)]
pub enum SlotState<P, A> {
    /// Nothing.
    Empty,
    /// A piece that wasn't run.
    Waits(P),
    /// What a piece was run to.
    Done(A),
}

/// Slots that hold pieces.
pub struct PieceSlots<A: PieceKind> {
    of: PhantomData<A>,
}

impl<A: PieceKind> SlotContents for PieceSlots<A> {
    type Slot = SlotState<A::Piece, A::Answer>;

    type Note = A::Piece;

    ghost discipline = { pieces A.answers };

    fn vacant(
        alloc: Global,
        slots: usize,
    ) -> Result<Vec<SlotState<A::Piece, A::Answer>>, AllocError> {
        let mut all = Vec::with_capacity(alloc, slots)?;
        for _ in 0..slots {
            all.push_reserved(SlotState::Empty);
        }
        Ok(all)
    }

    ghost lawful = { pieces_lawful A.answers };
}

/// What the slots hold at every moment: from the publish of n on each number below n has a piece in its slot, and until
/// the leader takes that slot out it is away exactly while the number runs; at home it holds an answer to the piece exactly
/// where the number has finished, and else the piece.
pub fn every_slot<A: PieceKind>()
    ensures { EverySlot A.answers }
{}
