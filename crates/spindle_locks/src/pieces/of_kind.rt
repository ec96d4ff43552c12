//! The pieces of a lock with slots, and what answers one.
ghost use Rattle.spindle_locks.specs.SlotPieces.{IsAnswerTo};

use crate::job::Job;
use crate::job::update::Updates;
use crate::pieces::chunk::{Chunk, Updated};
use crate::pieces::slot_piece::{Batch, OneOr, Outputs};
use spindle_rounds::round_table::pieces::PieceKind;
use std::marker::PhantomData;

/// A piece of a kind of job is answered by an output for each of its items that meets the job's relation.
pub struct PieceOf<J: Job> {
    kind: PhantomData<J>,
}

impl<J: Job> PieceKind for PieceOf<J> {
    type Piece = OneOr<J::In, Batch<J::In, J::Out>>;

    type Answer = OneOr<J::Out, Outputs<J::In, J::Out>>;

    ghost answers = { IsAnswerTo J.meets };
}

/// A piece in place is answered by what became of its items, each in its place.
pub struct ChunkOf<J: Updates> {
    kind: PhantomData<J>,
}

impl<J: Updates> PieceKind for ChunkOf<J> {
    type Piece = OneOr<J::Item, Chunk<J::Item>>;

    type Answer = OneOr<J::Item, Updated<J::Item>>;

    ghost answers = { IsAnswerTo J.updated };
}
