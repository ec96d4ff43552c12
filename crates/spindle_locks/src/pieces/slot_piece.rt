//! A piece as the slot of its number holds it, and what it was run to: one item, or many.
//!
//! A piece of one item is the item itself: no list is shared for it, nothing is counted, and what becomes of it needs no list either.
//! A longer piece of a round over a list is a run of the list that all pieces share, with room for its outputs. A leader keeps that room
//! from round to round: a round of a size that was played before takes no memory for the outputs of its pieces.
ghost use Rattle.std.specs.Prelude.{◌≡◌, ◌+◌, ◌≤◌, ◌++◌, [], IfOk, length, vec_len, vec_capacity};
ghost use Rattle.spindle_locks.specs.SlotPieces.{all_of};

use spindle_parts::lists::shared::ListRun;
use std::alloc::{AllocError, Global};
use std::marker::Model;

/// One item, or many, which M holds.
#[derive(Drop)]
pub enum OneOr<T, M> {
    /// One.
    One(T),
    /// Many.
    Many(M),
}

/// A run of the items of a round, where it hasn't begun, and room for the outputs. They stand in a block of their own, which is kept
/// from round to round, so that a slot holds a pointer to it: threads pass slots to each other, and pay for their size.
#[derive(Drop)]
pub struct Parts<T, U> {
    inputs: Option<ListRun<T>>,
    /// The outputs.
    pub(crate) outputs: Vec<U>,
}

/// A run of the items of a round, with room for an output for each of them. Contracts know it as its items.
#[derive(Drop)]
pub struct Batch<T, U> {
    parts: Box<Parts<T, U>>,
}

impl<T, U> Model for Batch<T, U> {
    ghost use Rattle.std.specs.Prelude.{◌≡◌, ◌≤◌, List, [], IsSome, length, vec_capacity};
    ghost use Rattle.spindle_locks.specs.SlotPieces.{run_in};

    ghost Value = { List T };

    ghost view = { λ batch. run_in batch.parts.value.inputs };

    ghost invariant = { λ batch. let parts = batch.parts.value in IsSome parts.inputs × (parts.outputs.items ≡ [])
        × (length (run_in parts.inputs) ≤ vec_capacity parts.outputs) };
}

/// The outputs of a run, one for each of its items.
#[derive(Drop)]
pub struct Outputs<T, U> {
    parts: Box<Parts<T, U>>,
}

impl<T, U> Model for Outputs<T, U> {
    ghost use Rattle.std.specs.Prelude.{List};

    ghost Value = { List U };

    ghost view = { λ all. all.parts.value.outputs.items };
}

impl<T: Drop, U: Drop> Batch<T, U> {
    /// A run with room for its outputs. What the block held goes; its room is used.
    pub(crate) fn new(
        inputs: ListRun<T>,
        mut parts: Box<Parts<T, U>>,
    ) -> Result<Batch<T, U>, AllocError>
        ensures { IfOk result (λ batch. batch ≡ inputs) }
    {
        parts.outputs.clear();
        parts.outputs.reserve(inputs.len())?;
        parts.inputs = Some(inputs);
        Ok(Batch { parts })
    }
}

impl<T, U> Parts<T, U> {
    /// No run and no room for its outputs.
    pub(crate) fn new(alloc: Global) -> Parts<T, U> {
        Parts {
            inputs: None,
            outputs: Vec::new(alloc),
        }
    }
}

impl<T, U> Batch<T, U> {
    /// The items, and the empty room for their outputs.
    pub(crate) fn into_parts(self) -> (ListRun<T>, Box<Parts<T, U>>)
        ensures items { result.0 ≡ self }
        ensures empty { result.1.value.outputs.items ≡ [] }
        ensures room { length self ≤ vec_capacity result.1.value.outputs }
    {
        let Batch { mut parts } = self;
        let Some(inputs) = parts.inputs.take() else {
            unreachable!()
        };
        (inputs, parts)
    }
}

impl<T, U> Outputs<T, U> {
    /// The outputs in a block.
    pub(crate) fn new(parts: Box<Parts<T, U>>) -> Outputs<T, U>
        ensures { result ≡ parts.value.outputs.items }
    {
        Outputs { parts }
    }
}

impl<T, U> OneOr<U, Outputs<T, U>> {
    /// Moves the outputs to the end of the list. Of many their empty room is left.
    pub(crate) fn unload(self, outputs: &mut Vec<U>) -> Option<Box<Parts<T, U>>>
        requires room { vec_len outputs.old + length (all_of self) ≤ vec_capacity outputs.old }
        ensures outputs { outputs.new.items ≡ outputs.old.items ++ all_of self }
        ensures block { vec_capacity outputs.old ≤ vec_capacity outputs.new }
    {
        match self {
            OneOr::One(output) => {
                outputs.push_reserved(output);
                None
            }
            OneOr::Many(Outputs { mut parts }) => {
                outputs.append(&mut parts.outputs).unwrap();
                Some(parts)
            }
        }
    }
}

/// For each slot that had a piece of many items a block with room for the outputs of its pieces.
#[derive(Drop)]
pub struct OutputBuffers<T, U> {
    blocks: Vec<Option<Box<Parts<T, U>>>>,
}

impl<T: Drop, U: Drop> OutputBuffers<T, U> {
    /// The buffers of no slot. Takes no memory.
    pub(crate) fn new(alloc: Global) -> OutputBuffers<T, U> {
        OutputBuffers {
            blocks: Vec::new(alloc),
        }
    }

    /// Sees that so many slots have a place for their buffers.
    pub(crate) fn reserve(&mut self, slots: usize) -> Result<(), AllocError> {
        for _ in self.blocks.len()..slots {
            self.blocks.push(None)?;
        }
        Ok(())
    }

    /// Takes the buffer of a slot, or a new one where it has none.
    pub(crate) fn take(
        &mut self,
        alloc: Global,
        slot: usize,
    ) -> Result<Box<Parts<T, U>>, AllocError> {
        if let Some(place) = self.blocks.get_mut(slot)
            && let Some(buffer) = place.take()
        {
            return Ok(buffer);
        }
        Ok(Box::new(alloc, Parts::new(alloc))?)
    }

    /// Keeps the buffer of a slot, where its piece had one.
    pub(crate) fn keep(&mut self, slot: usize, buffer: Option<Box<Parts<T, U>>>) {
        if buffer.is_some()
            && let Some(place) = self.blocks.get_mut(slot)
        {
            *place = buffer;
        }
    }
}
