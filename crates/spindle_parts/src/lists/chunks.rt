//! Chunks of a list: runs of about one length, or of a length that the caller says, with the items around each that its
//! job may read.
ghost use Rattle.std.specs.Prelude.{◌≡◌, ◌*◌, ◌<◌, ◌≤◌, IfOk, OnErr, IsErrOf, length, map};
ghost use Rattle.spindle_parts.specs.Pieces.{joined, cut_lengths};
ghost use Rattle.spindle_parts.specs.Chunks.{own_items, chunk_from, chunks_around};

use crate::cut::piece_lengths;
use crate::fault::Fault;
use crate::lists::same::EqualIsSame;
use crate::lists::shared::{ListRun, SharedList};
use std::alloc::{AllocError, Global};
use std::marker::Model;

impl<T: Drop> SharedList<T> {
    /// Cuts the list into so many runs, or into as many as it has items where these are fewer. The first ones are longer
    /// by one item, where the lengths differ: they are those of `cut`. No item is moved or cloned.
    pub fn share_out_evenly(&self, alloc: Global, pieces: usize) -> Result<Vec<ListRun<T>>, Fault>
        requires { 0 < length self.now → 0 < pieces }
        ensures joined { IfOk result (λ runs. joined runs.items ≡ self.now) }
        ensures lengths { IfOk result (λ runs.
            map (λ run. length run) runs.items ≡ cut_lengths (length self.now) pieces) }
        ensures memory { OnErr result (IsErrOf result Fault.Memory) }
    {
        self.run(0, self.len())?.share_out_evenly(alloc, pieces)
    }
}

impl<T: Drop> ListRun<T> {
    /// Cuts the run as `SharedList::share_out_evenly` cuts a list.
    pub fn share_out_evenly(&self, alloc: Global, pieces: usize) -> Result<Vec<ListRun<T>>, Fault>
        requires { 0 < length self.now → 0 < pieces }
        ensures joined { IfOk result (λ runs. joined runs.items ≡ self.now) }
        ensures lengths { IfOk result (λ runs.
            map (λ run. length run) runs.items ≡ cut_lengths (length self.now) pieces) }
        ensures memory { OnErr result (IsErrOf result Fault.Memory) }
    {
        let lengths = piece_lengths(alloc, self.len(), pieces)?;
        self.share_out(alloc, lengths.as_slice())
    }
}

/// A chunk of a list, with the items around it that its job may read.
///
/// Its run of the list has the chunk from one place up to another, and before and behind it what stands there in the
/// list: as many items as were asked for, or fewer at an end of the list.
#[derive(Drop)]
pub struct Chunk<T> {
    run: ListRun<T>,
    from: usize,
    to: usize,
}

impl<T> Model for Chunk<T> {
    ghost use Rattle.std.specs.Prelude.{◌≤◌, length};
    ghost use Rattle.spindle_parts.specs.Chunks.{ChunkView};

    ghost Value = { ChunkView T };

    ghost view = { λ chunk. record { run = chunk.run; from = chunk.from; to = chunk.to } };

    ghost invariant = { λ chunk. (chunk.from ≤ chunk.to) × (chunk.to ≤ length chunk.run) };
}

impl<T> Chunk<T> {
    /// The chunk and the items around it.
    pub fn as_slice(&self) -> &[T]
        ensures { result.now ≡ self.now.run }
    {
        self.run.as_slice()
    }

    /// Where the chunk begins in its slice: so many items stand before it.
    pub fn from(&self) -> usize
        ensures place { result ≡ self.now.from }
        ensures in_order { self.now.from ≤ self.now.to }
    {
        self.from
    }

    /// Where the chunk ends in its slice, the end not included.
    pub fn to(&self) -> usize
        ensures place { result ≡ self.now.to }
        ensures in_slice { self.now.to ≤ length self.now.run }
    {
        self.to
    }
}

impl<T: Drop> SharedList<T> {
    /// Cuts the list into chunks of so many items, of which the last may be shorter, each with so many items (`halo`) on
    /// either side of it, as far as the list has them. No item is moved or cloned.
    pub fn share_out_overlapping(
        &self,
        alloc: Global,
        size: usize,
        halo: usize,
    ) -> Result<Vec<Chunk<T>>, Fault>
        requires { 0 < size }
        ensures chunks { IfOk result (λ chunks. chunks.items ≡ chunks_around self.now size halo) }
        ensures joined { IfOk result (λ chunks. joined (map own_items chunks.items) ≡ self.now) }
        ensures memory { OnErr result (IsErrOf result Fault.Memory) }
    {
        let count = self.len().div_ceil(size);
        let mut chunks = Vec::with_capacity(alloc, count)?;
        for number in 0..count {
            chunks.push_reserved(self.chunk(size * number, size, halo)?);
        }
        Ok(chunks)
    }

    // The chunk that begins at a place.
    fn chunk(&self, start: usize, size: usize, halo: usize) -> Result<Chunk<T>, AllocError>
        requires { start ≤ length self.now }
        ensures { IfOk result (λ chunk. chunk ≡ chunk_from self.now size halo start) }
    {
        let len = self.len();
        let end = start + size.min(len - start);
        let first = start - halo.min(start);
        let run = self.run(first, end + halo.min(len - end))?;
        Ok(Chunk {
            run,
            from: start - first,
            to: end - first,
        })
    }
}

impl<T: Drop> Clone for Chunk<T> {
    ghost is_clone = { λ chunk clone. clone ≡ chunk };

    fn clone(&self) -> Result<Chunk<T>, AllocError> {
        let run = self.run.clone()?;
        Ok(Chunk {
            run,
            from: self.from,
            to: self.to,
        })
    }
}

impl<T: PartialEq> PartialEq for Chunk<T> {
    ghost use Rattle.spindle_parts.specs.Chunks.{equal_chunks};
    ghost use Rattle.std.specs.Cmp.Rules.{comparing};
    ghost use Rattle.std.proofs.Common.{rules};

    ghost eq = { equal_chunks T.eq };

    ghost laws = { Prim.search (comparing, rules) };

    fn eq(&self, other: &Chunk<T>) -> bool {
        self.run == other.run && self.from == other.from && self.to == other.to
    }
}

impl<T: Eq> Eq for Chunk<T> {
    ghost use Rattle.std.specs.Cmp.Rules.{comparing};
    ghost use Rattle.std.proofs.Common.{rules};

    ghost laws = { Prim.search (comparing, rules) };
}

impl<T: EqualIsSame> EqualIsSame for Chunk<T> {
    ghost use Rattle.spindle_parts.specs.Chunks.{equal_chunks_are_same};

    ghost equal_is_same = { equal_chunks_are_same T.eq T.equal_is_same };
}
