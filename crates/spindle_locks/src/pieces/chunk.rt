//! A piece in place: its items, with room for what becomes of each.
//!
//! The items stand in reverse, so that they are taken from the end in their order, and what becomes of each goes to the end of the
//! other list. Both lists keep their room from round to round, in a block of their own: so a slot holds a pointer to them, and slots are
//! small, which threads pay for that pass them to each other.
ghost use Rattle.std.specs.Prelude.{◌≡◌, ◌-◌, ◌+◌, ◌≤◌, ◌++◌, [], take, drop, reverse, true, OnOk, OnErr, IsErrOf, length, vec_len, vec_capacity};
ghost use Rattle.spindle_locks.specs.SlotPieces.{all_of};

use crate::pieces::slot_piece::OneOr;
use crate::prelude::*;
use std::marker::Model;

/// The items of a piece that wait, in reverse, and what became of the others.
#[derive(Drop)]
pub struct Lists<T> {
    /// The items that wait.
    pub(crate) todo: Vec<T>,
    /// What became of the others.
    pub(crate) done: Vec<T>,
}

/// Room for the items of a piece, and for what becomes of them. Contracts know it as the number of items for which there is room.
#[derive(Drop)]
pub struct ChunkBuffer<T> {
    lists: Box<Lists<T>>,
}

impl<T> Model for ChunkBuffer<T> {
    ghost use Rattle.std.specs.Prelude.{◌≡◌, ◌≤◌, ℕ, [], min, vec_capacity};

    ghost Value = { ℕ };

    ghost view = { λ buffer. let lists = buffer.lists.value in
        min (vec_capacity lists.todo) (vec_capacity lists.done) };

    ghost invariant = { λ buffer. (buffer.lists.value.todo.items ≡ [])
        × (buffer.lists.value.done.items ≡ []) };
}

/// Items that wait, with room for what becomes of them.
#[derive(Drop)]
pub struct Chunk<T> {
    lists: Box<Lists<T>>,
}

impl<T> Model for Chunk<T> {
    ghost use Rattle.std.specs.Prelude.{◌≡◌, ◌≤◌, List, [], reverse, length, vec_capacity};

    ghost Value = { List T };

    ghost view = { λ chunk. reverse chunk.lists.value.todo.items };

    ghost invariant = { λ chunk. (chunk.lists.value.done.items ≡ [])
        × (length chunk.lists.value.todo.items ≤ vec_capacity chunk.lists.value.done) };
}

/// What became of the items of a chunk.
#[derive(Drop)]
pub struct Updated<T> {
    lists: Box<Lists<T>>,
}

impl<T> Model for Updated<T> {
    ghost use Rattle.std.specs.Prelude.{◌≡◌, List, []};

    ghost Value = { List T };

    ghost view = { λ chunk. chunk.lists.value.done.items };

    ghost invariant = { λ chunk. chunk.lists.value.todo.items ≡ [] };
}

impl<T> Lists<T> {
    // Moves the items from a place on out of the list, the last one first.
    fn load(&mut self, items: &mut Vec<T>, from: usize)
        requires from { from ≤ vec_len items.old }
        requires room { vec_len items.old - from ≤ vec_capacity self.old.todo }
        requires empty { self.old.todo.items ≡ [] }
        ensures left { items.new.items ≡ take from items.old.items }
        ensures len { vec_len items.new ≡ from }
        ensures block { vec_capacity items.new ≡ vec_capacity items.old }
        ensures taken { reverse self.new.todo.items ≡ drop from items.old.items }
        ensures many { from + vec_len self.new.todo ≡ vec_len items.old }
        ensures done { self.new.done ≡ self.old.done }
    {
        for _ in from..items.len() {
            self.todo.push_reserved(items.take_last());
        }
    }
}

impl<T: Drop> ChunkBuffer<T> {
    /// Room for no item.
    pub(crate) fn new(alloc: Global) -> Result<ChunkBuffer<T>, Fault>
        ensures { OnErr result (IsErrOf result Fault.Memory) }
    {
        let lists = Lists {
            todo: Vec::new(alloc),
            done: Vec::new(alloc),
        };
        let lists = Box::new(alloc, lists)?;
        Ok(ChunkBuffer { lists })
    }
}

impl<T> ChunkBuffer<T> {
    /// Room for so many items.
    pub(crate) fn reserve(&mut self, items: usize) -> Result<(), Fault>
        ensures room { OnOk result (items ≤ self.new) }
        ensures memory { OnErr result (IsErrOf result Fault.Memory) }
    {
        self.lists.todo.reserve(items)?;
        self.lists.done.reserve(items)?;
        Ok(())
    }

    /// Whether it is room for so many items.
    pub(crate) fn has(&self, items: usize) -> bool
        ensures { result ≡ true → items ≤ self.now }
    {
        items <= self.lists.todo.capacity() && items <= self.lists.done.capacity()
    }

    /// Moves the items from a place on out of the list.
    pub(crate) fn load(self, items: &mut Vec<T>, from: usize) -> Chunk<T>
        requires from { from ≤ vec_len items.old }
        requires room { vec_len items.old - from ≤ self }
        ensures left { items.new.items ≡ take from items.old.items }
        ensures len { vec_len items.new ≡ from }
        ensures block { vec_capacity items.new ≡ vec_capacity items.old }
        ensures taken { result ≡ drop from items.old.items }
    {
        let ChunkBuffer { mut lists } = self;
        lists.load(items, from);
        Chunk { lists }
    }
}

impl<T> Chunk<T> {
    /// The items in reverse, and the empty room for what becomes of them.
    pub(crate) fn into_lists(self) -> Box<Lists<T>>
        ensures items { self ≡ reverse result.value.todo.items }
        ensures empty { result.value.done.items ≡ [] }
        ensures room { vec_len result.value.todo ≤ vec_capacity result.value.done }
    {
        self.lists
    }
}

impl<T> Updated<T> {
    /// What became of the items, none of which waits any more.
    pub(crate) fn new(lists: Box<Lists<T>>) -> Updated<T>
        requires { lists.value.todo.items ≡ [] }
        ensures { result ≡ lists.value.done.items }
    {
        Updated { lists }
    }

    /// Moves what became of the items to the end of the list, and leaves their room.
    pub(crate) fn unload(self, items: &mut Vec<T>) -> ChunkBuffer<T>
        requires room { vec_len items.old + length self ≤ vec_capacity items.old }
        ensures items { items.new.items ≡ items.old.items ++ self }
        ensures block { vec_capacity items.old ≤ vec_capacity items.new }
    {
        let Updated { mut lists } = self;
        items.append(&mut lists.done).unwrap();
        ChunkBuffer { lists }
    }
}

impl<T> OneOr<T, Updated<T>> {
    /// Moves what became of the items to the end of the list. Of a chunk its room is left.
    pub(crate) fn unload(self, items: &mut Vec<T>) -> Option<ChunkBuffer<T>>
        requires room { vec_len items.old + length (all_of self) ≤ vec_capacity items.old }
        ensures items { items.new.items ≡ items.old.items ++ all_of self }
        ensures block { vec_capacity items.old ≤ vec_capacity items.new }
    {
        match self {
            OneOr::One(item) => {
                items.push_reserved(item);
                None
            }
            OneOr::Many(updated) => Some(updated.unload(items)),
        }
    }
}
