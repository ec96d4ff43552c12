//! The room of a leader that plays rounds in place, kept from round to round: a round of a size that was played before takes no
//! memory.
ghost use Rattle.std.specs.Prelude.{◌≡◌, ◌<◌, ◌≤◌, ◌+◌, ◌/◌, [], true, OnOk, OnErr, IsErrOf, length, vec_len, vec_capacity};
ghost use Rattle.spindle_locks.specs.InPlace.{HaveCapacity, IsReady, last_pieces};
ghost use Rattle.spindle_locks.specs.PieceRuns.{piece_start};

use crate::pieces::chunk::{Chunk, ChunkBuffer};
use crate::prelude::*;

/// Room that waits for a round, room that is ready for one, and the chunks of a round on their way to its slots.
#[derive(Drop)]
pub struct ChunkBuffers<T> {
    pub(crate) spare: Vec<ChunkBuffer<T>>,
    pub(crate) ready: Vec<ChunkBuffer<T>>,
    pub(crate) chunks: Vec<Chunk<T>>,
}

impl<T: Drop> ChunkBuffers<T> {
    /// No room. Takes no memory.
    pub(crate) fn new(alloc: Global) -> ChunkBuffers<T> {
        ChunkBuffers {
            spare: Vec::new(alloc),
            ready: Vec::new(alloc),
            chunks: Vec::new(alloc),
        }
    }

    /// Makes room ready for so many items in so many chunks. Where the last round had as many chunks and its room is enough, each
    /// chunk has the room that the one of its number had.
    pub(crate) fn prepare(&mut self, alloc: Global, len: usize, jobs: usize) -> Result<(), Fault>
        requires jobs { 1 ≤ jobs }
        requires len { len < 9223372036854775808 }
        ensures ready { OnOk result (IsReady len jobs self.new.ready.items
            self.new.chunks.items (vec_capacity self.new.chunks)) }
        ensures memory { OnErr result (IsErrOf result Fault.Memory) }
    {
        let most = len / jobs + 1;
        self.chunks.clear();
        self.chunks.reserve(jobs)?;
        if self.ready.len() == jobs && are_enough(self.ready.as_slice(), most) {
            return Ok(());
        }
        self.put_aside();
        self.ready.reserve(jobs)?;
        for _ in 0..jobs {
            let mut buffer = self.take(alloc)?;
            buffer.reserve(most)?;
            self.ready.push_reserved(buffer);
        }
        Ok(())
    }

    // Nothing is ready; all room waits. Where there is no memory to keep it in, it goes.
    fn put_aside(&mut self)
        ensures ready { self.new.ready.items ≡ [] }
        ensures chunks { self.new.chunks ≡ self.old.chunks }
    {
        for _ in 0..self.ready.len() {
            let buffer = self.ready.take_last();
            self.keep(buffer);
        }
    }

    /// Moves the items into chunks, the last piece first, so that the first one is at the end. The list keeps its room.
    pub(crate) fn load(&mut self, items: &mut Vec<T>, jobs: usize)
        requires jobs { (1 ≤ jobs) × (jobs ≤ vec_len items.old) }
        requires ready { IsReady (vec_len items.old) jobs self.old.ready.items
            self.old.chunks.items (vec_capacity self.old.chunks) }
        ensures chunks { self.new.chunks.items ≡ last_pieces items.old.items jobs jobs }
        ensures items { (items.new.items ≡ [])
            × (vec_capacity items.new ≡ vec_capacity items.old) }
    {
        let len = items.len();
        for done in 0..jobs {
            let number = jobs - 1 - done;
            let buffer = self.ready.take_last();
            let from = start(len, jobs, number);
            self.chunks.push_reserved(buffer.load(items, from));
        }
    }

    /// Room that waits, or new room for no item.
    pub(crate) fn take(&mut self, alloc: Global) -> Result<ChunkBuffer<T>, Fault>
        ensures memory { OnErr result (IsErrOf result Fault.Memory) }
        ensures ready { self.new.ready ≡ self.old.ready }
        ensures chunks { self.new.chunks ≡ self.old.chunks }
    {
        match self.spare.pop() {
            Some(buffer) => Ok(buffer),
            None => ChunkBuffer::new(alloc),
        }
    }

    /// Keeps the buffer of a chunk that was run. Where there is no memory to keep it in, it goes.
    pub(crate) fn keep(&mut self, buffer: ChunkBuffer<T>)
        ensures ready { self.new.ready ≡ self.old.ready }
        ensures chunks { self.new.chunks ≡ self.old.chunks }
    {
        let _ = self.spare.push(buffer);
    }

    /// Keeps the buffer of the next chunk of a round, if there is any, ready for the chunk of that number in the next round. Where
    /// there is no memory to keep it in, it goes.
    pub(crate) fn keep_ready(&mut self, buffer: Option<ChunkBuffer<T>>) {
        if let Some(buffer) = buffer {
            let _ = self.ready.push(buffer);
        }
    }
}

// Whether each is room for so many items.
fn are_enough<T>(buffers: &[ChunkBuffer<T>], items: usize) -> bool
    ensures { result ≡ true → HaveCapacity items buffers.now }
{
    for buffer in buffers {
        if !buffer.has(items) {
            return false;
        }
    }
    true
}

// Where the piece of a number begins, of so many that a list of this length is cut into.
fn start(len: usize, pieces: usize, number: usize) -> usize
    requires { (1 ≤ pieces) × (number < pieces) }
    ensures start { result ≡ piece_start len pieces number }
    ensures within { result ≤ len }
{
    len / pieces * number + (len % pieces).min(number)
}
