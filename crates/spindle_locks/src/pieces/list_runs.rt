//! The pieces of a round's items, as `cut` cuts them: runs of one list, which no piece moves or clones. An address tells where `deal`
//! deals a number to.
ghost use Rattle.std.specs.Prelude.{◌≡◌, ◌+◌, ◌/◌, ◌%◌, ◌^◌, ◌<◌, ◌≤◌, IfOk, get_or, length, min, Some, slice_get, vec_len};
ghost use Rattle.spindle_parts.specs.Pieces.{cut_lengths, counted, dealt};
ghost use Rattle.spindle_locks.specs.PieceRuns.{piece_start, piece_at};

use spindle_parts::lists::shared::{ListRun, SharedList};
use spindle_rounds::round::publishing::PublishedRound;
use std::alloc::{AllocError, Global};

/// A list of items, and how many pieces it is cut into.
#[derive(Drop)]
pub struct ListRuns<T> {
    items: SharedList<T>,
    count: usize,
    short: usize,
    longer: usize,
    ghost some: { 0 < count },
    ghost most: { count ≤ length items },
    ghost small: { length items < 2 ^ 64 },
    ghost divided: { short ≡ length items / count },
    ghost left: { longer ≡ length items % count },
}

impl<T> ListRuns<T> {
    /// The pieces for so many jobs: as many as jobs, but no empty one.
    pub fn new(items: SharedList<T>, n_jobs: usize) -> ListRuns<T>
        requires items { 0 < length items }
        requires jobs { 0 < n_jobs }
        ensures items { result.items ≡ items }
        ensures count { result.count ≡ min (length items) n_jobs }
    {
        let len = items.len();
        let count = len.min(n_jobs);
        ListRuns {
            items,
            count,
            short: len / count,
            longer: len % count,
        }
    }

    /// How many pieces there are.
    pub fn count(&self) -> usize
        ensures number { result ≡ self.now.count }
        ensures some { 0 < result }
    {
        self.count
    }

    /// Their round, a job for each piece.
    pub fn published(&self, may_stop: bool) -> PublishedRound
        ensures jobs { result.jobs ≡ self.now.count }
        ensures may_stop { result.may_stop ≡ may_stop }
    {
        PublishedRound {
            jobs: self.count as u64,
            may_stop,
        }
    }

    /// The piece of a number. The longer ones, by one item, come first.
    pub fn piece(&self, number: usize) -> &[T]
        requires { number < self.now.count }
        ensures run { result.now ≡ piece_at self.now.items self.now.count number }
        ensures length { length result.now
            ≡ get_or (cut_lengths (length self.now.items) self.now.count) number 0 }
    {
        let start = self.start(number);
        &self.items.as_slice()[start..start + self.length(number)]
    }

    // Where the piece of a number begins.
    fn start(&self, number: usize) -> usize
        requires { number < self.now.count }
        ensures { result ≡ piece_start (length self.now.items) self.now.count number }
    {
        self.short * number + self.longer.min(number)
    }

    // How many items the piece of a number has.
    fn length(&self, number: usize) -> usize
        requires { number < self.now.count }
        ensures next { piece_start (length self.now.items) self.now.count (number + 1)
            ≡ piece_start (length self.now.items) self.now.count number + result }
        ensures within { piece_start (length self.now.items) self.now.count (number + 1)
            ≤ length self.now.items }
        ensures length { result
            ≡ get_or (cut_lengths (length self.now.items) self.now.count) number 0 }
    {
        if number < self.longer {
            self.short + 1
        } else {
            self.short
        }
    }
}

impl<T: Drop> ListRuns<T> {
    /// The items of a vector, which aren't moved, in as many pieces as jobs.
    pub fn cut(alloc: Global, items: Vec<T>, jobs: usize) -> Result<ListRuns<T>, AllocError>
        requires { (0 < jobs) × (jobs ≤ vec_len items) }
        ensures items { IfOk result (λ pieces. pieces.items ≡ items.items) }
        ensures count { IfOk result (λ pieces. pieces.count ≡ jobs) }
    {
        Ok(ListRuns::new(SharedList::from_vec(alloc, items)?, jobs))
    }

    /// The piece of a number, as a run of the items.
    pub fn run(&self, number: usize) -> Result<ListRun<T>, AllocError>
        requires { number < self.now.count }
        ensures { IfOk result (λ run. run ≡ piece_at self.now.items self.now.count number) }
    {
        let start = self.start(number);
        self.items.run(start, start + self.length(number))
    }
}

/// The thread number whose tray has a piece, and the piece's place in that tray.
#[derive(Clone, Copy)]
pub(crate) struct Address {
    pub(crate) thread: usize,
    pub(crate) place: usize,
}

impl Address {
    /// The address of a number, where so many pieces were dealt to so many threads.
    pub(crate) fn new(number: usize, pieces: usize, threads: usize) -> Address
        requires number { number < pieces }
        requires threads { 0 < threads }
        ensures thread { result.thread < threads }
        ensures place { slice_get (dealt (counted 0 pieces) threads result.thread) result.place
            ≡ Some number }
    {
        let each = pieces / threads;
        let in_runs = each * threads;
        if number < in_runs {
            Address {
                thread: number / each,
                place: number % each,
            }
        } else {
            Address {
                thread: number - in_runs,
                place: each,
            }
        }
    }

    /// The number that stands at an address.
    pub(crate) fn number(self, pieces: usize, threads: usize) -> usize
        requires thread { self.thread < threads }
        requires place { self.place < length (dealt (counted 0 pieces) threads self.thread) }
        ensures number { slice_get (dealt (counted 0 pieces) threads self.thread) self.place
            ≡ Some result }
        ensures below { result < pieces }
    {
        let each = pieces / threads;
        if self.place < each {
            each * self.thread + self.place
        } else {
            each * threads + self.thread
        }
    }
}

/// How many of so many pieces a thread is dealt.
pub(crate) fn dealt_length(thread: usize, pieces: usize, threads: usize) -> usize
    requires { thread < threads }
    ensures { result ≡ length (dealt (counted 0 pieces) threads thread) }
{
    let each = pieces / threads;
    if thread < pieces % threads {
        each + 1
    } else {
        each
    }
}
