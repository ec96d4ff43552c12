//! What the threads of a lock share, whatever the kind of job: how many they are, rounds, thread numbers, signals, a place to sleep, and
//! who is there. What the slots of its round table hold is a parameter. A job sees of this what names no slots: its site.
ghost use Rattle.std.specs.Prelude.{◌≡◌, ℕ, ◌<◌, None, Some, ◌≤◌, IfSome};
ghost use Rattle.std.specs.Option.{ForSome};
ghost use Rattle.spindle_parts.specs.LedgerSeats.{child_slot_count};

use crate::barrier::BarrierInit;
use crate::round::Round;
use crate::round_table::slots::{Bare, SlotContents};
use crate::threads::MOST_THREADS;
use crate::threads::sleep::Sleep;
use spindle_parts::numbers::Numbers;
use spindle_parts::requests::Requests;
use std::sync::atomic::{AtomicUsize, Ordering};

/// The tables of a lock.
#[derive(Drop)]
pub struct Tables<D: SlotContents> {
    /// How many threads the lock and its pool have.
    pub counts: ThreadCounts,
    /// The round table, with the barrier.
    pub round: Round<D>,
    /// The numbers of its threads.
    pub numbers: Numbers,
    /// What its threads announce, and how many helpers nested locks ask for.
    pub ledger: Requests,
    /// The child slots: so many locks that its jobs open may stand there at once.
    pub child_slots: usize,
    /// Where idle threads sleep.
    pub sleep: Sleep,
    /// The threads' own count of who is there.
    pub present: Present,
    ghost rounds: { round.init.threads ≡ counts.threads },
    ghost named: { numbers.threads ≡ counts.threads },
    ghost placed: { child_slot_count ledger ≡ child_slots },
}

impl<D: SlotContents> Tables<D> {
    /// Where the thread of this number runs jobs, which read there how many threads take part.
    pub fn site<'a>(&'a self, members: MemberCount<'a>, thread: usize) -> JobSite<'a>
        requires thread { thread < self.now.counts.threads }
        ensures counts { result.counts ≡ self.now.counts }
        ensures members { result.members ≡ members.entry }
        ensures index { result.index ≡ Some thread }
    {
        JobSite {
            counts: self.counts,
            members,
            sleep: &self.sleep,
            index: Some(thread),
        }
    }
}

/// What a job sees of its lock, and the number of the thread that runs it, if that has one.
#[derive(Clone, Copy)]
pub struct JobSite<'a> {
    /// How many threads the lock and its pool have.
    pub counts: ThreadCounts,
    /// Where the number of those that take part is read.
    pub members: MemberCount<'a>,
    /// Where the lock's idle threads sleep.
    pub sleep: &'a Sleep,
    /// The number of the thread; none in a job that a leader runs directly.
    pub index: Option<usize>,
    ghost numbered: { ForSome index (λ i. i < counts.most) },
}

impl<'a> JobSite<'a> {
    ghost use Rattle.spindle_rounds.specs.ThreadCounts.{told_of};

    /// The same for a job that a leader runs directly: under no number.
    pub fn directly(&self) -> JobSite<'a>
        ensures counts { result.counts ≡ self.now.counts }
        ensures members { result.members ≡ self.now.members }
        ensures number { result.index ≡ None }
    {
        JobSite {
            counts: self.counts,
            members: self.members,
            sleep: self.sleep,
            index: None,
        }
    }

    /// The same for a job that another job runs directly: the number of threads stays as it is now.
    pub fn within(&self) -> JobSite<'a>
        ensures counts { result.counts ≡ self.now.counts }
        ensures told { let most = self.now.counts.most in (now : ℕ) × (0 < now) × (now ≤ most)
            × IfSome (told_of self.now.members most) (λ told. now ≡ told)
            × (told_of result.members most ≡ Some now) }
        ensures index { result.index ≡ self.now.index }
    {
        JobSite {
            counts: self.counts,
            members: MemberCount::Fixed(self.current()),
            sleep: self.sleep,
            index: self.index,
        }
    }

    /// How many threads take part now.
    pub fn current(&self) -> usize
        ensures leader { 0 < result }
        ensures most { result ≤ self.now.counts.most }
        ensures told { IfSome (told_of self.now.members self.now.counts.most) (λ now. result ≡ now) }
    {
        self.members.current(self.counts.most())
    }
}

/// Where the number of threads that take part in a lock is read.
#[derive(Clone, Copy)]
pub enum MemberCount<'a> {
    /// At the lock's barrier, at the moment when it is asked for.
    Barrier(&'a BarrierInit<Bare>),
    /// At the threads' own count, at the moment when it is asked for.
    Present(&'a Present),
    /// Nowhere: it was read before, and stays.
    Fixed(usize),
}

impl<'a> MemberCount<'a> {
    ghost use Rattle.spindle_rounds.specs.ThreadCounts.{told_of};

    /// The number, the leader counted, of a lock of so many threads.
    pub fn current(&self, threads: usize) -> usize
        requires some { 0 < threads }
        ensures leader { 0 < result }
        ensures most { result ≤ threads }
        ensures told { IfSome (told_of self.now threads) (λ now. result ≡ now) }
    {
        let members = match self {
            MemberCount::Barrier(barrier) => barrier.current_num_threads(),
            MemberCount::Present(present) => present.threads(),
            MemberCount::Fixed(members) => *members,
        };
        members.max(1).min(threads)
    }
}

/// The threads that have joined the barrier of a lock and haven't left it. Each counts itself, after it has joined or left.
#[derive(Drop)]
pub struct Present {
    threads: AtomicUsize,
}

impl Present {
    /// No thread has joined.
    pub fn new() -> Present {
        Present {
            threads: AtomicUsize::new(0),
        }
    }

    /// A thread has joined the barrier.
    pub fn come(&self) {
        self.threads.fetch_add(1, Ordering::SeqCst);
    }

    /// A thread has left the barrier.
    pub fn go(&self) {
        self.threads.fetch_sub(1, Ordering::SeqCst);
    }

    /// How many are there now.
    pub fn threads(&self) -> usize {
        self.threads.load(Ordering::SeqCst)
    }
}

/// A lock's threads, its leader counted, and those of the pool that it was opened from.
#[derive(Clone, Copy)]
pub struct ThreadCounts {
    pool: usize,
    most: usize,
    threads: usize,
    ghost some: { 0 < pool },
    ghost led: { 0 < threads },
    ghost within: { threads ≤ most },
    ghost few: { most ≤ 32767 },
}

impl ThreadCounts {
    ghost use Rattle.spindle_rounds.specs.ThreadCounts.{lock_threads};

    /// The threads of a lock that is opened for at most `max_threads`.
    pub fn new(pool_threads: usize, max_threads: usize) -> ThreadCounts
        requires pool { 0 < pool_threads }
        requires some { 0 < max_threads }
        ensures most { result.most ≡ lock_threads pool_threads max_threads }
        ensures all { result.threads ≡ result.most }
        ensures pool { result.pool ≡ pool_threads }
    {
        let threads = pool_threads.min(max_threads).min(MOST_THREADS);
        ThreadCounts {
            pool: pool_threads,
            most: threads,
            threads,
        }
    }

    /// The lock's threads.
    pub fn most(&self) -> usize
        ensures number { result ≡ self.now.most }
        ensures some { 0 < result }
    {
        self.most
    }

    /// How many of them may come: 1 where the leader works alone.
    pub fn threads(&self) -> usize
        ensures number { result ≡ self.now.threads }
        ensures some { 0 < result }
        ensures within { result ≤ self.now.most }
        ensures most { result ≤ 32767 }
    {
        self.threads
    }

    /// The threads of a lock that a job opens in a lock with these.
    pub fn nested(&self, max_threads: usize) -> ThreadCounts
        requires some { 0 < max_threads }
        ensures most { result.most ≡ lock_threads self.now.pool max_threads }
        ensures all { result.threads ≡ result.most }
        ensures pool { result.pool ≡ self.now.pool }
    {
        ThreadCounts::new(self.pool, max_threads)
    }

    /// The same, where the leader works alone.
    pub fn alone(&self) -> ThreadCounts
        ensures most { result.most ≡ self.now.most }
        ensures alone { result.threads ≡ 1 }
        ensures pool { result.pool ≡ self.now.pool }
    {
        ThreadCounts {
            pool: self.pool,
            most: self.most,
            threads: 1,
        }
    }
}
