//! A gate at which the jobs of a round meet.
ghost use Rattle.std.specs.Prelude.{◌<◌};

use spindle_locks::prelude::*;
use spindle_rounds::threads::limits::Limits;
use std::hint::spin_loop;
use std::sync::atomic::{AtomicUsize, Ordering};
use std::thread;

/// A thread waits for others that come for at most so many turns: more than other programs keep a processor away from them.
const MOST_TURNS: usize = 3000000000;

/// A thread waits for others that don't come for so many turns.
const TURNS_IN_VAIN: usize = 1000000;

/// How many jobs have begun at a gate where they meet, and how many of them waited for the others in vain.
#[derive(Drop)]
pub struct Meetings {
    begun: AtomicUsize,
    missed: AtomicUsize,
}

impl Meetings {
    /// No job has begun.
    pub fn new() -> Meetings {
        Meetings {
            begun: AtomicUsize::new(0),
            missed: AtomicUsize::new(0),
        }
    }

    /// The gate at which so many jobs of a round meet.
    pub fn of_jobs(&self, jobs: usize) -> Meeting {
        Meeting {
            jobs,
            turns: MOST_TURNS,
            counts: self,
        }
    }

    /// The gate at which so many jobs of a round wait for each other in vain.
    pub fn missed_by(&self, jobs: usize) -> Meeting {
        Meeting {
            jobs,
            turns: TURNS_IN_VAIN,
            counts: self,
        }
    }

    /// A pool of so many threads, at whose gate as many jobs of a round meet.
    pub fn pool(&self, threads: usize) -> Pool<Meeting>
        requires { 0 < threads }
    {
        Pool::new(threads, Limits::new(), self.of_jobs(threads))
    }

    /// The jobs that have begun, and those of them that missed the others.
    pub fn counts(&self) -> (usize, usize) {
        (
            self.begun.load(Ordering::SeqCst),
            self.missed.load(Ordering::SeqCst),
        )
    }
}

/// A gate at which the jobs of a round wait until all of them have begun.
#[derive(Drop)]
pub struct Meeting<'a> {
    jobs: usize,
    turns: usize,
    counts: &'a Meetings,
}

impl<'a> Gate for Meeting<'a> {
    fn begun(&self, _number: usize) {
        let jobs = self.jobs.max(1);
        let before = self.counts.begun.fetch_add(1, Ordering::SeqCst);
        let all = (before / jobs).wrapping_add(1).wrapping_mul(jobs);
        let counts = self.counts;
        await_for(self.turns, &counts.begun, all, &counts.missed);
    }

    fn done(&self, _number: usize) {}
}

/// Waits until a count has come so far; where it doesn't, one more has missed the others.
pub fn await_count(count: &AtomicUsize, wanted: usize, missed: &AtomicUsize) {
    await_for(MOST_TURNS, count, wanted, missed);
}

/// Waits until a word has this value, and gives it another; where it doesn't come to have it, one more has missed it.
pub fn await_turn(word: &AtomicUsize, free: usize, taken: usize, missed: &AtomicUsize) {
    for turn in 0..MOST_TURNS {
        if let Ok(_) = word.compare_exchange(free, taken, Ordering::SeqCst, Ordering::SeqCst) {
            return;
        }
        take_turn(turn);
    }
    missed.fetch_add(1, Ordering::SeqCst);
}

// The same for so many turns. Where one has missed the others, no other waits for them.
fn await_for(turns: usize, count: &AtomicUsize, wanted: usize, missed: &AtomicUsize) {
    for turn in 0..turns {
        if count.load(Ordering::SeqCst) >= wanted {
            return;
        }
        if missed.load(Ordering::SeqCst) > 0 {
            break;
        }
        take_turn(turn);
    }
    missed.fetch_add(1, Ordering::SeqCst);
}

/// The turn of this number of a thread that waits, or stays. Where processors are few the other threads have theirs meanwhile.
pub fn take_turn(turn: usize) {
    if turn % 1000 == 0 {
        thread::yield_now();
    }
    spin_loop();
}
