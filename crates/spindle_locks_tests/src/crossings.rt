//! A gate that two jobs of a round cross.

use crate::gates::await_count;
use spindle_locks::prelude::*;
use std::sync::atomic::{AtomicUsize, Ordering};

/// How often a job that crosses another was done and the other has begun, and how often one of them waited in vain.
#[derive(Drop)]
pub struct Crossings {
    done: AtomicUsize,
    begun: AtomicUsize,
    missed: AtomicUsize,
}

impl Crossings {
    /// No job has run.
    pub fn new() -> Crossings {
        Crossings {
            done: AtomicUsize::new(0),
            begun: AtomicUsize::new(0),
            missed: AtomicUsize::new(0),
        }
    }

    /// The gate at which job 0 waits for the job of this number, and then that one for it.
    pub fn with_job(&self, other: usize) -> Crossing {
        Crossing {
            other,
            counts: self,
        }
    }

    /// The rounds in which the jobs crossed, and the jobs that missed each other.
    pub fn counts(&self) -> (usize, usize) {
        (
            self.done.load(Ordering::SeqCst),
            self.missed.load(Ordering::SeqCst),
        )
    }
}

/// A gate that two jobs of each round cross: job 0 runs once the other has begun, and the other is done once job 0 is.
/// Both run in each round.
#[derive(Drop)]
pub struct Crossing<'a> {
    other: usize,
    counts: &'a Crossings,
}

impl<'a> Gate for Crossing<'a> {
    fn begun(&self, number: usize) {
        let counts = self.counts;
        if number == self.other {
            counts.begun.fetch_add(1, Ordering::SeqCst);
        }
        if number == 0 {
            let rounds = counts.done.load(Ordering::SeqCst);
            await_count(&counts.begun, rounds.wrapping_add(1), &counts.missed);
        }
    }

    fn done(&self, number: usize) {
        let counts = self.counts;
        if number == 0 {
            counts.done.fetch_add(1, Ordering::SeqCst);
        }
        if number == self.other {
            let rounds = counts.begun.load(Ordering::SeqCst);
            await_count(&counts.done, rounds, &counts.missed);
        }
    }
}
