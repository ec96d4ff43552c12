//! A gate that notes which items each job has, with a job that notes its runs.
ghost use Rattle.std.specs.Prelude.{◌≡◌, ℕ, ◌==◌};
ghost use Rattle.std.specs.Cmp.Rules.{comparing};
ghost use Rattle.std.proofs.Common.{rules};

use spindle::prelude::*;
use spindle_locks_tests::gates::await_turn;
use std::marker::Model;
use std::sync::Arc;
use std::sync::atomic::{AtomicUsize, Ordering};

// No job has begun that isn't done; and no job has had the item.
const NONE: usize = usize::MAX;

/// What was noted of items: the job that has each, and how often it was run; and how often a note was wrong.
#[derive(Drop)]
pub struct Marks {
    running: AtomicUsize,
    items: Vec<(AtomicUsize, AtomicUsize)>,
    faults: AtomicUsize,
}

impl Marks {
    /// Nothing has run of so many items.
    pub fn new(alloc: Global, count: usize) -> Result<Marks, Fault> {
        let mut items = Vec::with_capacity(alloc, count)?;
        for _ in 0..count {
            items.push((AtomicUsize::new(NONE), AtomicUsize::new(0)))?;
        }
        Ok(Marks {
            running: AtomicUsize::new(NONE),
            items,
            faults: AtomicUsize::new(0),
        })
    }

    /// Whether these jobs have the items, each of which was run so often, and no note was wrong: no item was run where no job had begun,
    /// nor by another job than before, and the gate was called in order.
    pub fn are(&self, wanted: &[usize], runs: usize) -> bool {
        for (item, job) in self.items.iter().zip(wanted) {
            if item.0.load(Ordering::SeqCst) != *job || item.1.load(Ordering::SeqCst) != runs {
                return false;
            }
        }
        self.items.len() == wanted.len() && self.faults.load(Ordering::SeqCst) == 0
    }

    // Notes that an item is run.
    fn note(&self, item: usize) {
        let job = self.running.load(Ordering::SeqCst);
        let before = match self.items.get(item) {
            Some(item) => {
                item.1.fetch_add(1, Ordering::SeqCst);
                item.0.swap(job, Ordering::SeqCst)
            }
            None => job,
        };
        if job == NONE || before != NONE && before != job {
            self.faults.fetch_add(1, Ordering::SeqCst);
        }
    }
}

/// A gate that lets one job through at a time, so that an item which is run has the job that runs.
#[derive(Drop)]
pub struct Taking<'a> {
    /// Where it notes the jobs.
    pub marks: &'a Marks,
}

impl<'a> Gate for Taking<'a> {
    fn begun(&self, number: usize) {
        await_turn(&self.marks.running, NONE, number, &self.marks.faults);
    }

    fn done(&self, number: usize) {
        if self.marks.running.swap(NONE, Ordering::SeqCst) != number {
            self.marks.faults.fetch_add(1, Ordering::SeqCst);
        }
    }
}

/// An item's number, and where it is noted that it is run. Contracts see the number alone.
#[derive(Clone, Drop)]
pub struct Noted {
    marks: Arc<Marks>,
    number: usize,
}

impl Model for Noted {
    ghost Value = { ℕ };

    ghost view = { λ noted. noted.number };
}

impl Noted {
    /// Notes that it is run.
    pub fn note(&self) {
        let marks: &Marks = &*self.marks;
        marks.note(self.number);
    }
}

/// Items of so many numbers, noted there.
pub fn noted_items(alloc: Global, marks: &Arc<Marks>, count: usize) -> Result<Vec<Noted>, Fault> {
    let mut items = Vec::with_capacity(alloc, count)?;
    for number in 0..count {
        let marks = marks.clone()?;
        items.push(Noted { marks, number })?;
    }
    Ok(items)
}

impl PartialEq for Noted {
    ghost eq = { ◌==◌ };

    ghost laws = { Prim.search (comparing, rules) };

    fn eq(&self, other: &Noted) -> bool {
        self.number == other.number
    }
}

impl Eq for Noted {
    ghost laws = { Prim.search (comparing, rules) };
}

/// Notes that it is run.
pub struct Noting;

impl Job for Noting {
    type In = Noted;

    type Out = ();

    type Inner = End;

    ghost meets = { λ _ _. Unit {0} };

    fn run<H: Threads + Wait + Sync>(_rt: &H, _alloc: Global, input: &Noted, _cx: &mut JobCx<End>) {
        input.note();
    }

    ghost equal_is_same = { Prim.search rules };
}
