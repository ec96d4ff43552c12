//! Jobs and a gate that rows of all kinds of lock share.
ghost use Rattle.std.specs.Prelude.{◌≡◌};
ghost use Rattle.std.proofs.Common.{rules};

use spindle_locks::job::nest::End;
use spindle_locks::prelude::*;
use std::sync::atomic::{AtomicUsize, Ordering};

/// Squares a number of a round.
pub struct Square;

impl Job for Square {
    type In = usize;

    type Out = u128;

    type Inner = End;

    ghost use Rattle.std.specs.Prelude.{◌*◌};

    ghost meets = { λ x y. y ≡ x * x };

    fn run<H: Threads + Wait + Sync>(
        _rt: &H,
        _alloc: Global,
        input: &usize,
        _cx: &mut JobCx<End>,
    ) -> u128 {
        *input as u128 * *input as u128
    }

    ghost equal_is_same = { Prim.search rules };
}

/// Does nothing.
pub struct Idle;

impl Job for Idle {
    type In = ();

    type Out = ();

    type Inner = End;

    ghost meets = { λ _ _. Unit {0} };

    fn run<H: Threads + Wait + Sync>(_rt: &H, _alloc: Global, _input: &(), _cx: &mut JobCx<End>) {}

    ghost equal_is_same = { Prim.search rules };
}

/// How often a gate was called before jobs and after them: for job 0 to job 3, and last for any other.
#[derive(Drop)]
pub struct Calls {
    begun: [AtomicUsize; 5],
    done: [AtomicUsize; 5],
}

impl Calls {
    /// No call yet.
    pub fn new() -> Calls {
        Calls {
            begun: zeros(),
            done: zeros(),
        }
    }

    /// The calls for one job.
    pub fn of_job(&self, number: usize) -> (usize, usize) {
        let (begun, done) = (&self.begun[..], &self.done[..]);
        let at = number.min(4);
        (
            begun[at].load(Ordering::SeqCst),
            done[at].load(Ordering::SeqCst),
        )
    }

    /// The calls for all jobs since there were so many.
    pub fn since(&self, before: (usize, usize)) -> (usize, usize) {
        let (begun, done) = self.in_all();
        (begun.wrapping_sub(before.0), done.wrapping_sub(before.1))
    }

    /// The calls for all jobs; the sum wraps.
    pub fn in_all(&self) -> (usize, usize) {
        (sum(&self.begun[..]), sum(&self.done[..]))
    }
}

fn zeros() -> [AtomicUsize; 5] {
    [
        AtomicUsize::new(0),
        AtomicUsize::new(0),
        AtomicUsize::new(0),
        AtomicUsize::new(0),
        AtomicUsize::new(0),
    ]
}

fn sum(counts: &[AtomicUsize]) -> usize {
    let mut all = 0usize;
    for count in counts {
        all = all.wrapping_add(count.load(Ordering::SeqCst));
    }
    all
}

/// A gate that counts its calls.
#[derive(Drop)]
pub struct Counting<'a> {
    /// Where it counts them.
    pub calls: &'a Calls,
}

impl<'a> Gate for Counting<'a> {
    fn begun(&self, number: usize) {
        let begun = &self.calls.begun[..];
        begun[number.min(4)].fetch_add(1, Ordering::SeqCst);
    }

    fn done(&self, number: usize) {
        let done = &self.calls.done[..];
        done[number.min(4)].fetch_add(1, Ordering::SeqCst);
    }
}
