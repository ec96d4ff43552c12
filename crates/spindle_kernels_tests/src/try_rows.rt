//! Rows of a map that may fail at an item. No clause says that a refused call has run no job, or that memory which is there is used.
ghost use Rattle.spindle_kernels_tests.specs.Halves.{IsHalf};

use crate::checks::{are, holds, is};
use crate::leaders::{Led, LedBy, Runs, in_place};
use spindle::prelude::*;
use spindle_locks_tests::jobs::{Calls, Counting};
use std::process::Abort;

// Halves an even number, or fails with an odd one.
#[derive(Drop)]
struct Halve;

impl Kernel for Halve {
    type In = u32;

    type Out = Result<u32, u32>;

    ghost computes = { λ kernel. IsHalf };

    fn compute(&self, number: &u32) -> Result<u32, u32> {
        if *number % 2 == 0 {
            Ok(*number / 2)
        } else {
            Err(*number)
        }
    }
}

// Eleven even numbers, with odd ones at two places, if these are below 11; where memory for them is refused once, it is asked for again.
fn numbers_but(alloc: Global, first: usize, second: usize) -> Result<Vec<u32>, Fault> {
    let mut numbers = [20, 18, 16, 14, 12, 10, 8, 6, 4, 2, 0];
    for (place, number) in numbers.iter_mut().enumerate() {
        if place == first {
            *number = 31;
        } else if place == second {
            *number = 33;
        }
    }
    match Vec::from_array(alloc, numbers) {
        Ok(list) => Ok(list),
        Err(_) => Ok(Vec::from_array(alloc, numbers)?),
    }
}

const HALVES: [u32; 11] = [10, 9, 8, 7, 6, 5, 4, 3, 2, 1, 0];

// What came of a list.
type Tried = Result<Vec<u32>, Failed<u32, u32>>;

// Fails the test in which this isn't the failure at that place.
fn failed_at(rt: &impl Abort, tried: Tried, place: usize, failure: u32) {
    match tried {
        Ok(_) => holds(rt, false),
        Err(failed) => {
            is(rt, (failed.place, failed.failure), (place, failure));
            are(rt, &failed.before, &HALVES[..place.min(11)]);
        }
    }
}

impl Led for TriesOf<Halve, u32, u32> {
    type Task = ();

    type Answer = ();

    fn lead<H: Runs>(rt: &H, alloc: Global, leader: &mut LedBy<Self>, _: &()) -> Result<(), Fault> {
        let kernel = Shared::new(alloc, Halve)?;
        for (first, second, place, failure) in [(5, 6, 5, 31), (11, 3, 3, 33)] {
            let list = SharedList::from_vec(alloc, numbers_but(alloc, first, second)?)?;
            let tried = leader.try_map(rt, alloc, &kernel, &list.run(0, list.len())?)?;
            failed_at(rt, tried, place, failure);
        }
        Ok(())
    }
}

#[test]
fn a_leader_tries_a_list_again(rt: HostRuntime) -> Result<(), Fault> {
    in_place::<TriesOf<Halve, u32, u32>, _>(&rt, rt.alloc(), 5, &())
}

#[test]
fn refused_trial_has_run_no_job(rt: HostRuntime) -> Result<(), Fault> {
    let alloc = rt.alloc();
    let calls = Calls::new();
    let pool = Pool::new(4, Limits::new(), Counting { calls: &calls });
    let halves = match try_map(&rt, alloc, &pool, &Halve, numbers_but(alloc, 11, 11)?) {
        Ok(halves) => halves,
        Err(fault) => {
            is(&rt, fault, Fault::Memory);
            is(&rt, calls.in_all(), (0, 0));
            try_map(&rt, alloc, &pool, &Halve, numbers_but(alloc, 11, 11)?)?
        }
    };
    match halves {
        Ok(halves) => are(&rt, &halves, &HALVES),
        Err(_) => holds(&rt, false),
    }
    is(&rt, calls.in_all(), (11, 11));
    // An empty list that took memory would be refused it once.
    match try_map(&rt, alloc, &pool, &Halve, Vec::new(alloc))? {
        Ok(halves) => is(&rt, halves.capacity(), 0),
        Err(_) => holds(&rt, false),
    }
    Ok(())
}
