//! Rows of rounds in place that may stop. No clause says which pieces a leader alone runs, that rounds of a lock go on ending after one
//! that stopped, that a refused allocation has run no job, or that memory which is there is used.
ghost use Rattle.std.specs.Prelude.{◌≡◌, min};

use crate::checks::{are, holds, is};
use crate::leaders::{Led, LedBy, Runs, in_place};
use spindle::prelude::*;
use spindle_locks_tests::jobs::{Calls, Counting};

// The less of a number and seven; seven is a failure.
struct BelowSeven;

impl Job for BelowSeven {
    ghost use Rattle.std.proofs.Common.{rules};

    type In = u32;

    type Out = u32;

    type Inner = End;

    ghost meets = { λ x y. y ≡ min x 7 };

    ghost fails = { λ y. y ≡ 7 };

    fn run<H: Threads + Wait + Sync>(_: &H, _: Global, number: &u32, _: &mut JobCx<End>) -> u32 {
        (*number).min(7)
    }

    fn failed(least: &u32) -> bool {
        *least == 7
    }

    ghost equal_is_same = { Prim.search rules };
}

fn eight(alloc: Global) -> Result<Vec<u32>, Fault> {
    Ok(vec![in alloc; 1, 2, 9, 3, 4, 5, 6, 8]?)
}

// The first so many of eight numbers; where memory for them is refused once, it is asked for again.
fn numbers(alloc: Global, count: usize) -> Result<Vec<u32>, Fault> {
    let mut numbers = match eight(alloc) {
        Ok(numbers) => numbers,
        Err(_) => eight(alloc)?,
    };
    numbers.truncate(count);
    Ok(numbers)
}

// Whether an attempt at this place had these items, and these outputs; it has run where it has some.
fn is_pair(attempts: &[Attempt<u32, u32>], at: usize, items: &[u32], outputs: &[u32]) -> bool {
    match attempts.get(at) {
        Some(attempt) => {
            attempt.ran() != outputs.is_empty()
                && attempt.items() == items
                && attempt.outputs() == outputs
        }
        None => false,
    }
}

impl Led for AttemptsOf<BelowSeven> {
    type Task = ();

    type Answer = ();

    fn lead<H: Runs>(rt: &H, alloc: Global, leader: &mut LedBy<Self>, _: &()) -> Result<(), Fault> {
        for _ in 0..100 {
            let stopped = leader.try_each(rt, alloc, 8, numbers(alloc, 8)?)?;
            is(rt, stopped.len(), 8);
            let mut outputs = Vec::new(alloc);
            for attempt in leader.try_each(rt, alloc, 8, numbers(alloc, 2)?)? {
                let (_, mut own) = attempt.into_lists();
                outputs.append(&mut own)?;
            }
            are(rt, &outputs, &[1, 2]);
        }
        Ok(())
    }
}

#[test]
fn a_lock_goes_on_after_a_round_that_stopped(rt: HostRuntime) -> Result<(), Fault> {
    in_place::<AttemptsOf<BelowSeven>, _>(&rt, rt.alloc(), 8, &())
}

// A leader alone runs no piece behind a failure.
#[test]
fn refused_round_that_may_stop_has_run_no_job(rt: HostRuntime) -> Result<(), Fault> {
    let alloc = rt.alloc();
    let calls = Calls::new();
    let pool = Pool::new(1, Limits::new(), Counting { calls: &calls });
    for _ in 0..2 {
        let before = calls.in_all();
        match try_one::<BelowSeven, _, _>(&rt, alloc, &pool, 4, numbers(alloc, 8)?) {
            Ok(attempts) => {
                holds(&rt, attempts.len() == 4);
                holds(&rt, is_pair(&attempts, 0, &[1, 2], &[1, 2]));
                holds(&rt, is_pair(&attempts, 1, &[9, 3], &[7, 3]));
                holds(&rt, is_pair(&attempts, 2, &[4, 5], &[]));
                holds(&rt, is_pair(&attempts, 3, &[6, 8], &[]));
                is(&rt, calls.since(before), (4, 4));
            }
            Err(fault) => {
                holds(&rt, matches!(fault, Fault::Memory));
                is(&rt, calls.since(before), (0, 0));
            }
        }
    }
    let before = calls.in_all();
    holds(&rt, before != (0, 0));
    let none = try_one::<BelowSeven, _, _>(&rt, alloc, &pool, 4, Vec::new(alloc))?;
    is(&rt, (none.capacity(), calls.since(before)), (0, (0, 0)));
    Ok(())
}
