//! What a refused allocation leaves of a call that opens a lock of its own, and of rounds in slots: no job was run, and the same call with
//! memory answers in full.
//!
//! Each of these tests ends well whichever one of its allocations is refused, so of two equal calls one answers, and a call that
//! fails a test by its refusal takes no memory. With memory for all, they show the full answers.
ghost use Rattle.std.specs.Prelude.{◌<◌, ◌≤◌};

use crate::checks::{holds, is};
use crate::sevens::{are_seven_squares, seven_items};
use spindle::prelude::*;
use spindle::with_slots;
use spindle_locks_tests::jobs::{Calls, Counting, Square};

#[test]
fn refused_call_of_one_round_has_run_no_job(rt: HostRuntime) -> Result<(), Fault> {
    let alloc = rt.alloc();
    for jobs in [1, 4] {
        let calls = Calls::new();
        let pool = Pool::new(4, Limits::new(), Counting { calls: &calls });
        for _ in 0..2 {
            let before = calls.in_all();
            match run_one::<Square>(&rt, alloc, &pool, jobs, seven_items(alloc)?) {
                Ok(squares) => {
                    holds(&rt, are_seven_squares(squares.as_slice()));
                    is(&rt, calls.since(before), (jobs, jobs));
                }
                Err(_) => is(&rt, calls.since(before), (0, 0)),
            }
        }
        holds(&rt, calls.in_all() != (0, 0));
        let before = calls.in_all();
        let none = run_one::<Square>(&rt, alloc, &pool, 0, Vec::new(alloc))?;
        is(&rt, (none.capacity(), calls.since(before)), (0, (0, 0)));
    }
    Ok(())
}

// With as many jobs as items no list is shared, and the room of a round serves the next one: where one of three rounds is refused,
// it is the first, and no job has run. The list that the caller keeps has its room still.
#[test]
fn refused_rounds_in_slots_are_refused_before_the_first(rt: HostRuntime) -> Result<(), Fault> {
    let alloc = rt.alloc();
    for (jobs, rounds) in [(4, 1), (7, 3)] {
        let calls = Calls::new();
        let pool = Pool::new(4, Limits::new(), Counting { calls: &calls });
        let mut squares = room_for_eight(alloc)?;
        let mut lists = [
            seven_items(alloc)?,
            seven_items(alloc)?,
            seven_items(alloc)?,
        ];
        let played = with_slots::<Square, _, _, _, _, _>(&rt, alloc, &pool, 4, 7, |leader| {
            for items in lists.iter_mut().take(rounds) {
                leader.for_each_into(&rt, alloc, jobs.max(1), items, &mut squares)?;
            }
            Ok::<(), Fault>(())
        });
        is(&rt, squares.capacity(), 8);
        if let Ok(Ok(())) = played {
            holds(&rt, are_seven_squares(squares.as_slice()));
            let all = jobs.wrapping_mul(rounds);
            is(&rt, calls.in_all(), (all, all));
        } else {
            is(&rt, (squares.len(), calls.in_all()), (0, (0, 0)));
        }
    }
    Ok(())
}

// An empty list; where memory for it is refused once, it is asked for again.
fn room_for_eight(alloc: Global) -> Result<Vec<u128>, Fault> {
    match Vec::with_capacity(alloc, 8) {
        Ok(list) => Ok(list),
        Err(_) => Ok(Vec::with_capacity(alloc, 8)?),
    }
}
