//! What a refused allocation leaves of rounds over numbers alone, with trays and with slots, and that rounds over nothing take no memory.
//!
//! Each of these tests ends well whichever one of its allocations is refused. With memory for all, they show the full answers. No clause
//! says that a refused call runs no job, or that memory which is there is used.
ghost use Rattle.std.specs.Prelude.{◌≡◌, ◌<◌, ◌≤◌};
ghost use Rattle.spindle.specs.SlotLeaders.{lock_slots};

use crate::checks::{are, holds, is};
use crate::refused_rounds::answered;
use spindle::lock::PlaysPieces;
use spindle::prelude::*;
use spindle::{with_lock, with_slots};
use spindle_locks_tests::jobs::{Calls, Counting, Square};
use std::process::Abort;

// Whether a round over so many numbers alone answered, before which the gate was called so often.
fn squared(
    rt: &impl Abort,
    calls: &Calls,
    before: (usize, usize),
    count: usize,
    squares: Result<Vec<u128>, Fault>,
) -> bool {
    let ran = calls.since(before);
    answered(rt, &squares, ran != (0, 0));
    let Ok(squares) = squares else {
        return false;
    };
    are(
        rt,
        &squares,
        &[0, 1, 4, 9, 16, 25, 36].as_slice()[..count.min(7)],
    );
    is(rt, ran, (count, count));
    true
}

// Fails the test in which a round over nothing took memory.
fn is_nothing<T>(rt: &impl Abort, outputs: &Vec<T>) {
    is(rt, (outputs.len(), outputs.capacity()), (0, 0));
}

// Rounds over nothing, which take no memory, and one over more numbers than memory holds.
fn nothing_runs<H: Threads + Wait + Abort + Sync>(
    rt: &H,
    alloc: Global,
    leader: &mut Leader<Square, Counting>,
) -> Result<(), Fault> {
    for jobs in [0, 1, 4, usize::MAX] {
        is_nothing(rt, &leader.for_each(rt, alloc, jobs, Vec::new(alloc))?);
        let report = leader.try_for_each(rt, alloc, jobs, Vec::new(alloc))?;
        is_nothing(rt, &report.ran);
        is_nothing(rt, &report.skipped);
    }
    is_nothing(rt, &leader.for_each_raw(rt, alloc, 0)?);
    let refused = leader.for_each_raw(rt, alloc, usize::MAX);
    holds(rt, matches!(refused, Err(Fault::Memory)));
    Ok(())
}

#[test]
fn refused_numbers_have_run_no_job_and_nothing_is_refused_no_memory(rt: HostRuntime) {
    let alloc = rt.alloc();
    let calls = Calls::new();
    let pool = Pool::new(2, Limits::new(), Counting { calls: &calls });
    let opened = with_lock::<Square, _, _, _, _, _>(&rt, alloc, &pool, 2, |leader| {
        holds(&rt, nothing_runs(&rt, alloc, leader).is_ok());
        is(&rt, calls.in_all(), (0, 0));
        for count in [1, 4, 7] {
            for attempt in 0..2 {
                let before = calls.in_all();
                let squares = leader.for_each_raw(&rt, alloc, count);
                if squared(&rt, &calls, before, count, squares) {
                    break;
                }
                is(&rt, attempt, 0);
            }
        }
    });
    holds(&rt, matches!(opened, Ok(()) | Err(Fault::Memory)));
}

// A round over so many numbers in a lock of four slots, once more where it is refused.
fn slots_square<H: Threads + Wait + Abort + Sync>(
    rt: &H,
    alloc: Global,
    calls: &Calls,
    leader: &mut SlotLeader<Square, Counting>,
    count: usize,
)
    requires slots { lock_slots leader.old ≡ 4 }
    requires count { count ≤ 4 }
    ensures { lock_slots leader.new ≡ 4 }
{
    let before = calls.in_all();
    let squares = leader.for_each_raw(rt, alloc, count);
    if !squared(rt, calls, before, count, squares) {
        let again = leader.for_each_raw(rt, alloc, count);
        holds(rt, squared(rt, calls, before, count, again));
    }
}

// Rounds over nothing with slots, which take no memory.
fn nothing_runs_in_slots<J: PlaysPieces<P, In = usize>, P, H: Threads + Wait + Abort + Sync>(
    rt: &H,
    alloc: Global,
    leader: &mut SlotLeader<J, Counting, P>,
) -> Result<(), Fault> {
    is_nothing(rt, &leader.for_each_raw(rt, alloc, 0)?);
    for jobs in [0, 1, 4, usize::MAX] {
        is_nothing(rt, &leader.for_each(rt, alloc, jobs, Vec::new(alloc))?);
    }
    Ok(())
}

#[test]
fn refused_numbers_in_slots_have_run_no_job_and_nothing_is_refused_no_memory(rt: HostRuntime) {
    let alloc = rt.alloc();
    let calls = Calls::new();
    let pool = Pool::new(2, Limits::new(), Counting { calls: &calls });
    let opened = with_slots::<Square, _, _, _, _, _>(
        &rt,
        alloc,
        &pool,
        2,
        4,
        |leader|
            requires { lock_slots leader.old ≡ 4 }
        {
            slots_square(&rt, alloc, &calls, leader, 4);
            slots_square(&rt, alloc, &calls, leader, 1);
            let before = calls.in_all();
            holds(&rt, nothing_runs_in_slots(&rt, alloc, leader).is_ok());
            is(&rt, calls.since(before), (0, 0));
        },
    );
    holds(&rt, matches!(opened, Ok(()) | Err(Fault::Memory)));
}
