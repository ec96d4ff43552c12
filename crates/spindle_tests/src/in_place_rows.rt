//! Rows of rounds in place: what becomes of each item stands in its place, and a refusal leaves the items as they were.
//!
//! No clause says that a round ends, that each job is announced once before it begins and once after it, that helpers run some, how many
//! jobs and threads a call has that opens a lock of its own, or that memory which is there is used.
ghost use Rattle.std.specs.Prelude.{◌<◌, ◌≤◌};

use crate::checks::{holds, is};
use crate::rounds::rounds_in_place;
use crate::sevens::seven_items;
use spindle::prelude::*;
use spindle_locks_tests::gates::Meetings;
use spindle_locks_tests::jobs::{Calls, Counting};
use std::process::Abort;

/// Adds 3 to a number, modulo 2^64.
pub struct Step;

impl Update for Step {
    ghost use Rattle.std.specs.Prelude.{◌≡◌, ◌+◌, ◌%◌, ◌^◌};

    type Item = usize;

    type Inner = End;

    ghost updated = { λ old new. new ≡ (old + 3) % 2 ^ 64 };

    fn run<H: Threads + Wait + Sync>(
        _rt: &H,
        _alloc: Global,
        item: usize,
        _cx: &mut JobCx<End>,
    ) -> usize {
        item.wrapping_add(3)
    }
}

// Whether these are so many numbers from 0 up, each of which has made so many steps.
fn have_stepped(list: &[usize], count: usize, steps: usize) -> bool {
    for number in 0..list.len() {
        if list[number] != number.wrapping_add(steps.wrapping_mul(3)) {
            return false;
        }
    }
    list.len() == count
}

// Has the numbers step so many times, in one lock of so many slots.
fn step_often<G: Gate + Sync, H: Threads + Wait + Sync>(
    rt: &H,
    alloc: Global,
    pool: &Pool<G>,
    slots: usize,
    jobs: usize,
    rounds: usize,
    list: &mut Vec<usize>,
) -> Result<(), Fault>
    requires slots { (1 ≤ slots) × (slots ≤ 4294967295) }
    requires jobs { 0 < jobs }
{
    rounds_in_place::<InPlace<Step>, G, H>(rt, alloc, pool, slots, jobs, rounds, list)
}

// A pool's threads; a lock's slots (0: one round has a lock of its own, in one call); the jobs that are asked for, the numbers, and the
// jobs that a round has.
type Row = (usize, usize, usize, usize, usize);

// Plays one round, or two hundred of one lock.
fn play<H: Threads + Wait + Abort + Sync>(rt: &H, alloc: Global, row: Row) -> Result<(), Fault> {
    let (threads, slots, asked, count, jobs) = row;
    let calls = Calls::new();
    let pool = Pool::new(threads.max(1), Limits::new(), Counting { calls: &calls });
    let (list, rounds) = if slots == 0 {
        let list = (0..count).collect(alloc)?;
        (
            update_one::<InPlace<Step>, _, H>(rt, alloc, &pool, asked, list)?,
            1,
        )
    } else {
        let mut list = (0..count).collect(alloc)?;
        step_often(
            rt,
            alloc,
            &pool,
            slots.min(16),
            asked.max(1),
            200,
            &mut list,
        )?;
        (list, 200)
    };
    holds(rt, have_stepped(list.as_slice(), count, rounds));
    let all = jobs.wrapping_mul(rounds);
    is(rt, calls.in_all(), (all, all));
    is(rt, calls.of_job(0).0, if jobs > 0 { rounds } else { 0 });
    Ok(())
}

// Slots, jobs that are asked for, numbers, and the jobs that each round has.
const STEPS: &[(usize, usize, usize, usize)] = &[
    (16, 16, 1000, 16),
    (8, 16, 13, 8),
    (8, 16, 8, 8),
    (4, 4, 9, 4),
    (4, 1, 7, 1),
    (4, 9, 0, 0),
    (1, 9, 5, 1),
    (8, 8, 8, 8),
    (8, 8, 5, 5),
    (8, 3, 8, 3),
    (3, 8, 8, 3),
    (8, 1, 8, 1),
];

#[test]
fn two_hundred_rounds_in_place_are_as_a_plain_loop(rt: HostRuntime) -> Result<(), Fault> {
    for step in STEPS {
        let (slots, asked, count, jobs) = *step;
        for threads in [1, 4] {
            play(&rt, rt.alloc(), (threads, slots, asked, count, jobs))?;
        }
    }
    Ok(())
}

// As many jobs as are asked for, or as the pool has threads where none is, and no more than there are items.
#[test]
fn one_round_in_place_has_the_jobs_asked_for(rt: HostRuntime) -> Result<(), Fault> {
    for (threads, asked, count, jobs) in [
        (4, 3, 7, 3),
        (4, 0, 7, 4),
        (1, 0, 7, 1),
        (4, 9, 7, 7),
        (4, 3, 0, 0),
    ] {
        play(&rt, rt.alloc(), (threads, 0, asked, count, jobs))?;
    }
    Ok(())
}

// Of two threads each waits at the gate for the other's job. Of seven numbers in four jobs three slots make three jobs.
#[test]
fn jobs_in_place_meet(rt: HostRuntime) -> Result<(), Fault> {
    let alloc = rt.alloc();
    let meetings = Meetings::new();
    let mut list = (0..2).collect(alloc)?;
    step_often(&rt, alloc, &meetings.pool(2), 2, 2, 50, &mut list)?;
    is(&rt, meetings.counts(), (100, 0));
    let meetings = Meetings::new();
    let mut list = seven_items(alloc)?;
    step_often(&rt, alloc, &meetings.pool(3), 3, 4, 1, &mut list)?;
    is(&rt, meetings.counts(), (3, 0));
    Ok(())
}

// The room of a round serves the next one of its size: where one of three rounds is refused, it is the first, and no item has
// made a step.
#[test]
fn refused_rounds_in_place_leave_the_items(rt: HostRuntime) -> Result<(), Fault> {
    let alloc = rt.alloc();
    let pool = Pool::new(4, Limits::new(), NoGate);
    for jobs in [1, 4, 7] {
        let mut list = seven_items(alloc)?;
        let mut steps = 0usize;
        for _ in 0..2 {
            if step_often(&rt, alloc, &pool, 7, jobs, 3, &mut list).is_ok() {
                steps = steps.wrapping_add(3);
            }
            holds(&rt, have_stepped(list.as_slice(), 7, steps));
        }
        holds(&rt, 0 < steps);
    }
    let row = (4, 0, 3, 7, 3);
    if play(&rt, alloc, row).is_err() {
        play(&rt, alloc, row)?;
    }
    Ok(())
}
