//! Rows of where jobs run, and of threads that are there at once, in locks with trays and in locks with slots.
//!
//! No clause says which number a job's thread has, when a thread is there, that helpers run jobs beside their leader, or that as many
//! start as may and no more; nor how many jobs a call has that opens a lock for one round, and on how many threads. Here jobs that wait
//! for each other meet.
ghost use Rattle.std.specs.Prelude.{◌<◌, ◌≤◌};

use crate::checks::{holds, is};
use crate::rounds::rounds_in;
use crate::staying::{Staying, all_see, each_ran, runs_of};
use spindle::prelude::*;
use spindle_locks_tests::gates::Meetings;
use spindle_locks_tests::jobs::{Calls, Counting};
use spindle_locks_tests::rounds::Seen;
use std::process::Abort;

// Where the jobs of so many rounds run, over so many items, and what their leader sees. A lock without slots has trays.
fn places_of<G: Gate + Sync, H: Threads + Wait + Sync>(
    rt: &H,
    alloc: Global,
    pool: &Pool<G>,
    most: usize,
    slots: usize,
    jobs: usize,
    count: usize,
    rounds: usize,
) -> Result<(Vec<Seen>, Vec<Seen>), Fault>
    requires most { 0 < most }
    requires slots { slots ≤ 4294967295 }
    requires jobs { 0 < jobs }
{
    let items = Vec::from_elem(alloc, 0, count)?;
    rounds_in::<Staying, _, _>(rt, alloc, pool, most, slots, jobs, rounds, &items)
}

// A lock's slots (0: it has trays), its pool's threads and how many helpers that may start, threads and jobs that are asked for, and
// items; the number that the jobs' thread has, and the lock's threads.
type Row = (
    usize,
    usize,
    usize,
    usize,
    usize,
    usize,
    Option<usize>,
    usize,
);

const ROWS: &[Row] = &[
    (0, 4, 0, 16, 1, 2, None, 4),
    (0, 4, 3, 16, 1, 2, None, 4),
    (0, 16, 16, 1, 2, 2, Some(0), 1),
    (0, 16, 0, 16, 8, 1, None, 16),
    (0, 16, 0, 4, 2, 2, Some(0), 4),
    (0, 40000, 0, 40000, 1, 1, None, 32767),
    (0, 1, 1, 1, 1, 1, None, 1),
    (1, 4, 0, 4, 1, 2, None, 4),
    (2, 4, 0, 4, 2, 2, Some(0), 4),
];

// A hundred rounds of one lock. A leader has no number between rounds, and none in a round of one job.
#[test]
fn a_leader_has_a_number_in_a_published_round_alone(rt: HostRuntime) -> Result<(), Fault> {
    for row in ROWS {
        let (slots, threads, starts, most, jobs, count, number, lock_threads) = *row;
        let pool = Pool::with_starts(threads.max(1), Limits::new(), NoGate, starts);
        is(
            &rt,
            (pool.current_num_threads(), pool.current_thread_index()),
            (threads, None),
        );
        let (slots, most, jobs) = (slots.min(64), most.max(1), jobs.max(1));
        let (places, after) = places_of(&rt, rt.alloc(), &pool, most, slots, jobs, count, 100)?;
        let all = count.wrapping_mul(100);
        is(&rt, (places.len(), runs_of(&places, number)), (all, all));
        is(&rt, (after.len(), runs_of(&after, None)), (100, 100));
        let there = lock_threads.min(starts.wrapping_add(1));
        holds(&rt, all_see(&places, 1, there, lock_threads));
        holds(&rt, all_see(&after, 1, there, lock_threads));
    }
    Ok(())
}

// Rounds of as many jobs as threads are there, which meet: each thread runs one of a round, and sees all others.
fn play<H: Threads + Wait + Abort + Sync>(
    rt: &H,
    alloc: Global,
    most_slots: usize,
    row: (usize, usize, usize),
) -> Result<(), Fault> {
    let (threads, starts, rounds) = row;
    let meetings = Meetings::new();
    let threads = threads.max(1);
    let jobs = threads.min(starts.wrapping_add(1)).max(1).min(64);
    let pool = Pool::with_starts(threads, Limits::new(), meetings.of_jobs(jobs), starts);
    let slots = jobs.min(most_slots);
    let (places, after) = places_of(rt, alloc, &pool, threads, slots, jobs, jobs, rounds)?;
    is(rt, meetings.counts(), (jobs.wrapping_mul(rounds), 0));
    is(rt, (after.len(), runs_of(&after, None)), (rounds, rounds));
    holds(rt, each_ran(&places, jobs, rounds));
    holds(rt, all_see(&places, jobs, jobs, threads));
    holds(rt, all_see(&after, jobs, jobs, threads));
    Ok(())
}

#[test]
fn jobs_of_each_round_meet(rt: HostRuntime) -> Result<(), Fault> {
    for row in [
        (2, 1, 50),
        (4, 3, 3),
        (4, 4, 101),
        (8, 7, 3),
        (4, 1, 20),
        (4, 2, 20),
    ] {
        play(&rt, rt.alloc(), 0, row)?;
    }
    Ok(())
}

#[test]
fn jobs_in_slots_meet(rt: HostRuntime) -> Result<(), Fault> {
    for row in [(2, 1, 50), (4, 3, 50), (4, 2, 3), (8, 7, 3)] {
        play(&rt, rt.alloc(), 64, row)?;
    }
    Ok(())
}

// One job more than there are threads for.
#[test]
fn jobs_without_threads_of_their_own_cannot_meet(rt: HostRuntime) -> Result<(), Fault> {
    for (threads, starts) in [(2usize, 0usize), (4, 1), (4, 2), (8, 5)] {
        let meetings = Meetings::new();
        let jobs = starts.wrapping_add(2).max(1).min(64);
        let pool = Pool::with_starts(threads, Limits::new(), meetings.missed_by(jobs), starts);
        let (places, _) = places_of(&rt, rt.alloc(), &pool, threads, 0, jobs, jobs, 1)?;
        is(&rt, (places.len(), meetings.counts().0), (jobs, jobs));
        holds(&rt, 0 < meetings.counts().1);
    }
    Ok(())
}

// The jobs that are asked for over ten numbers in a pool of three threads, those that run, and the threads of their lock.
const ONE_CALL: &[(usize, usize, usize)] = &[
    (0, 3, 3),
    (1, 1, 1),
    (2, 2, 2),
    (4, 4, 3),
    (11, 10, 3),
    (usize::MAX, 10, 3),
];

#[test]
fn one_call_has_no_more_threads_than_jobs(rt: HostRuntime) -> Result<(), Fault> {
    let alloc = rt.alloc();
    for call in ONE_CALL {
        let (asked, jobs, threads) = *call;
        let calls = Calls::new();
        let pool = Pool::new(3, Limits::new(), Counting { calls: &calls });
        let places = run_one::<Staying>(&rt, alloc, &pool, asked, vec![in alloc; 0; 10]?)?;
        is(&rt, (places.len(), calls.in_all()), (10, (jobs, jobs)));
        holds(&rt, all_see(&places, 1, threads, threads));
    }
    Ok(())
}
