//! Rows of rounds that may stop.
//!
//! No clause says which pieces run before a round stops, that it stops at all, that jobs of such a round meet, or that a lock goes on
//! after it. What is certain of several threads is what a thread does after a piece of its own has failed: it begins nothing more.

use crate::checks::{are, holds, is};
use crate::crossings::Crossings;
use crate::gates::Meetings;
use crate::jobs::{Calls, Counting};
use crate::trying::{Trying, items, reports_of, these_ran};
use spindle_locks::job::gate::NoGate;
use spindle_locks::prelude::*;
use spindle_rounds::threads::limits::Limits;
use std::process::Abort;

// Threads, numbers, the number that fails, and jobs; the pieces that ran and those that were skipped.
type Row = (usize, u32, u32, usize, &'static [usize], &'static [usize]);

const ROWS: &[Row] = &[
    (1, 6, 2, 6, &[0, 1, 2], &[3, 4, 5]),
    (4, 6, 9, 6, &[0, 1, 2, 3, 4, 5], &[]),
    (1, 5, 1, 2, &[0], &[1]),
    (4, 0, 0, 1, &[], &[]),
    (1, 6, 9, 6, &[0, 1, 2, 3, 4, 5], &[]),
    (1, 5, 4, 2, &[0, 1], &[]),
    (4, 5, 1, 1, &[0], &[]),
    (1, 1, 0, 8, &[0], &[]),
    (4, 3, 9, usize::MAX, &[0, 1, 2], &[]),
];

// Plays a row. Each piece that ran passed the gate once, and where one fails it is the last that ran.
fn play<H: Threads + Wait + Abort + Sync>(rt: &H, alloc: Global, row: Row) -> Result<(), Fault> {
    let (threads, count, bad, jobs, ran, skipped) = row;
    let calls = Calls::new();
    let pool = Pool::new(threads.max(1), Limits::new(), Counting { calls: &calls });
    let items = items(alloc, count, u32::MAX, bad)?;
    let fails = if bad < count {
        ran.last().copied()
    } else {
        None
    };
    for report in reports_of(rt, alloc, &pool, jobs.max(1), 1, &items)? {
        these_ran(rt, &report, ran);
        are(rt, &report.skipped, skipped);
        is(
            rt,
            (report.first_failed::<Trying>(), report.all_ran()),
            (fails, skipped.is_empty()),
        );
        are(rt, &report.failed::<Trying>(alloc)?, fails.as_slice());
        let outputs = report.into_outputs(alloc)?;
        are(rt, &outputs, &items[..outputs.len().min(items.len())]);
    }
    let all = ran.len().wrapping_add(jobs.min(items.len()));
    is(rt, calls.in_all(), (all, all));
    Ok(())
}

#[test]
fn a_round_stops_at_the_number_that_fails(rt: HostRuntime) -> Result<(), Fault> {
    for row in ROWS {
        play(&rt, rt.alloc(), *row)?;
    }
    Ok(())
}

// None of the eight is done before all have begun, each with the first number of its own range; and each fails, so it begins no other.
// Of two that don't fail both run.
#[test]
fn threads_that_meet_run_a_piece_each(rt: HostRuntime) -> Result<(), Fault> {
    let alloc = rt.alloc();
    let firsts: [usize; 8] = [0, 8, 16, 24, 32, 40, 48, 56];
    let both: [usize; 2] = [0, 1];
    for (threads, jobs, every, bad, rounds, ran) in [
        (8usize, 64u32, 1u32, 0u32, 20usize, firsts.as_slice()),
        (2, 2, 9, 9, 1, both.as_slice()),
    ] {
        let meetings = Meetings::new();
        let items = items(alloc, jobs, every, bad)?;
        let jobs = jobs as usize;
        for report in reports_of(&rt, alloc, &meetings.pool(threads), jobs, rounds, &items)? {
            these_ran(&rt, &report, ran);
        }
        is(
            &rt,
            meetings.counts(),
            (rounds.wrapping_mul(ran.len().wrapping_add(jobs)), 0),
        );
    }
    Ok(())
}

// Two threads cross at piece 5. Job 0 keeps the leader until the helper has done its own range and has stolen 5, 6 and 7 of the leader's.
// Where the helper's piece 5 fails, 6 is skipped: the leader, if it has looked before, may still steal 7 of what goes back, and then
// looks again. Where job 0 fails while the helper is in piece 5, what the helper has left goes back or runs, and piece 5 is brought.
#[test]
fn a_thief_begins_no_more_of_its_share_and_loses_none(rt: HostRuntime) -> Result<(), Fault> {
    let alloc = rt.alloc();
    for (bad, number, is_skipped) in [(5, 6, true), (0, 5, false)] {
        let crossings = Crossings::new();
        let pool = Pool::new(2, Limits::new(), crossings.with_job(5));
        let items = items(alloc, 16, 16, bad)?;
        for report in reports_of(&rt, alloc, &pool, 16, 100, &items)? {
            is(&rt, report.skipped.contains(&number), is_skipped);
        }
        is(&rt, crossings.counts(), (200, 0));
    }
    Ok(())
}

// In some of them every job fails.
#[test]
fn a_lock_works_on_after_two_thousand_stopped_rounds(rt: HostRuntime) -> Result<(), Fault> {
    let alloc = rt.alloc();
    let pool = Pool::new(4, Limits::new(), NoGate);
    for (jobs, count, every, bad) in [
        (2, 3, 1, 0),
        (7, 20, 5, 4),
        (18, 61, 20, 19),
        (17, 17, 1, 0),
    ] {
        let items = items(alloc, count, every, bad)?;
        for report in reports_of(&rt, alloc, &pool, jobs, 500, &items)? {
            holds(&rt, !report.ran.is_empty());
        }
    }
    Ok(())
}
