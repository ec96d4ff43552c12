//! What a refused allocation leaves of a lock, with trays or with slots, or of a round there: no job was run and nothing keeps an item, and
//! the same call with memory answers in full.
//!
//! Each of these tests ends well whichever one of its allocations is refused; `./do test` refuses each in turn. With memory for
//! all, they show the full answers. No clause says that a refused call runs no job, or that memory which is there is used.
ghost use Rattle.std.specs.Prelude.{◌<◌, ◌≤◌};
ghost use denote.Param.Send.{IsSync};

use crate::checks::{are, holds, is};
use crate::lists::{Length, are_three_numbers, seven_clones, three_numbers};
use spindle::prelude::*;
use spindle::{with_lock, with_slots};
use spindle_locks_tests::jobs::{Calls, Counting};
use std::process::Abort;
use std::sync::atomic::{AtomicUsize, Ordering};

/// Fails the test in which a call was refused for another reason than memory, or has run a job, and says whether it answered.
pub fn answered<T>(rt: &impl Abort, answer: &Result<T, Fault>, ran: bool) -> bool {
    if let Err(fault) = answer {
        holds(rt, matches!(fault, Fault::Memory) && !ran);
    }
    answer.is_ok()
}

// One round over seven clones of a list, of which none is left then.
fn measures<F: FnOnce(Vec<SharedList<usize>>) -> Result<Vec<usize>, Fault>>(
    rt: &impl Abort,
    alloc: Global,
    calls: &Calls,
    jobs: usize,
    round: F,
) -> Result<(), Fault>
    requires { F.IsAlwaysCallable round }
{
    let before = calls.in_all();
    let list = three_numbers(alloc)?;
    let lengths = round(seven_clones(alloc, &list, false)?);
    answered(rt, &lengths, calls.in_all() != before);
    holds(rt, are_three_numbers(list));
    are(rt, lengths?.as_slice(), &[3; 7]);
    is(rt, calls.since(before), (jobs, jobs));
    Ok(())
}

// The same by a round that may stop, and does where a list is empty. The report is kept from one to the next.
fn tries<H: Threads + Wait + Abort + Sync>(
    rt: &H,
    alloc: Global,
    calls: &Calls,
    leader: &mut Leader<Length, Counting>,
    jobs: usize,
    stops: bool,
    report: &mut Report<usize>,
) -> Result<(), Fault>
    requires { 0 < jobs }
{
    let before = calls.in_all();
    let list = three_numbers(alloc)?;
    let items = seven_clones(alloc, &list, stops)?;
    let answer = leader.try_for_each_into(rt, alloc, jobs, items, report);
    let ran = report.ran.len();
    answered(
        rt,
        &answer,
        calls.in_all() != before || ran != 0 || !report.all_ran(),
    );
    holds(rt, are_three_numbers(list));
    answer?;
    is(
        rt,
        (
            ran.wrapping_add(report.skipped.len()),
            report.first_failed::<Length>().is_some(),
        ),
        (jobs, stops),
    );
    is(rt, calls.since(before), (ran, ran));
    Ok(())
}

// Rounds in one job and in more: whole ones, some that may stop, and some that do. One that is refused answers when asked again.
fn rounds_answer<H: Threads + Wait + Abort + Sync>(
    rt: &H,
    alloc: Global,
    calls: &Calls,
    leader: &mut Leader<Length, Counting>,
) {
    let mut report = Report::new(alloc);
    for jobs in [1, 3, 4, 7] {
        for may_stop in [None, Some(false), Some(true)] {
            for attempt in 0..2 {
                let answer = match may_stop {
                    None => measures(
                        rt,
                        alloc,
                        calls,
                        jobs,
                        |items|
                            requires jobs { 0 < jobs }
                            requires sync { IsSync H.row }
                        { leader.for_each(rt, alloc, jobs, items) },
                    ),
                    Some(stops) => tries(rt, alloc, calls, leader, jobs, stops, &mut report),
                };
                if answer.is_ok() {
                    break;
                }
                is(rt, attempt, 0);
            }
        }
    }
}

// Whole rounds with slots.
fn slot_rounds_answer<H: Threads + Wait + Abort + Sync>(
    rt: &H,
    alloc: Global,
    calls: &Calls,
    leader: &mut SlotLeader<Length, Counting>,
) {
    for jobs in [1, 3, 4, 7] {
        for attempt in 0..2 {
            let answer = measures(
                rt,
                alloc,
                calls,
                jobs,
                |items|
                    requires jobs { 0 < jobs }
                    requires sync { IsSync H.row }
                { leader.for_each(rt, alloc, jobs, items) },
            );
            if answer.is_ok() {
                break;
            }
            is(rt, attempt, 0);
        }
    }
}

// Such rounds in a lock of the pool with so many threads and slots at most, whose jobs the pool's gate counts; without slots it has trays.
// Says whether it opened: where it is refused, its closure isn't run.
fn opens<H: Threads + Wait + Abort + Sync>(
    rt: &H,
    alloc: Global,
    calls: &Calls,
    pool: &Pool<Counting>,
    most: usize,
    slots: usize,
) -> bool
    requires most { 0 < most }
    requires slots { slots ≤ 4294967295 }
{
    let opened = AtomicUsize::new(0);
    let answer = if slots == 0 {
        with_lock::<Length, _, _, _, _, _>(rt, alloc, pool, most, |leader| {
            opened.fetch_add(1, Ordering::SeqCst);
            rounds_answer(rt, alloc, calls, leader);
        })
    } else {
        with_slots::<Length, _, _, _, _, _>(rt, alloc, pool, most, slots, |leader| {
            opened.fetch_add(1, Ordering::SeqCst);
            slot_rounds_answer(rt, alloc, calls, leader);
        })
    };
    answered(rt, &answer, opened.load(Ordering::SeqCst) > 0)
}

// Such a lock of a pool that may start so many helpers; where it is refused, it opens when asked again.
fn opens_once<H: Threads + Wait + Abort + Sync>(
    rt: &H,
    alloc: Global,
    most: usize,
    starts: usize,
    slots: usize,
)
    requires most { 0 < most }
    requires slots { slots ≤ 4294967295 }
{
    let calls = Calls::new();
    let pool = Pool::with_starts(4, Limits::new(), Counting { calls: &calls }, starts);
    if !opens(rt, alloc, &calls, &pool, most, slots) {
        holds(rt, opens(rt, alloc, &calls, &pool, most, slots));
    }
}

#[test]
fn refused_rounds_have_run_no_job_and_keep_no_item(rt: HostRuntime) {
    for (most, starts) in [(4, 4), (4, 1), (4, 0), (1, 4)] {
        opens_once(&rt, rt.alloc(), most, starts, 0);
    }
}

#[test]
fn refused_rounds_in_slots_have_run_no_job_and_keep_no_item(rt: HostRuntime) {
    opens_once(&rt, rt.alloc(), 4, 4, 7);
}
