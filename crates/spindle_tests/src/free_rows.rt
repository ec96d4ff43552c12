//! Rows of lists that run outside a lock, and of a pool of the machine's size. No clause says that such a list is answered where
//! memory is there, that a closure is called once for each item, and on which threads.

use crate::checks::{are, holds, is};
use crate::sevens::{are_seven_squares, seven_items};
use spindle::prelude::*;
use spindle::{for_each, for_each_raw};
use spindle_locks_tests::gates::{Meeting, Meetings};
use std::process::Abort;
use std::sync::atomic::{AtomicUsize, Ordering};
use std::thread::available_parallelism;

#[test]
fn lists_outside_a_lock_are_answered(rt: HostRuntime) -> Result<(), Fault> {
    let alloc = rt.alloc();
    for threads in [3, 1] {
        let pool = Pool::new(threads, Limits::new(), NoGate);
        let numbers = vec![in alloc; 5u64, 6, 7]?;
        let more = for_each(&rt, alloc, &pool, 2, numbers, |x| x.wrapping_add(1))?;
        are(&rt, &more, &[6, 7, 8]);
        let boxes = vec![in alloc; Box::new(alloc, 5u64)?, Box::new(alloc, 6u64)?]?;
        let more = for_each(&rt, alloc, &pool, 2, boxes, |x: Box<u64>| x.wrapping_add(1))?;
        are(&rt, &more, &[6, 7]);
    }
    let pool = Pool::new(2, Limits::new(), NoGate);
    for (count, wanted) in [(4, [0, 1, 4, 9].as_slice()), (0, [].as_slice())] {
        let squares = for_each_raw(&rt, alloc, &pool, count, |n| n.wrapping_mul(n))?;
        are(&rt, &squares, wanted);
    }
    Ok(())
}

#[test]
fn a_closure_is_called_once_for_each_number(rt: HostRuntime) -> Result<(), Fault> {
    let alloc = rt.alloc();
    let pool = Pool::new(4, Limits::new(), NoGate);
    let calls = AtomicUsize::new(0);
    for length in [1usize, 2, 3, 7, 64, 65, 1000, 2047, 2048, 5000] {
        let before = calls.load(Ordering::SeqCst);
        let found = for_each_raw(&rt, alloc, &pool, length, |n| {
            calls.fetch_add(1, Ordering::SeqCst);
            n
        })?;
        are(&rt, &found, &(0..length).collect::<Vec<usize>>(alloc)?);
        is(
            &rt,
            calls.load(Ordering::SeqCst).wrapping_sub(before),
            length,
        );
    }
    Ok(())
}

// Has two items begin at a gate, and then two numbers, so many times.
fn begin_both<H: Threads + Sync>(
    rt: &H,
    alloc: Global,
    pool: &Pool<NoGate>,
    gate: &Meeting<'_>,
    times: usize,
) -> Result<(), Fault> {
    for _ in 0..times {
        let items = vec![in alloc; (), ()]?;
        for_each(rt, alloc, pool, 2, items, |()| gate.begun(0))?;
        for_each_raw(rt, alloc, pool, 2, |n| gate.begun(n))?;
    }
    Ok(())
}

// Each waits for the other. Two threads are there on every machine.
#[test]
fn two_items_run_side_by_side(rt: HostRuntime) -> Result<(), Fault> {
    let pool = Pool::new(2, Limits::new(), NoGate);
    let meetings = Meetings::new();
    begin_both(&rt, rt.alloc(), &pool, &meetings.of_jobs(2), 20)?;
    is(&rt, meetings.counts(), (80, 0));
    Ok(())
}

// The first of two waits in vain for the second.
#[test]
fn a_pool_of_one_thread_runs_item_after_item(rt: HostRuntime) -> Result<(), Fault> {
    let alloc = rt.alloc();
    let pool = Pool::new(1, Limits::new(), NoGate);
    let meetings = Meetings::new();
    begin_both(&rt, alloc, &pool, &meetings.missed_by(2), 1)?;
    is(&rt, meetings.counts(), (4, 2));
    let turn = AtomicUsize::new(0);
    let turns = for_each_raw(
        &rt,
        alloc,
        &pool,
        5000,
        |_n| turn.fetch_add(1, Ordering::SeqCst),
    )?;
    are(&rt, &turns, &(0..5000).collect::<Vec<usize>>(alloc)?);
    Ok(())
}

#[test]
fn a_pool_of_the_machine_has_as_many_threads_as_std_tells(rt: HostRuntime) {
    let threads = match available_parallelism(&rt) {
        Ok(number) => number.get(),
        Err(_) => 1,
    };
    is(&rt, Pool::of_machine(&rt).max_num_threads(), threads);
}

// 1 where memory was refused; else the squares must have come out.
fn refusals(rt: &impl Abort, answer: Result<Vec<u128>, Fault>) -> usize {
    match answer {
        Ok(squares) => {
            holds(rt, are_seven_squares(squares.as_slice()));
            0
        }
        Err(fault) => {
            holds(rt, matches!(fault, Fault::Memory));
            1
        }
    }
}

// One allocation at most is refused, so one of two equal calls answers.
#[test]
fn refused_lists_outside_a_lock_answer_when_asked_again(rt: HostRuntime) -> Result<(), Fault> {
    let alloc = rt.alloc();
    let square = |x: usize| x as u128 * x as u128;
    for threads in [4, 1] {
        let pool = Pool::new(threads, Limits::new(), NoGate);
        let mut refused = 0usize;
        for _ in 0..2 {
            let by_list = for_each(&rt, alloc, &pool, 7, seven_items(alloc)?, square);
            refused = refused.wrapping_add(refusals(&rt, by_list));
            let by_number = for_each_raw(&rt, alloc, &pool, 7, square);
            refused = refused.wrapping_add(refusals(&rt, by_number));
        }
        holds(&rt, refused <= 1);
    }
    Ok(())
}
