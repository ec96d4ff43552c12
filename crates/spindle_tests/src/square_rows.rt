//! Rows of rounds that square numbers, in locks with trays and in locks with slots.
//!
//! No clause says that a round ends, however its threads idle and however few of them start, that memory which is there is used, nor that
//! each job is announced once before it begins and once after it. That outputs stand in order is a clause; here it is seen at numbers.
ghost use Rattle.std.specs.Prelude.{◌≡◌, ◌<◌, ◌≤◌};
ghost use Rattle.std.proofs.Common.{rules};

use crate::checks::{are, holds, is, repeat};
use crate::rounds::rounds_in;
use spindle::lock::Opens;
use spindle::prelude::*;
use spindle::with_lock;
use spindle_locks_tests::jobs::{Calls, Counting, Idle, Square};
use spindle_locks_tests::rounds::rounds_of;
use std::process::Abort;

// The threads of a pool and how many helpers it may start, how they idle (pauses in all, and a turn), and so many rounds of a lock:
// its slots (0: it has trays), the jobs that are asked for, the first number, and how many numbers there are.
type Row = (usize, usize, (u32, u32), usize, usize, usize, usize, usize);

// The default limits.
const WAIT: (u32, u32) = (65536, 8);

// No thread makes a turn before it sleeps.
const SLEEP: (u32, u32) = (0, 0);

const ROWS: &[Row] = &[
    (4, 0, WAIT, 1, 0, 4, 0, 10),
    (4, 1, WAIT, 1, 0, 4, 0, 10),
    (4, 2, WAIT, 1, 0, 4, 0, 10),
    (4, 3, WAIT, 1, 0, 4, 0, 10),
    (4, 4, WAIT, 1, 0, 4, 0, 10),
    (1, 1, WAIT, 1, 0, 4, 0, 10),
    (4, 4, WAIT, 1, 0, 1, 0, 10),
    (4, 4, WAIT, 1, 0, 10, 0, 10),
    (4, 4, WAIT, 1, 0, 11, 0, 10),
    (64, 64, WAIT, 1, 0, 3, 0, 10),
    (16, 0, WAIT, 1, 0, 8, 7, 1),
    (16, 16, WAIT, 1, 0, usize::MAX, 1, 3),
    (4, 4, WAIT, 0, 0, 4, 0, 3),
    (4, 4, WAIT, 3, 0, 4, 0, 0),
    (4, 4, SLEEP, 1000, 0, 4, 0, 8),
    (3, 3, WAIT, 10000, 0, 3, 0, 3),
    // A wake that passes the mutex by would come between a thread's last look and its sleep in some round.
    (12, 12, SLEEP, 3000, 0, 12, 0, 12),
    (64, 64, WAIT, 50, 0, 100, 0, 100),
    (64, 64, SLEEP, 50, 0, 100, 0, 100),
    (64, 64, (u32::MAX, 1), 50, 0, 100, 0, 100),
    (64, 64, (0, u32::MAX), 50, 0, 100, 0, 100),
    (2, 0, SLEEP, 1, 0, 2, 5, 2),
];

const SLOT_ROWS: &[Row] = &[
    (4, 4, WAIT, 1, 3, 8, 0, 10),
    (4, 4, WAIT, 1, 1, 8, 0, 10),
    (4, 4, WAIT, 1, 3, 8, 0, 0),
    (1, 1, WAIT, 1, 16, 4, 0, 10),
    (4, 4, WAIT, 1, 16, 1, 0, 10),
    (4, 4, WAIT, 1, 10, 10, 0, 10),
    (4, 4, WAIT, 1, 64, 11, 0, 10),
    (64, 64, WAIT, 1, 2, 3, 0, 10),
    (64, 64, WAIT, 1, 10, usize::MAX, 0, 10),
    (4, 4, WAIT, 1, 2, 8, 0, 10),
    (4, 4, WAIT, 1, 8, 8, 0, 10),
    (4, 4, WAIT, 1, 9, 8, 0, 10),
    (4, 0, WAIT, 1, 7, 7, 0, 10),
    (4, 1, WAIT, 1, 7, 7, 0, 10),
    (4, 2, WAIT, 1, 7, 7, 0, 10),
    (4, 3, WAIT, 1, 7, 7, 0, 10),
    (4, 4, WAIT, 0, 3, 4, 0, 3),
    (3, 3, WAIT, 10000, 5, 3, 0, 3),
    // More threads than cores, none of which makes a turn before it sleeps, and rounds that leave slots empty.
    (12, 12, (0, 8), 3000, 12, 12, 0, 12),
    (12, 12, (0, 8), 500, 12, 12, 0, 5),
    (2, 2, WAIT, 1, 2, 2, 0, 2),
    (4, 4, (0, 8), 1000, 4, 4, 0, 8),
];

// Plays a row, in a lock that has all threads of its pool.
fn play<H: Threads + Wait + Abort + Sync>(rt: &H, alloc: Global, row: Row) -> Result<(), Fault> {
    let (threads, starts, (spin, pause), rounds, slots, asked, first, count) = row;
    let calls = Calls::new();
    let gate = Counting { calls: &calls };
    let pool = Pool::with_starts(threads.max(1), Limits { spin, pause }, gate, starts);
    let mut numbers = Vec::with_capacity(alloc, count)?;
    let mut squares = Vec::with_capacity(alloc, count)?;
    for number in first..first.wrapping_add(count) {
        numbers.push(number)?;
        squares.push((number as u128).wrapping_mul(number as u128))?;
    }
    let (threads, slots, jobs) = (pool.max_num_threads(), slots.min(4294967295), asked.max(1));
    let (found, _) = rounds_in::<Square, _, _>(
        rt, alloc, &pool, threads, slots, jobs, rounds, &numbers,
    )?;
    repeat(rt, &found, &squares, rounds);
    let most = if slots == 0 { count } else { slots.min(count) };
    announced(rt, &calls, asked.min(most), rounds);
    Ok(())
}

// Fails the test in which one of so many jobs wasn't announced once in each round, before it and after it.
fn announced(rt: &impl Abort, calls: &Calls, jobs: usize, rounds: usize) {
    let all = jobs.wrapping_mul(rounds);
    is(rt, calls.in_all(), (all, all));
    for number in 0..jobs.min(4) {
        is(rt, calls.of_job(number), (rounds, rounds));
    }
}

// And a thousand locks in turn.
#[test]
fn numbers_are_squared_in_each_round(rt: HostRuntime) -> Result<(), Fault> {
    for row in ROWS {
        play(&rt, rt.alloc(), *row)?;
    }
    for _ in 0..1000 {
        play(&rt, rt.alloc(), (2, 2, WAIT, 1, 0, 2, 3, 2))?;
    }
    Ok(())
}

// And more slots than memory holds.
#[test]
fn numbers_are_squared_in_slots(rt: HostRuntime) -> Result<(), Fault> {
    for row in SLOT_ROWS {
        play(&rt, rt.alloc(), *row)?;
    }
    let refused = play(&rt, rt.alloc(), (4, 4, WAIT, 0, 4294967295, 1, 0, 0));
    holds(&rt, matches!(refused, Err(Fault::Memory)));
    Ok(())
}

#[test]
fn two_units_answer_two_units(rt: HostRuntime) -> Result<(), Fault> {
    let pool = Pool::new(16, Limits::new(), NoGate);
    let (units, _) = rounds_of::<Idle, _, _>(&rt, rt.alloc(), &pool, 8, 2, 1, &[(), ()])?;
    is(&rt, units.len(), 2);
    Ok(())
}

/// Answers 0.
pub struct Zero;

impl Job for Zero {
    type In = u64;

    type Out = u64;

    type Inner = End;

    ghost meets = { λ _ y. y ≡ 0 };

    fn run<H: Threads + Wait + Sync>(
        _rt: &H,
        _alloc: Global,
        _input: &u64,
        _cx: &mut JobCx<End>,
    ) -> u64 {
        0
    }

    ghost equal_is_same = { Prim.search rules };
}

// What a lock of four threads answers to 128 ones, in a leader's lock.
fn zeros<L, H: Threads + Wait + Sync>(
    rt: &H,
    alloc: Global,
    leader: &mut Leader<Zero, NoGate, L>,
) -> Result<Vec<u64>, Fault>
where
    Zero: Opens<L>,
{
    leader.with_lock(
        4,
        |leader| leader.for_each(rt, alloc, 4, Vec::from_elem(alloc, 1, 128)?),
    )
}

#[test]
fn a_lock_in_a_lock_answers_128_zeros(rt: HostRuntime) -> Result<(), Fault> {
    let alloc = rt.alloc();
    let pool = Pool::new(16, Limits::new(), NoGate);
    let zeros = with_lock::<Zero, _, _, _, _, _>(&rt, alloc, &pool, 16, |leader| {
        zeros(&rt, alloc, leader)
    })??;
    are(&rt, &zeros, &[0; 128]);
    Ok(())
}
