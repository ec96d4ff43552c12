//! What a refused allocation leaves in a job that opens locks: its closure wasn't run, and the same call with memory answers.
//!
//! The test ends well whichever one of its allocations is refused; `./do test` refuses each in turn. With memory for all, it shows the
//! full answers. A job can't fail a test, so it answers whether all is as it should be. No clause says that a refused lock hasn't run its
//! closure, or that memory which is there is used.
ghost use Rattle.std.specs.Prelude.{◌<◌};
ghost use Rattle.std.proofs.Common.{rules};
ghost use denote.Param.Send.{IsSync};

use crate::checks::{is, repeat};
use crate::jobs::Square;
use crate::rounds::rounds_of;
use spindle_locks::job::gate::NoGate;
use spindle_locks::lock::leader::Leader;
use spindle_locks::lock::nested::Under;
use spindle_locks::lock::workspace::Opens;
use spindle_locks::prelude::*;
use spindle_rounds::threads::limits::Limits;
use std::process::Abort;

/// Squares as many numbers, of seven at most, by each of its calls: in a lock of two threads, by a round over a list, and by one over
/// numbers alone, again where one was refused. Answers whether it had the squares each time, a refused lock hadn't run its closure, and
/// rounds over nothing took no memory.
pub struct Asking;

impl Job for Asking {
    type In = usize;

    type Out = bool;

    type Inner = Under<Square>;

    ghost meets = { λ _ _. Unit {0} };

    fn run<H: Threads + Wait + Sync>(
        rt: &H,
        alloc: Global,
        count: &usize,
        cx: &mut JobCx<Under<Square>>,
    ) -> bool {
        if !nothing_is_refused(rt, alloc, *count, cx) {
            return false;
        }
        for call in 0..3 {
            let answer = match ask(rt, alloc, call, *count, cx) {
                Ok(squares) => Ok(squares),
                Err(_) => ask(rt, alloc, call, *count, cx),
            };
            if !are_squares(answer, *count) {
                return false;
            }
        }
        true
    }

    ghost equal_is_same = { Prim.search rules };
}

// Whether these are the squares of the first so many numbers.
fn are_squares(found: Result<Vec<u128>, Fault>, count: usize) -> bool {
    match found {
        Ok(found) => found.as_slice() == &[0, 1, 4, 9, 16, 25, 36].as_slice()[..count.min(7)],
        Err(_) => false,
    }
}

// Makes one of the calls, of which the first opens a lock.
fn ask<H: Threads + Wait + Sync>(
    rt: &H,
    alloc: Global,
    call: usize,
    count: usize,
    cx: &mut JobCx<Under<Square>>,
) -> Result<Vec<u128>, Fault> {
    if call == 0 {
        return in_lock(rt, alloc, count, cx);
    }
    if call == 1 {
        let numbers = (0..count).collect(alloc)?;
        return cx.for_each(rt, alloc, count.max(1), numbers);
    }
    cx.for_each_raw(rt, alloc, count)
}

// Opens a lock, and squares numbers there; where a lock that is refused has run its closure, they aren't their squares.
fn in_lock<H: Threads + Wait + Sync>(
    rt: &H,
    alloc: Global,
    count: usize,
    cx: &mut JobCx<Under<Square>>,
) -> Result<Vec<u128>, Fault> {
    let mut is_run = false;
    let answer = cx.with_lock(
        rt,
        alloc,
        2,
        |leader| -> Option<Vec<u128>>
            requires { IsSync H.row }
        {
            is_run = true;
            squares_by(rt, alloc, leader, count)
        },
    );
    match answer {
        Ok(Some(squares)) => Ok(squares),
        Err(fault) if !is_run => Err(fault),
        _ => Ok(Vec::new(alloc)),
    }
}

// The squares of the first so many numbers; where the round is refused, the same lock answers when asked again.
fn squares_by<L, H: Threads + Wait + Sync>(
    rt: &H,
    alloc: Global,
    leader: &mut Leader<Square, NoGate, L>,
    count: usize,
) -> Option<Vec<u128>>
where
    Square: Opens<L>,
{
    match leader.for_each_raw(rt, alloc, count) {
        Ok(squares) => Some(squares),
        Err(_) => leader.for_each_raw(rt, alloc, count).ok(),
    }
}

// Empty rounds, which take no memory.
fn nothing_is_refused<H: Threads + Wait + Sync>(
    rt: &H,
    alloc: Global,
    jobs: usize,
    cx: &mut JobCx<Under<Square>>,
) -> bool {
    let Ok(listed) = cx.for_each(rt, alloc, jobs, Vec::new(alloc)) else {
        return false;
    };
    let Ok(counted) = cx.for_each_raw(rt, alloc, 0) else {
        return false;
    };
    listed.capacity() == 0 && counted.capacity() == 0
}

// A round of so many such jobs in a lock of two threads, which is asked for again where it is refused.
fn all_are_right<K: Job<In = usize, Out = bool> + Send, H: Threads + Wait + Abort + Sync>(
    rt: &H,
    alloc: Global,
    jobs: usize,
    counts: &[usize],
)
where
    K::Inner: Send,
    <K::Inner as Nest>::ChildSlots: Send + Sync,
    requires { 0 < jobs }
{
    let pool = Pool::new(2, Limits::new(), NoGate);
    for attempt in 0..2 {
        if let Ok((right, _)) = rounds_of::<K, _, _>(rt, alloc, &pool, 2, jobs, 1, counts) {
            return repeat(rt, &right, &[true], counts.len());
        }
        is(rt, attempt, 0);
    }
}

#[test]
fn refused_calls_of_jobs_answer_when_asked_again(rt: HostRuntime) {
    all_are_right::<Asking, _>(&rt, rt.alloc(), 2, &[0, 1, 4, 7]);
    all_are_right::<Asking, _>(&rt, rt.alloc(), 1, &[4]);
}
