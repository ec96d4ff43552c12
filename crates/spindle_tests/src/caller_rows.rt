//! Rows of the callers, and of rounds into a list that the caller keeps. No clause says that its memory serves again, or that memory
//! which is there is used.
ghost use denote.Param.Send.{IsSync};

use crate::callers;
use crate::checks::{are, is};
use spindle::prelude::*;
use spindle::with_lock;
use spindle_locks_tests::jobs::Square;
use std::process::Abort;

// Rounds into one list, whose memory serves again.
fn square_into<R: RunsRounds<Square>, H: Threads + Wait + Abort + Sync>(
    rt: &H,
    alloc: Global,
    leader: &mut R,
) -> Result<(), Fault>
    requires { IsSync H.row }
{
    let mut squares = Vec::with_capacity(alloc, 8)?;
    for jobs in [1, 3, 9] {
        let mut numbers = vec![in alloc; 3, 0, 4]?;
        leader.for_each_into(rt, alloc, jobs, &mut numbers, &mut squares)?;
        are(rt, &squares, &[9, 0, 16]);
        is(rt, (numbers.len(), squares.capacity()), (0, 8));
    }
    leader.for_each_into(rt, alloc, 0, &mut Vec::new(alloc), &mut squares)?;
    is(rt, (squares.len(), squares.capacity()), (0, 8));
    Ok(())
}

#[test]
fn rounds_of_one_leader_answer_each_list(rt: HostRuntime) -> Result<(), Fault> {
    let alloc = rt.alloc();
    let pool = Pool::new(4, Limits::new(), NoGate);
    let (first, second) = with_lock::<Square, _, _, _, _, _>(&rt, alloc, &pool, 4, |leader| {
        square_into(&rt, alloc, leader)?;
        let first = vec![in alloc; 2, 3, 5]?;
        let second = vec![in alloc; 7, 11]?;
        callers::two_rounds(&rt, alloc, leader, 2, first, second)
    })??;
    are(&rt, &first, &[4, 9, 25]);
    are(&rt, &second, &[49, 121]);
    Ok(())
}

// What the callers promise, with numbers.
#[test]
fn callers_answer_in_full(rt: HostRuntime) -> Result<(), Fault> {
    let pool = Pool::of_machine(&rt);
    let squares = callers::squares(&rt, vec![in rt.alloc(); 0, 1, 2, 3]?)?;
    are(&rt, &squares, &[0, 1, 4, 9]);
    squares_and_sums(&rt, rt.alloc(), &pool)?;
    both_lists(&rt, rt.alloc(), &pool)
}

fn squares_and_sums<H: Threads + Wait + Abort + Sync>(
    rt: &H,
    alloc: Global,
    pool: &Pool<NoGate>,
) -> Result<(), Fault> {
    let numbers = vec![in alloc; 0, 1, 2, 3]?;
    let squares = callers::squares_without_a_lock(rt, alloc, pool, 3, numbers)?;
    are(rt, &squares, &[0, 1, 4, 9]);
    let numbers = vec![in alloc; 3, 1, 4, 1, 5, u32::MAX, 2]?;
    let sums = callers::one_more_each(rt, alloc, pool, 3, numbers)?;
    are(rt, &sums, &[4, 2, 5, 2, 6, 4294967296, 3]);
    Ok(())
}

fn both_lists<H: Threads + Wait + Abort + Sync>(
    rt: &H,
    alloc: Global,
    pool: &Pool<NoGate>,
) -> Result<(), Fault> {
    let one = vec![in alloc; 2, 3, 5]?;
    let equal = vec![in alloc; 2, 3, 5]?;
    let both = callers::outputs_twice::<Square, _, _>(rt, alloc, pool, 2, one, equal)?;
    are(rt, &both.0, &[4, 9, 25]);
    are(rt, &both.1, &[4, 9, 25]);
    Ok(())
}
