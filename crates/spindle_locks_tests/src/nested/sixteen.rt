//! Rows of jobs that play sixteen rounds over the chunks of a list, in a lock that each opens.
//!
//! No clause says that such rounds end, where more jobs than slots open locks, where their jobs open locks too, and where all sleep at
//! once.
ghost use Rattle.std.specs.Prelude.{◌<◌};
ghost use Rattle.std.proofs.Common.{rules};
ghost use denote.Param.Send.{IsSync};

use crate::checks::{is, repeat};
use crate::jobs::Idle;
use crate::rounds::rounds_of;
use spindle_locks::job::gate::NoGate;
use spindle_locks::job::nest::End;
use spindle_locks::lock::leader::Leader;
use spindle_locks::lock::nested::Under;
use spindle_locks::lock::workspace::Opens;
use spindle_locks::prelude::*;
use spindle_parts::lists::{ListRun, SharedList, gathered};
use spindle_rounds::threads::limits::Limits;
use std::marker::PhantomData;
use std::process::Abort;

/// Adds one to each number of a chunk; the sum wraps.
pub struct Grow;

impl Job for Grow {
    type In = ListRun<u64>;

    type Out = Result<Vec<u64>, Fault>;

    type Inner = End;

    ghost meets = { λ _ _. Unit {0} };

    fn run<H: Threads + Wait + Sync>(
        _rt: &H,
        alloc: Global,
        chunk: &ListRun<u64>,
        _cx: &mut JobCx<End>,
    ) -> Result<Vec<u64>, Fault> {
        let mut numbers = chunk.as_slice().to_vec(alloc)?;
        for number in &mut numbers {
            *number = number.wrapping_add(1);
        }
        Ok(numbers)
    }

    ghost equal_is_same = { Prim.search rules };
}

/// Opens a lock of sixteen threads, does nothing there, and answers its chunk as it was.
pub struct Unchanged;

impl Job for Unchanged {
    type In = ListRun<u64>;

    type Out = Result<Vec<u64>, Fault>;

    type Inner = Under<Idle>;

    ghost meets = { λ _ _. Unit {0} };

    fn run<H: Threads + Wait + Sync>(
        rt: &H,
        alloc: Global,
        chunk: &ListRun<u64>,
        cx: &mut JobCx<Under<Idle>>,
    ) -> Result<Vec<u64>, Fault> {
        cx.with_lock(rt, alloc, 16, |_leader| {})?;
        Ok(chunk.as_slice().to_vec(alloc)?)
    }

    ghost equal_is_same = { Prim.search rules };
}

/// Opens a lock of so many threads, and has 256 zeros answered there by jobs of kind K in each of 16 rounds, of so many jobs over so
/// many chunks; none where it was refused.
pub struct Sixteen<K> {
    kind: PhantomData<K>,
}

impl<K: Job<In = ListRun<u64>, Out = Result<Vec<u64>, Fault>>> Job for Sixteen<K> {
    type In = (usize, usize, usize);

    type Out = Vec<u64>;

    type Inner = Under<K>;

    ghost meets = { λ _ _. Unit {0} };

    fn run<H: Threads + Wait + Sync>(
        rt: &H,
        alloc: Global,
        input: &(usize, usize, usize),
        cx: &mut JobCx<Under<K>>,
    ) -> Vec<u64> {
        let (threads, jobs, chunks) = *input;
        let numbers = cx.with_lock(
            rt,
            alloc,
            threads.max(1),
            |leader| -> Result<Vec<u64>, Fault>
                requires { IsSync H.row }
            { sixteen_rounds(rt, alloc, leader, jobs, chunks) },
        );
        match numbers {
            Ok(Ok(numbers)) => numbers,
            _ => Vec::new(alloc),
        }
    }

    ghost equal_is_same = { Prim.search rules };
}

// Hands 256 zeros to 16 rounds one after the other, of so many jobs over so many chunks.
fn sixteen_rounds<
    K: Job<In = ListRun<u64>, Out = Result<Vec<u64>, Fault>> + Opens<L>,
    L,
    H: Threads + Wait + Sync,
>(
    rt: &H,
    alloc: Global,
    leader: &mut Leader<K, NoGate, L>,
    jobs: usize,
    chunks: usize,
) -> Result<Vec<u64>, Fault> {
    let mut numbers = vec![in alloc; 0u64; 256]?;
    for _ in 0..16 {
        let shared = SharedList::from_vec(alloc, numbers)?.share_out_evenly(alloc, chunks.max(1))?;
        let answers = leader.for_each(rt, alloc, jobs.max(1), shared)?;
        numbers = gathered(alloc, answers)??;
    }
    Ok(numbers)
}

// So many rounds of a lock, of so many jobs: for each number of threads a job of its own has all zeros become this number.
fn all_become<
    K: Job<In = ListRun<u64>, Out = Result<Vec<u64>, Fault>> + Send,
    H: Threads + Wait + Abort + Sync,
>(
    rt: &H,
    alloc: Global,
    pool: &Pool<NoGate>,
    jobs: usize,
    rounds: usize,
    asked: &[(usize, usize, usize)],
    number: u64,
) -> Result<(), Fault>
where
    K::Inner: Send,
    <K::Inner as Nest>::ChildSlots: Send + Sync,
    requires { 0 < jobs }
{
    let threads = pool.max_num_threads();
    let (lists, _) = rounds_of::<Sixteen<K>, _, _>(rt, alloc, pool, threads, jobs, rounds, asked)?;
    is(rt, lists.len(), asked.len().wrapping_mul(rounds));
    for list in lists {
        repeat(rt, list.as_slice(), &[number], 256);
    }
    Ok(())
}

// In the second lock there are nine jobs for four slots, and no thread makes a turn before it sleeps.
#[test]
fn lists_grow_in_sixteen_rounds_of_inner_locks(rt: HostRuntime) -> Result<(), Fault> {
    let alloc = rt.alloc();
    let pool = Pool::new(16, Limits::new(), NoGate);
    all_become::<Grow, _>(&rt, alloc, &pool, 2, 1, &[(8, 4, 8); 2], 16)?;
    let pool = Pool::new(4, Limits { spin: 0, pause: 0 }, NoGate);
    let asked = [
        (1, 4, 8),
        (2, 4, 8),
        (3, 4, 8),
        (4, 4, 8),
        (5, 4, 8),
        (4, 4, 8),
        (3, 4, 8),
        (2, 4, 8),
        (4, 4, 8),
    ];
    all_become::<Grow, _>(&rt, alloc, &pool, 9, 100, asked.as_slice(), 16)
}

#[test]
fn jobs_of_a_lock_of_one_thread_open_empty_locks(rt: HostRuntime) -> Result<(), Fault> {
    for pause in [8, 0] {
        let pool = Pool::new(16, Limits { spin: 0, pause }, NoGate);
        all_become::<Unchanged, _>(&rt, rt.alloc(), &pool, 2, 1, &[(1, 16, 16); 2], 0)?;
    }
    Ok(())
}
