//! Rows of totals of lists and of pairs, in a lock for one list and by a leader, and of rounds over chunks of a list, and what a refused
//! allocation leaves of them: no job was run, and the same call with memory answers in full.
//!
//! No clause says that a refused call has run no job, how many jobs one has, or that memory which is there is used.
ghost use Rattle.std.specs.Prelude.{◌≡◌, ◌/◌, IfOk, map};
ghost use Rattle.std.proofs.Common.{rules};

use crate::checks::{are, holds, is};
use crate::kernel_rows::eleven_numbers;
use crate::leaders::{Led, LedBy, Runs, in_place};
use spindle::lock::Combine;
use spindle::prelude::*;
use spindle::with_lock;
use spindle_locks_tests::jobs::{Calls, Counting};

/// The last odd element, or 0 where there is none. Which comes later counts, so this operation isn't commutative.
pub struct LastOdd;

impl Combine for LastOdd {
    ghost use Rattle.spindle_kernels_tests.specs.Last.{later, odd_or_0, later_associative};
    ghost use Rattle.std.proofs.Common.{refl};

    type Item = u32;

    type Total = u32;

    ghost neutral = { 0 };

    ghost of = { odd_or_0 };

    ghost combine = { later };

    fn neutral() -> u32 {
        0
    }

    fn of(item: &u32) -> u32 {
        if *item % 2 == 1 { *item } else { 0 }
    }

    fn combine(first: u32, second: u32) -> u32 {
        if second == 0 { first } else { second }
    }

    ghost associative = { later_associative };

    ghost is_neutral = { (refl, λ _ _. refl) };
}

/// The second number of the last pair whose second isn't 0, or 0: which comes later counts.
pub struct LastSecond;

impl Combine for LastSecond {
    ghost use Rattle.spindle_kernels_tests.specs.Last.{later, later_associative};
    ghost use Rattle.std.proofs.Common.{refl};

    type Item = (u32, u32);

    type Total = u32;

    ghost neutral = { 0 };

    ghost of = { λ pair. pair.1 };

    ghost combine = { later };

    fn neutral() -> u32 {
        0
    }

    fn of(pair: &(u32, u32)) -> u32 {
        pair.1
    }

    fn combine(first: u32, second: u32) -> u32 {
        if second == 0 { first } else { second }
    }

    ghost associative = { later_associative };

    ghost is_neutral = { (refl, λ _ _. refl) };
}

#[test]
fn pairs_are_combined_in_their_order(rt: HostRuntime) -> Result<(), Fault> {
    let alloc = rt.alloc();
    let pool = Pool::new(4, Limits::new(), NoGate);
    let first = SharedList::from_vec(alloc, eleven_numbers(alloc)?)?;
    let second = SharedList::from_vec(alloc, vec![in alloc; 0u32, 7, 0, 5, 0, 0]?)?;
    for jobs in [0, 1, 3] {
        let last = reduce_pairs::<_, _, LastSecond>(&rt, alloc, &pool, jobs, &first, &second)?;
        is(&rt, last, 5);
    }
    Ok(())
}

#[test]
fn a_fold_has_four_jobs_a_thread(rt: HostRuntime) -> Result<(), Fault> {
    let alloc = rt.alloc();
    let calls = Calls::new();
    let pool = Pool::new(2, Limits::new(), Counting { calls: &calls });
    let list = SharedList::from_vec(alloc, eleven_numbers(alloc)?)?;
    let last = reduce::<LastOdd>(&rt, alloc, &pool, 0, &list)?;
    is(&rt, (last, calls.in_all()), (u32::MAX, (8, 8)));
    Ok(())
}

impl Led for TotalsOf<LastOdd> {
    type Task = ();

    type Answer = ();

    fn lead<H: Runs>(rt: &H, alloc: Global, leader: &mut LedBy<Self>, _: &()) -> Result<(), Fault> {
        let list = SharedList::from_vec(alloc, eleven_numbers(alloc)?)?;
        let list = list.run(0, list.len())?;
        for _ in 0..2 {
            is(rt, leader.reduce(rt, alloc, &list)?, u32::MAX);
        }
        Ok(())
    }
}

#[test]
fn a_leader_makes_totals_again(rt: HostRuntime) -> Result<(), Fault> {
    in_place::<TotalsOf<LastOdd>, _>(&rt, rt.alloc(), 5, &())
}

/// Halves each element of a chunk, or fails at the first odd one.
pub struct Halve;

impl Job for Halve {
    type In = ListRun<u32>;

    type Out = Result<Vec<u32>, Odd>;

    type Inner = End;

    ghost meets = { λ chunk output. IfOk output (λ halves. halves.items ≡ map (λ x. x / 2) chunk) };

    ghost equal_is_same = { Prim.search rules };

    fn run<H: Threads + Wait + Sync>(
        _rt: &H,
        alloc: Global,
        chunk: &ListRun<u32>,
        _cx: &mut JobCx<End>,
    ) -> Result<Vec<u32>, Odd> {
        halves(alloc, chunk.as_slice())
    }
}

/// Why a chunk wasn't halved.
#[derive(Clone, Copy, Debug, PartialEq, Eq, Drop)]
pub enum Odd {
    /// Want of memory.
    Memory,
    /// This is its first odd element.
    Element(u32),
}

/// The halves of the elements.
pub fn halves(alloc: Global, chunk: &[u32]) -> Result<Vec<u32>, Odd>
    ensures { IfOk result (λ halves. halves.items ≡ map (λ x. x / 2) chunk.now) }
{
    if let Some(odd) = first_odd(chunk) {
        return Err(Odd::Element(odd));
    }
    match chunk.iter().map(|x| *x / 2).collect(alloc) {
        Ok(halves) => Ok(halves),
        Err(_) => Err(Odd::Memory),
    }
}

// The first odd element, if there is one.
fn first_odd(chunk: &[u32]) -> Option<u32> {
    for element in chunk {
        if *element % 2 == 1 {
            return Some(*element);
        }
    }
    None
}

// The list of these numbers; where memory for it is refused once, it is asked for again.
fn list_of(alloc: Global, numbers: [u32; 4]) -> Result<SharedList<u32>, Fault> {
    match shared(alloc, numbers) {
        Ok(list) => Ok(list),
        Err(_) => shared(alloc, numbers),
    }
}

fn shared(alloc: Global, numbers: [u32; 4]) -> Result<SharedList<u32>, Fault> {
    Ok(SharedList::from_vec(alloc, Vec::from_array(alloc, numbers)?)?)
}

#[test]
fn refused_fold_has_run_no_job(rt: HostRuntime) -> Result<(), Fault> {
    let alloc = rt.alloc();
    let calls = Calls::new();
    let pool = Pool::new(4, Limits::new(), Counting { calls: &calls });
    let list = list_of(alloc, [2, 7, 4, 6])?;
    for _ in 0..2 {
        let before = calls.in_all();
        match reduce::<LastOdd>(&rt, alloc, &pool, 0, &list) {
            Ok(total) => is(&rt, (total, calls.since(before)), (7, (4, 4))),
            Err(_) => is(&rt, calls.since(before), (0, 0)),
        }
    }
    let before = calls.in_all();
    holds(&rt, before != (0, 0));
    if let Ok(none) = SharedList::from_vec(alloc, Vec::new(alloc)) {
        is(&rt, reduce::<LastOdd>(&rt, alloc, &pool, 0, &none)?, 0);
    }
    is(&rt, calls.since(before), (0, 0));
    Ok(())
}

#[test]
fn refused_round_over_chunks_is_answered_when_asked_again(rt: HostRuntime) -> Result<(), Fault> {
    let alloc = rt.alloc();
    let calls = Calls::new();
    let pool = Pool::new(2, Limits::new(), Counting { calls: &calls });
    let even = list_of(alloc, [2, 6, 4, 0])?;
    let mut full = 0usize;
    for _ in 0..2 {
        let answer = with_lock::<Halve, _, _, _, _, _>(&rt, alloc, &pool, 2, |leader| {
            leader.map_chunks(&rt, alloc, 2, &even)
        });
        if let Ok(Ok(Ok(halves))) = answer {
            are(&rt, &halves, &[1, 3, 2, 0]);
            full = full.wrapping_add(1);
        }
    }
    holds(&rt, 0 < full);
    Ok(())
}
