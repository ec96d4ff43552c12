//! Rows of numbers that are doubled in locks of jobs.
//!
//! No clause says that such locks end.
ghost use Rattle.std.specs.Prelude.{◌≡◌, ◌*◌};
ghost use Rattle.std.proofs.Common.{rules};
ghost use denote.Param.Send.{IsSync};

use crate::checks::{holds, repeat};
use crate::staying::all_see;
use spindle::prelude::*;
use spindle_locks_tests::rounds::rounds_of;
use std::marker::PhantomData;
use std::process::Abort;

/// Doubles a number.
pub struct Double;

impl Job for Double {
    type In = usize;

    type Out = u128;

    type Inner = End;

    ghost meets = { λ x y. y ≡ 2 * x };

    fn run<H: Threads + Wait + Sync>(
        _rt: &H,
        _alloc: Global,
        input: &usize,
        _cx: &mut JobCx<End>,
    ) -> u128 {
        2 * *input as u128
    }

    ghost equal_is_same = { Prim.search rules };
}

/// Opens a lock of two threads, has a number and the next one answered there by jobs of kind K, and answers the sum; 1 where it was
/// refused.
pub struct Both<K> {
    kind: PhantomData<K>,
}

impl<K: Job<In = usize, Out = u128>> Job for Both<K> {
    type In = usize;

    type Out = u128;

    type Inner = Under<K>;

    ghost meets = { λ _ _. Unit {0} };

    fn run<H: Threads + Wait + Sync>(
        rt: &H,
        alloc: Global,
        input: &usize,
        cx: &mut JobCx<Under<K>>,
    ) -> u128 {
        let (first, second) = (*input, input.wrapping_add(1));
        let answers = cx.with_lock(
            rt,
            alloc,
            2,
            |leader| -> Result<Vec<u128>, Fault>
                requires { IsSync H.row }
            { leader.for_each(rt, alloc, 2, vec![in alloc; first, second]?) },
        );
        let Ok(Ok(doubles)) = answers else {
            return 1;
        };
        let mut sum = 0u128;
        for double in &doubles {
            sum = sum.wrapping_add(*double);
        }
        sum
    }

    ghost equal_is_same = { Prim.search rules };
}

// Many inner locks, one after the other: in the second row no thread makes a turn before it sleeps.
fn add_doubles<
    K: Job<In = usize, Out = u128, Inner = End> + Send,
    H: Threads + Wait + Abort + Sync,
>(rt: &H, alloc: Global) -> Result<(), Fault> {
    for (threads, spin, rounds) in [(4, 65536, 200), (3, 0, 2500)] {
        let pool = Pool::new(threads, Limits { spin, pause: 8 }, NoGate);
        let numbers = [0, 1, 2, 3];
        let (sums, after) = rounds_of::<Both<K>, _, _>(rt, alloc, &pool, 4, 4, rounds, &numbers)?;
        repeat(rt, &sums, &[2, 6, 10, 14], rounds);
        holds(rt, all_see(&after, 1, threads, threads));
    }
    Ok(())
}

#[test]
fn numbers_are_doubled_in_locks_of_jobs(rt: HostRuntime) -> Result<(), Fault> {
    add_doubles::<Double, _>(&rt, rt.alloc())
}
