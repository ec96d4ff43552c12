//! Kinds of jobs that are given lists of signed numbers and of pairs: their law is that of lists. That they are proved is the test.
ghost use Rattle.std.specs.Prelude.{◌≡◌, length};
ghost use Rattle.std.proofs.Common.{rules};
ghost use Rattle.spindle.specs.Same.{law_of_lists};

use spindle::prelude::*;

/// Counts the pairs of a run.
pub struct CountPairs;

impl Job for CountPairs {
    type In = ListRun<(u32, u32)>;

    type Out = usize;

    type Inner = End;

    ghost meets = { λ run count. count ≡ length run };

    fn run<H: Threads + Wait + Sync>(
        _rt: &H,
        _alloc: Global,
        run: &ListRun<(u32, u32)>,
        _cx: &mut JobCx<End>,
    ) -> usize {
        run.len()
    }

    ghost equal_is_same = { law_of_lists (Prim.search rules) };
}

/// Counts the numbers of a run.
pub struct CountNumbers;

impl Job for CountNumbers {
    type In = ListRun<i64>;

    type Out = usize;

    type Inner = End;

    ghost meets = { λ run count. count ≡ length run };

    fn run<H: Threads + Wait + Sync>(
        _rt: &H,
        _alloc: Global,
        run: &ListRun<i64>,
        _cx: &mut JobCx<End>,
    ) -> usize {
        run.len()
    }

    ghost equal_is_same = { law_of_lists (Prim.search rules) };
}
