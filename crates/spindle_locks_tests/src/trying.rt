//! A job that may fail, and its rounds.
ghost use Rattle.std.specs.Prelude.{◌≡◌, ◌<◌, true};
ghost use Rattle.std.proofs.Common.{rules};

use crate::checks::{are, is};
use spindle_locks::job::TellsFailures;
use spindle_locks::job::nest::End;
use spindle_locks::lock::root::with_lock;
use spindle_locks::pieces::report::Report;
use spindle_locks::prelude::*;
use std::process::Abort;
use std::thread;

/// A number, and whether it is to fail.
pub type Item = (u32, bool);

/// Answers its item, which is a failure where it is to fail. It lets other threads go first.
pub struct Trying;

impl Job for Trying {
    type In = Item;

    type Out = Item;

    type Inner = End;

    ghost meets = { λ item output. output ≡ item };

    ghost fails = { λ output. output.1 ≡ true };

    fn run<H: Threads + Wait + Sync>(
        _rt: &H,
        _alloc: Global,
        input: &Item,
        _cx: &mut JobCx<End>,
    ) -> Item {
        thread::yield_now();
        *input
    }

    fn failed(output: &Item) -> bool {
        Self::is_failure(output)
    }

    ghost equal_is_same = { Prim.search rules };
}

impl TellsFailures for Trying {
    fn is_failure(output: &Item) -> bool {
        output.1
    }
}

/// The numbers from 0 up, of which those fail whose number modulo `every` is `bad`.
pub fn items(alloc: Global, count: u32, every: u32, bad: u32) -> Result<Vec<Item>, Fault> {
    let mut items = Vec::new(alloc);
    for number in 0..count {
        items.push((number, number % every.max(1) == bad))?;
    }
    Ok(items)
}

/// Fails the test in which other pieces ran than those of these numbers.
pub fn these_ran(rt: &impl Abort, report: &Report<Item>, wanted: &[usize]) {
    is(rt, report.ran.len(), wanted.len());
    for (piece, number) in report.ran.iter().zip(wanted) {
        is(rt, piece.0, *number);
    }
}

/// The reports of so many rounds over the same items, of one lock of the pool. Each is followed by a round that doesn't stop, which
/// answers all of them.
pub fn reports_of<G: Gate + Sync, H: Threads + Wait + Abort + Sync>(
    rt: &H,
    alloc: Global,
    pool: &Pool<G>,
    jobs: usize,
    rounds: usize,
    items: &[Item],
) -> Result<Vec<Report<Item>>, Fault>
    requires { 0 < jobs }
{
    with_lock::<Trying, _, _, _, _, _>(
        rt,
        alloc,
        pool,
        pool.max_num_threads(),
        |leader|
            requires { 0 < jobs }
        {
            let mut reports = Vec::with_capacity(alloc, rounds)?;
            for _ in 0..rounds {
                reports.push(leader.try_for_each(rt, alloc, jobs, items.to_vec(alloc)?)?)?;
                are(
                    rt,
                    &leader.for_each(rt, alloc, jobs, items.to_vec(alloc)?)?,
                    items,
                );
            }
            Ok(reports)
        },
    )?
}
