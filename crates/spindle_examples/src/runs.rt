//! The greatest sum of a run of values, by halves.
ghost use Rattle.std.specs.Prelude.{◌≡◌, ◌++◌, IfOk};
ghost use Rattle.std.specs.Option.{IfSome};
ghost use Rattle.spindle_examples.specs.Runs.{sums_of, AreSums};

use spindle::prelude::*;

/// Finds of values their sum, and the greatest sum of a run at their start, at their end, and anywhere,
/// unless a sum needs more than 64 bits.
pub struct Runs;

impl Division for Runs {
    type Problem = ListRun<i64>;

    type Answer = Option<(i64, i64, i64, i64)>;

    ghost solves = { λ runs values answer. IfSome answer (AreSums values) };

    ghost splits = { λ runs values first second. values ≡ first ++ second };

    fn split(&self, values: ListRun<i64>) -> Split<ListRun<i64>> {
        Split::halves(values, 1000)
    }

    fn solve(&self, values: ListRun<i64>) -> Self::Answer {
        let mut sums = Some((0, 0, 0, 0));
        for &item in values.as_slice() {
            sums = self.join(sums, Some((item, item.max(0), item.max(0), item.max(0))));
        }
        sums
    }

    fn join(&self, first: Self::Answer, second: Self::Answer) -> Self::Answer {
        let (first, second) = (first?, second?);
        let ahead = first.1.max(first.0.checked_add(second.1)?);
        let behind = second.2.max(first.2.checked_add(second.0)?);
        let most = first.3.max(second.3).max(first.2.checked_add(second.1)?);
        Some((first.0.checked_add(second.0)?, ahead, behind, most))
    }
}

/// The greatest sum of a run of the values, 0 for an empty one; none where some sum needs more than
/// 64 bits.
pub fn greatest_sum<H: Threads + Wait + AllocGlobal + Sync>(
    rt: &H,
    values: ListRun<i64>,
) -> Result<Option<i64>, Fault>
    ensures { IfOk result (λ sum. IfSome sum (λ sum. sum ≡ (sums_of values).3)) }
{
    Ok(divide(rt, rt.alloc(), &Pool::of_machine(rt), &Runs, values)?.map(|sums| sums.3))
}
