//! What a job makes of a run of a table: its total, or the sums from a start up to each place, in 64 bits.
ghost use Rattle.std.specs.Prelude.{◌≡◌, IfOk, sum};
ghost use Rattle.std.proofs.Common.{rules};
ghost use Rattle.spindle_examples.specs.Prefix.{running, answer_to};
ghost use Rattle.spindle_examples.specs.Wrapping.{wrapped};

use spindle::prelude::*;

/// A run of the table, with a start where its sums up to each place are asked for; with none, its total alone is.
#[derive(Clone, PartialEq, Eq, Drop)]
pub struct Asked {
    pub start: Option<u64>,
    pub run: ListRun<u64>,
}

/// Sums a run of the table as asked.
pub struct Sums;

impl Job for Sums {
    type In = Asked;

    type Out = Result<Vec<u64>, AllocError>;

    type Inner = End;

    ghost meets = { λ asked answer. IfOk answer (λ sums. sums.items ≡ answer_to asked) };

    fn run<H: Threads + Wait + Sync>(
        _rt: &H,
        alloc: Global,
        asked: &Asked,
        _cx: &mut JobCx<End>,
    ) -> Result<Vec<u64>, AllocError> {
        let values = asked.run.as_slice();
        match asked.start {
            Some(start) => running_sums(alloc, start, values),
            None => Ok(vec![in alloc; total(values)]?),
        }
    }

    ghost equal_is_same = { Prim.search rules };
}

// The sum of the values, in 64 bits.
fn total(values: &[u64]) -> u64
    ensures { result ≡ wrapped (sum values.now) }
{
    let mut total = 0u64;
    for value in values {
        total = total.wrapping_add(*value);
    }
    total
}

// The sum from a start up to each place.
fn running_sums(alloc: Global, start: u64, values: &[u64]) -> Result<Vec<u64>, AllocError>
    ensures { IfOk result (λ sums. sums.items ≡ running start values.now) }
{
    let mut sums = Vec::with_capacity(alloc, values.len())?;
    let mut total = start;
    for value in values {
        total = total.wrapping_add(*value);
        sums.push_reserved(total);
    }
    Ok(sums)
}
