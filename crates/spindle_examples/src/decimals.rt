//! Texts read as decimals, of which one may be none: the answer then says where that is, and why.
ghost use Rattle.std.specs.Prelude.{IfOk};
ghost use Rattle.spindle.specs.Tries.{IsTried};
ghost use Rattle.spindle_examples.specs.Decimals.{IsRead};

use spindle::prelude::*;
use std::num::ParseIntError;

/// Reads a decimal.
pub struct Decimal;

impl Kernel for Decimal {
    type In = String;

    type Out = Result<u64, ParseIntError>;

    ghost computes = { λ kernel. IsRead };

    fn compute(&self, text: &String) -> Result<u64, ParseIntError> {
        text.as_str().parse::<u64>()
    }
}

/// The number that each text writes; or the place of the first that writes none, with the numbers before it.
pub fn numbers<G: Gate + Sync, H: Threads + Wait + Sync>(
    rt: &H,
    alloc: Global,
    pool: &Pool<G>,
    texts: Vec<String>,
) -> Result<Result<Vec<u64>, Failed<u64, ParseIntError>>, Fault>
    ensures { IfOk result (λ numbers. IsTried IsRead texts.items numbers) }
{
    try_map(rt, alloc, pool, &Decimal, texts)
}
