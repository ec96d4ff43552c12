//! A solver that runs until nothing changes: each value becomes the mean of itself, twice, and of its two neighbours, with one value
//! on both sides of all.
ghost use Rattle.std.specs.Prelude.{◌≡◌, ◌==◌, ◌+◌, ◌*◌, ◌/◌, IfOk};
ghost use Rattle.std.specs.Option.{IfSome};
ghost use Rattle.spindle_examples.specs.Solver.{IsSolved};

use spindle::prelude::*;

/// Makes each value the mean of itself, twice, and of its neighbours.
pub struct Relax;

impl Stencil for Relax {
    type Value = u32;

    ghost becomes = { λ relax before here behind. (before + 2 * here + behind) / 4 };

    ghost settles = { λ relax old new. old == new };

    fn value(&self, before: u32, here: u32, behind: u32) -> u32 {
        let sum = u64::from(before) + 2 * u64::from(here) + u64::from(behind);
        (sum / 4) as u32
    }

    fn has_settled(&self, old: u32, new: u32) -> bool {
        old == new
    }
}

/// The values once a pass changes none; none where some still change in the last of so many passes.
pub fn solved<G: Gate + Sync, H: Threads + Wait + Sync>(
    rt: &H,
    alloc: Global,
    pool: &Pool<G>,
    edge: u32,
    values: Vec<u32>,
    most: usize,
) -> Result<Option<Vec<u32>>, Fault>
    ensures { IfOk result (λ solved. IfSome solved (λ values. IsSolved edge values.items)) }
{
    let passes = passes_until(rt, alloc, pool, &Relax, values, edge, most)?;
    if !passes.settled {
        return Ok(None);
    }
    Ok(Some(passes.values))
}
