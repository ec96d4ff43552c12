//! Keys looked up by halves in a table that all jobs read: the kernel holds it.
ghost use Rattle.std.specs.Prelude.{◌≡◌, IfOk, map as mapped};
ghost use Rattle.spindle_examples.specs.Ranks.{rank, IsRankOf};

use spindle::prelude::*;

/// Computes how many numbers of its table, which ascend, are below a key.
#[derive(Drop)]
pub struct Rank {
    table: Vec<u32>,
}

impl Kernel for Rank {
    type In = u32;

    type Out = usize;

    ghost computes = { λ kernel key answer. IsRankOf kernel.table.items key answer };

    fn compute(&self, key: &u32) -> usize {
        let key = *key;
        self.table
            .as_slice()
            .partition_point(|number| *number < key)
    }
}

/// Of each key how many of the numbers are below it.
pub fn ranks<G: Gate + Sync, H: Threads + Wait + Sync>(
    rt: &H,
    alloc: Global,
    pool: &Pool<G>,
    mut numbers: Vec<u32>,
    keys: Vec<u32>,
) -> Result<Vec<usize>, Fault>
    ensures { IfOk result (λ ranks. ranks.items ≡ mapped (rank numbers.items) keys.items) }
{
    numbers.sort()?;
    map(rt, alloc, pool, &Rank { table: numbers }, keys)
}
