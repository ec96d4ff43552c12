//! Calls over whole lists: sums place by place, numbers kept within a bound, and the dot product of two lists.
ghost use Rattle.std.specs.Prelude.{◌≡◌, ◌+◌, ◌*◌, IfOk, min, zip};
ghost use Rattle.std.specs.List.{AllZip};
ghost use Rattle.spindle.specs.Folds.{total_of};
ghost use Rattle.spindle_examples.specs.Wrapping.{wrapped};

use spindle::lock::Combine;
use spindle::prelude::*;

/// Adds the two numbers of a pair.
#[derive(Drop)]
pub struct Sum;

impl Kernel for Sum {
    type In = (u32, u32);

    type Out = u64;

    ghost computes = { λ kernel pair sum. sum ≡ pair.0 + pair.1 };

    fn compute(&self, pair: &(u32, u32)) -> u64 {
        u64::from(pair.0) + u64::from(pair.1)
    }
}

/// The sums of two lists, place by place.
pub fn sums<G: Gate + Sync, H: Threads + Wait + Sync>(
    rt: &H,
    alloc: Global,
    pool: &Pool<G>,
    first: Vec<u32>,
    second: Vec<u32>,
) -> Result<Vec<u64>, Fault>
    ensures { IfOk result (λ sums.
        AllZip (λ pair sum. sum ≡ pair.0 + pair.1) (zip first.items second.items) sums.items) }
{
    map_pairs(rt, alloc, pool, &Sum, first, second)
}

/// Lowers a number to a bound.
#[derive(Drop)]
pub struct Bound {
    most: u32,
}

impl Change for Bound {
    type Item = u32;

    ghost changes = { λ kernel old new. new ≡ min old kernel.most };

    fn change(&self, number: &mut u32) {
        *number = (*number).min(self.most);
    }
}

/// The list, with no number above the bound.
pub fn bounded<G: Gate + Sync, H: Threads + Wait + Sync>(
    rt: &H,
    alloc: Global,
    pool: &Pool<G>,
    most: u32,
    list: Vec<u32>,
) -> Result<Vec<u32>, Fault>
    ensures { IfOk result (λ new. AllZip (λ old new. new ≡ min old most) list.items new.items) }
{
    update(rt, alloc, pool, &Bound { most }, list)
}

/// Adds the products of pairs, in 64 bits.
pub struct Products;

impl Combine for Products {
    ghost use Rattle.std.proofs.Common.{arith};

    type Item = (u32, u32);

    type Total = u64;

    ghost neutral = { 0 };

    ghost of = { λ pair. pair.0 * pair.1 };

    ghost combine = { λ x y. wrapped (x + y) };

    fn neutral() -> u64 {
        0
    }

    fn of(pair: &(u32, u32)) -> u64 {
        u64::from(pair.0) * u64::from(pair.1)
    }

    fn combine(first: u64, second: u64) -> u64 {
        first.wrapping_add(second)
    }

    ghost associative = { λ x y z. Prim.omega arith };

    ghost is_neutral = { (Prim.omega arith, λ x y. Prim.omega arith) };
}

/// The dot product of two lists, in 64 bits.
pub fn dot<G: Gate + Sync, H: Threads + Wait + Sync>(
    rt: &H,
    alloc: Global,
    pool: &Pool<G>,
    first: &SharedList<u32>,
    second: &SharedList<u32>,
) -> Result<u64, Fault>
    ensures { let products = zip first.now second.now in
        IfOk result (λ dot.
        dot ≡ total_of (λ x y. wrapped (x + y)) 0 (λ pair. pair.0 * pair.1) products) }
{
    reduce_pairs::<_, _, Products>(rt, alloc, pool, 0, first, second)
}
