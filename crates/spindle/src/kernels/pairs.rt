//! Two lists item by item, as pairs, without a list of pairs.
ghost use Rattle.std.specs.Prelude.{◌≡◌, IfOk, IsOk, OnErr, IsErrOf, length, min, vec_len, zip};
ghost use Rattle.std.specs.List.{AllZip};
ghost use Rattle.spindle.specs.Folds.{total_of};

use crate::kernels::maps::map_once;
use crate::kernels::source::Source;
use crate::lock::{Combine, reduce_once};
use crate::prelude::*;

/// The pairs of two runs, as far as both go. No list of pairs is made.
#[derive(Drop)]
pub struct PairRun<A, B> {
    pub(crate) first: ListRun<A>,
    pub(crate) second: ListRun<B>,
}

impl<A: Drop, B: Drop> PairRun<A, B> {
    /// The pairs of two lists, as far as both go.
    pub fn new(first: &SharedList<A>, second: &SharedList<B>) -> Result<PairRun<A, B>, AllocError>
        ensures { IfOk result (λ run. zip run.first run.second ≡ zip first.now second.now) }
    {
        let len = first.len().min(second.len());
        let first = first.run(0, len)?;
        let second = second.run(0, len)?;
        Ok(PairRun { first, second })
    }
}

impl<A: Copy + Drop, B: Copy + Drop> Source for PairRun<A, B> {
    type Item = (A, B);

    ghost items = { λ run. zip run.first run.second };

    fn count(&self) -> usize {
        self.first.len().min(self.second.len())
    }

    fn part(&self, from: usize, to: usize) -> Result<PairRun<A, B>, AllocError> {
        let first = self.first.run(from, to)?;
        let second = self.second.run(from, to)?;
        Ok(PairRun { first, second })
    }

    fn compute_each<K: Kernel<In = (A, B)>>(&self, kernel: &K, outputs: &mut Vec<K::Out>) {
        let first = self.first.as_slice();
        let second = self.second.as_slice();
        for i in 0..first.len().min(second.len()) {
            outputs.push_reserved(kernel.compute(&(first[i], second[i])));
        }
    }

    fn total<C: Combine<Item = (A, B)>>(&self) -> C::Total {
        let first = self.first.as_slice();
        let second = self.second.as_slice();
        let mut total = C::neutral();
        for i in 0..first.len().min(second.len()) {
            total = C::combine(total, C::of(&(first[i], second[i])));
        }
        total
    }
}

/// What the kernel computes of each pair of items, in their order, as far as both lists go: as `map`, without a list of pairs.
pub fn map_pairs<
    A,
    B,
    K: Kernel<In = (A, B)> + Send + Sync,
    G: Gate + Sync,
    H: Threads + Wait + Sync,
>(
    rt: &H,
    alloc: Global,
    pool: &Pool<G>,
    kernel: &K,
    first: Vec<A>,
    second: Vec<B>,
) -> Result<Vec<K::Out>, Fault>
where
    A: Copy + Drop + Send + Sync,
    B: Copy + Drop + Send + Sync,
    K::Out: Send,
    ensures answer { IfOk result (λ outputs.
        AllZip (K.computes kernel.now) (zip first.items second.items) outputs.items) }
    ensures memory { OnErr result (IsErrOf result Fault.Memory) }
    ensures empty { min (vec_len first) (vec_len second) ≡ 0 → IsOk result }
{
    let len = first.len().min(second.len());
    if len == 0 {
        return Ok(Vec::new(alloc));
    }
    let first = SharedList::from_vec(alloc, first)?;
    let second = SharedList::from_vec(alloc, second)?;
    let pairs = PairRun::new(&first, &second)?;
    map_once(rt, alloc, pool, kernel, &pairs)
}

/// The total of the pairs of two lists, as far as both go: as `reduce`, without a list of pairs.
pub fn reduce_pairs<A, B, C: Combine<Item = (A, B)> + Send>(
    rt: &(impl Threads + Wait + Sync),
    alloc: Global,
    pool: &Pool<impl Gate + Sync>,
    n_jobs: usize,
    first: &SharedList<A>,
    second: &SharedList<B>,
) -> Result<C::Total, Fault>
where
    A: Copy + Drop + Send + Sync,
    B: Copy + Drop + Send + Sync,
    C::Total: Send,
    ensures answer { IfOk result (λ total.
        total ≡ total_of C.combine C.neutral C.of (zip first.now second.now)) }
    ensures memory { OnErr result (IsErrOf result Fault.Memory) }
    ensures empty { min (length first.now) (length second.now) ≡ 0 → IsOk result }
{
    let len = first.len().min(second.len());
    if len == 0 {
        return Ok(C::neutral());
    }
    let pairs = PairRun::new(first, second)?;
    reduce_once::<C, _, _, _>(rt, alloc, pool, n_jobs, &pairs)
}
