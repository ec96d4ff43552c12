//! Folding a list: each job folds a piece of it, and the caller's thread folds what they answer.
ghost use Rattle.std.specs.Prelude.{◌≡◌, IfOk, IsOk, OnErr, IsErrOf, fold, length, map};
ghost use Rattle.spindle.specs.Folds.{IsAssociative, IsNeutral, total_of};

use crate::kernels::{PIECES, Source, parts_of};
use crate::prelude::*;
use std::marker::PhantomData;

/// An operation that makes one total of a list, and may be done chunk by chunk.
pub trait Combine {
    /// What the list holds.
    type Item: Drop;

    /// What comes of it.
    type Total: Drop;

    /// The total of no items.
    ghost neutral: { Self.Total };

    /// The total of one item.
    ghost of: { Self.Item → Self.Total };

    /// The total of two lists, one behind the other, by their totals.
    ghost combine: { Self.Total → Self.Total → Self.Total };

    /// The total of no items.
    fn neutral() -> Self::Total
        ensures { result ≡ neutral };

    /// The total of one item.
    fn of(item: &Self::Item) -> Self::Total
        ensures { result ≡ of item.now };

    /// The total of two lists, one behind the other, by their totals.
    fn combine(first: Self::Total, second: Self::Total) -> Self::Total
        ensures { result ≡ combine first second };

    /// In whichever groups totals are combined, the outcome is the same.
    ghost associative: { IsAssociative combine };

    /// The total of no items changes nothing behind another.
    ghost is_neutral: { IsNeutral combine neutral };
}

/// A piece of a list, and its total.
#[derive(Drop)]
pub struct Part<S, U> {
    source: S,
    total: U,
}

/// The kind of job that folds pieces by the operation C.
pub struct Folds<C, S> {
    kind: PhantomData<(C, S)>,
}

impl<C: Combine, S: Source<Item = C::Item>> Update for Folds<C, S> {
    type Item = Part<S, C::Total>;

    type Inner = End;

    ghost updated = { λ old new.
        new.total ≡ total_of C.combine C.neutral C.of (S.items old.source) };

    fn run<H: Threads + Wait + Sync>(
        _rt: &H,
        _alloc: Global,
        part: Part<S, C::Total>,
        _cx: &mut JobCx<End>,
    ) -> Part<S, C::Total> {
        let Part { source, .. } = part;
        let total = source.total::<C>();
        Part { source, total }
    }
}

/// The total of a list by the operation C: one round of `n_jobs` jobs, each of which folds a piece, in a lock that is opened for
/// it. The caller's thread combines what the jobs answer, in the order of the pieces. Where `n_jobs` is 0, there are four jobs for
/// each of the pool's threads. Memory is the only refusal.
///
/// The pieces are those of `share_out_evenly`, and the lock is that of `update_one`. An empty list takes no memory and opens no lock.
pub fn reduce<C: Combine + Send>(
    rt: &(impl Threads + Wait + Sync),
    alloc: Global,
    pool: &Pool<impl Gate + Sync>,
    n_jobs: usize,
    list: &SharedList<C::Item>,
) -> Result<C::Total, Fault>
where
    C::Item: Send + Sync,
    C::Total: Send,
    ensures answer { IfOk result (λ total. total ≡ total_of C.combine C.neutral C.of list.now) }
    ensures memory { OnErr result (IsErrOf result Fault.Memory) }
    ensures empty { length list.now ≡ 0 → IsOk result }
{
    if list.is_empty() {
        return Ok(C::neutral());
    }
    let run = list.run(0, list.len())?;
    reduce_once::<C, _, _, _>(rt, alloc, pool, n_jobs, &run)
}

/// The same over any source.
pub(crate) fn reduce_once<
    C: Combine + Send,
    S: Source<Item = C::Item> + Send,
    G: Gate + Sync,
    H: Threads + Wait + Sync,
>(rt: &H, alloc: Global, pool: &Pool<G>, n_jobs: usize, source: &S) -> Result<C::Total, Fault>
where
    C::Item: Send + Sync,
    C::Total: Send,
    ensures answer { IfOk result (λ total.
        total ≡ total_of C.combine C.neutral C.of (S.items source.now)) }
    ensures memory { OnErr result (IsErrOf result Fault.Memory) }
{
    let jobs = if n_jobs == 0 {
        pool.max_num_threads().saturating_mul(PIECES)
    } else {
        n_jobs
    };
    let parts = fold_parts::<C, S>(alloc, parts_of(alloc, source, jobs)?)?;
    let parts = update_one::<InPlace<Folds<C, S>>, G, H>(rt, alloc, pool, jobs, parts)?;
    Ok(combined::<C, S>(parts))
}

// The pieces, whose totals are to come.
pub(crate) fn fold_parts<C: Combine, S: Drop>(
    alloc: Global,
    sources: Vec<S>,
) -> Result<Vec<Part<S, C::Total>>, AllocError>
    ensures { IfOk result (λ parts. map (λ part. part.source) parts.items ≡ sources.items) }
{
    let mut parts = Vec::with_capacity(alloc, sources.len())?;
    for source in sources {
        let total = C::neutral();
        parts.push_reserved(Part { source, total });
    }
    Ok(parts)
}

// The totals of pieces, one behind the other, as one.
pub(crate) fn combined<C: Combine, S: Drop>(parts: Vec<Part<S, C::Total>>) -> C::Total
    ensures { result ≡ fold C.combine C.neutral (map (λ part. part.total) parts.items) }
{
    let mut all = C::neutral();
    for part in parts {
        let Part { total, .. } = part;
        all = C::combine(all, total);
    }
    all
}
