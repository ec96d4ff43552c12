//! What pieces read: a run of a list. (`pairs` has runs of two lists.)
ghost use Rattle.std.specs.Prelude.{◌≡◌, ◌<◌, ◌≤◌, [], List, IfOk, OnErr, IsErrOf, map, length, slice_range, vec_capacity};
ghost use Rattle.std.specs.List.{AllZip};
ghost use Rattle.spindle_parts.specs.Pieces.{joined, total};
ghost use Rattle.spindle.specs.Folds.{total_of};

use crate::lock::Combine;
use crate::prelude::*;
use spindle_parts::cut::piece_lengths;

/// Items in an order, which may be cut, and are computed one by one.
pub trait Source: Drop {
    /// An item.
    type Item: Drop;

    /// The items.
    ghost items: { Self → List Self.Item };

    /// How many items there are.
    fn count(&self) -> usize
        ensures { result ≡ length (items self.now) };

    /// The items from one place up to another, the end not included.
    fn part(&self, from: usize, to: usize) -> Result<Self, AllocError>
        requires in_order { from ≤ to }
        requires in_list { to ≤ length (items self.now) }
        ensures { IfOk result (λ part. items part ≡ slice_range (items self.now) from to) };

    /// Puts what the kernel computes of each item into an empty list, which has room for it.
    fn compute_each<K: Kernel<In = Self::Item>>(&self, kernel: &K, outputs: &mut Vec<K::Out>)
        requires empty { outputs.old.items ≡ [] }
        requires room { length (items self.now) ≤ vec_capacity outputs.old }
        ensures outputs { AllZip (K.computes kernel.now) (items self.now) outputs.new.items }
        ensures room { vec_capacity outputs.new ≡ vec_capacity outputs.old };

    /// The total of the items.
    fn total<C: Combine<Item = Self::Item>>(&self) -> C::Total
        ensures { result ≡ total_of C.combine C.neutral C.of (items self.now) };
}

impl<T: Drop> Source for ListRun<T> {
    type Item = T;

    ghost items = { λ run. run };

    fn count(&self) -> usize {
        self.len()
    }

    fn part(&self, from: usize, to: usize) -> Result<ListRun<T>, AllocError> {
        self.run(from, to)
    }

    fn compute_each<K: Kernel<In = T>>(&self, kernel: &K, outputs: &mut Vec<K::Out>) {
        let items = self.as_slice();
        for item in items {
            outputs.push_reserved(kernel.compute(item));
        }
    }

    fn total<C: Combine<Item = T>>(&self) -> C::Total {
        let items = self.as_slice();
        let mut total = C::neutral();
        for item in items {
            total = C::combine(total, C::of(item));
        }
        total
    }
}

/// The items in so many parts, or in as many as there are items where these are fewer. The lengths are those of `cut`.
pub(crate) fn parts_of<S: Source>(alloc: Global, source: &S, pieces: usize) -> Result<Vec<S>, Fault>
    requires { 0 < pieces }
    ensures joined { IfOk result (λ parts. joined (map S.items parts.items) ≡ S.items source.now) }
    ensures memory { OnErr result (IsErrOf result Fault.Memory) }
{
    let lengths = piece_lengths(alloc, source.count(), pieces)?;
    share_out(alloc, source, lengths.as_slice())
}

// The items in parts of these lengths.
fn share_out<S: Source>(alloc: Global, source: &S, lengths: &[usize]) -> Result<Vec<S>, Fault>
    requires whole { total lengths.now ≡ length (S.items source.now) }
    ensures joined { IfOk result (λ parts. joined (map S.items parts.items) ≡ S.items source.now) }
    ensures memory { OnErr result (IsErrOf result Fault.Memory) }
{
    let len = source.count();
    let mut parts = Vec::with_capacity(alloc, lengths.len())?;
    let mut from = 0;
    for length in lengths {
        let to = from + (*length).min(len - from);
        parts.push_reserved(source.part(from, to)?);
        from = to;
    }
    Ok(parts)
}
