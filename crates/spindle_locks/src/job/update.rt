//! A kind of job that is given its item by value, and answers what becomes of it.
ghost use Rattle.std.specs.Prelude.{IsSome};
ghost use Rattle.std.specs.Option.{ForSome};
ghost use Rattle.std.proofs.Common.{refl};
ghost use denote.Param.Send.{IsSync};

use crate::prelude::*;
use std::marker::PhantomData;

/// A kind of job that updates items. It stands where spindle takes a closure that writes through a reference to its own item.
///
/// Like a kind of `Job` it has no value at run time: what `run` needs beside its context stands in the item.
pub trait Update {
    /// What a job is given, and what it answers.
    type Item: Drop;

    /// Which locks a job may open: `End` for none, `Under<K>` for locks over jobs of kind K.
    type Inner: Nest;

    /// The relation between an item and what becomes of it.
    ghost updated: { Self.Item → Self.Item → Type 0 };

    /// Updates an item. It meets the relation whatever its context is.
    fn run<H: Threads + Wait + Sync>(
        rt: &H,
        alloc: Global,
        item: Self::Item,
        cx: &mut JobCx<Self::Inner>,
    ) -> Self::Item
        requires { IsSync H.row }
        ensures { updated item result };
}

/// The kind of job that stands for a kind M of updating where a lock asks for one. As a job it is given nothing and answers nothing;
/// what it does in place is what M does.
pub struct InPlace<M> {
    kind: PhantomData<M>,
}

/// The kinds of jobs that update items: `InPlace<M>` for each M.
pub trait Updates: Job {
    /// What is updated.
    type Item: Drop;

    /// The relation between an item and what becomes of it.
    ghost updated: { Self.Item → Self.Item → Type 0 };

    /// Updates the item, which it takes.
    fn update<H: Threads + Wait + Sync>(
        rt: &H,
        alloc: Global,
        item: &mut Option<Self::Item>,
        cx: &mut JobCx<Self::Inner>,
    ) -> Self::Item
        requires sync { IsSync H.row }
        requires there { IsSome item.old }
        ensures { ForSome item.old (λ old. updated old result) };
}

impl<M: Update> Job for InPlace<M> {
    type In = ();

    type Out = ();

    type Inner = M::Inner;

    ghost meets = { λ input output. Unit {0} };

    fn run<H: Threads + Wait + Sync>(
        _rt: &H,
        _alloc: Global,
        _input: &(),
        _cx: &mut JobCx<M::Inner>,
    ) {}

    ghost equal_is_same = { λ x y e. refl };
}

impl<M: Update> Updates for InPlace<M> {
    type Item = M::Item;

    ghost updated = { M.updated };

    fn update<H: Threads + Wait + Sync>(
        rt: &H,
        alloc: Global,
        item: &mut Option<M::Item>,
        cx: &mut JobCx<M::Inner>,
    ) -> M::Item {
        let Some(item) = item.take() else {
            unreachable!()
        };
        M::run(rt, alloc, item, cx)
    }
}
