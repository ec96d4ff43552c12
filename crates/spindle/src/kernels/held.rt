//! How pieces of a list hold their kernel: each has a reference to it, or shares it. Both are kernels too.
ghost use Rattle.std.specs.Prelude.{◌≡◌, IfOk};

use crate::kernels::{Change, Division, Kernel, Split, Stencil};
use std::alloc::{AllocError, Global};
use std::marker::Model;
use std::sync::Arc;

/// A value that each piece of a list may have.
pub trait Again: Drop {
    /// The same value once more.
    fn again(&self) -> Result<Self, AllocError>
        ensures { IfOk result (λ other. other ≡ self.now) };
}

impl<'k, K> Again for &'k K {
    fn again(&self) -> Result<&'k K, AllocError> {
        Ok(*self)
    }
}

impl<'k, K: Kernel> Kernel for &'k K {
    type In = K::In;

    type Out = K::Out;

    ghost computes = { λ kernel item output. K.computes kernel.now item output };

    fn compute(&self, item: &K::In) -> K::Out {
        let kernel: &K = *self;
        kernel.compute(item)
    }
}

impl<'k, K: Change> Change for &'k K {
    type Item = K::Item;

    ghost changes = { λ kernel old new. K.changes kernel.now old new };

    fn change(&self, item: &mut K::Item) {
        let kernel: &K = *self;
        kernel.change(item);
    }
}

impl<'k, K: Stencil> Stencil for &'k K {
    type Value = K::Value;

    ghost becomes = { λ kernel before here behind. K.becomes kernel.now before here behind };

    ghost settles = { λ kernel old new. K.settles kernel.now old new };

    fn value(&self, before: K::Value, here: K::Value, behind: K::Value) -> K::Value {
        let kernel: &K = *self;
        kernel.value(before, here, behind)
    }

    fn has_settled(&self, old: K::Value, new: K::Value) -> bool {
        let kernel: &K = *self;
        kernel.has_settled(old, new)
    }
}

impl<'k, K: Division> Division for &'k K {
    type Problem = K::Problem;

    type Answer = K::Answer;

    ghost solves = { λ kernel problem answer. K.solves kernel.now problem answer };

    ghost splits = { λ kernel problem first second. K.splits kernel.now problem first second };

    fn split(&self, problem: K::Problem) -> Split<K::Problem> {
        let kernel: &K = *self;
        kernel.split(problem)
    }

    fn solve(&self, problem: K::Problem) -> K::Answer {
        let kernel: &K = *self;
        kernel.solve(problem)
    }

    fn join(&self, first: K::Answer, second: K::Answer) -> K::Answer {
        let kernel: &K = *self;
        kernel.join(first, second)
    }
}

/// A kernel that rounds of a lock share. Contracts know it as the kernel.
#[derive(Drop)]
pub struct Shared<K> {
    kernel: Arc<K>,
}

impl<K> Model for Shared<K> {
    ghost use Rattle.std.specs.Arc.{arc_value};

    ghost Value = { K };

    ghost view = { λ shared. arc_value shared.kernel };
}

impl<K: Drop> Shared<K> {
    /// The kernel, to be shared.
    pub fn new(alloc: Global, kernel: K) -> Result<Shared<K>, AllocError>
        ensures { IfOk result (λ shared. shared ≡ kernel) }
    {
        let kernel = Arc::new(alloc, kernel)?;
        Ok(Shared { kernel })
    }
}

impl<K: Drop> Again for Shared<K> {
    fn again(&self) -> Result<Shared<K>, AllocError> {
        let kernel = self.kernel.clone()?;
        Ok(Shared { kernel })
    }
}

impl<K: Kernel> Kernel for Shared<K> {
    type In = K::In;

    type Out = K::Out;

    ghost computes = { K.computes };

    fn compute(&self, item: &K::In) -> K::Out {
        (*self.kernel).compute(item)
    }
}

impl<K: Change> Change for Shared<K> {
    type Item = K::Item;

    ghost changes = { K.changes };

    fn change(&self, item: &mut K::Item) {
        (*self.kernel).change(item);
    }
}

impl<K: Stencil> Stencil for Shared<K> {
    type Value = K::Value;

    ghost becomes = { K.becomes };

    ghost settles = { K.settles };

    fn value(&self, before: K::Value, here: K::Value, behind: K::Value) -> K::Value {
        (*self.kernel).value(before, here, behind)
    }

    fn has_settled(&self, old: K::Value, new: K::Value) -> bool {
        (*self.kernel).has_settled(old, new)
    }
}

impl<K: Division> Division for Shared<K> {
    type Problem = K::Problem;

    type Answer = K::Answer;

    ghost solves = { K.solves };

    ghost splits = { K.splits };

    fn split(&self, problem: K::Problem) -> Split<K::Problem> {
        (*self.kernel).split(problem)
    }

    fn solve(&self, problem: K::Problem) -> K::Answer {
        (*self.kernel).solve(problem)
    }

    fn join(&self, first: K::Answer, second: K::Answer) -> K::Answer {
        (*self.kernel).join(first, second)
    }
}
