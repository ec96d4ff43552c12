//! A kind of job: what goes in, what comes out, and the relation between the two.
ghost use Rattle.std.specs.Prelude.{◌≡◌, ◌↔◌, IsTrue, true};
ghost use denote.Param.Send.{IsSync};

use crate::prelude::*;

pub mod context;
pub mod gate;
pub mod nest;
pub mod update;

/// A kind of job. It stands where spindle takes a closure that the threads of a lock call.
///
/// A kind of job has no value at run time: what `run` needs beside its context stands in the input.
pub trait Job {
    /// What a job is given. A round lends its items to other threads as runs of one list, and compares what comes back
    /// with what it handed out, so a comparison ought to be cheap. No item is cloned; `Clone` is for code that is
    /// generic in the job.
    type In: Clone + Eq + Drop;

    /// What a job answers. A job that can fail says so here.
    type Out: Drop;

    /// Which locks a job may open: `End` for none, `Under<K>` for locks over jobs of kind K.
    type Inner: Nest;

    /// The relation between an input and its output.
    ghost meets: { Self.In → Self.Out → Type 0 };

    /// Which outputs may be told as failures: none, where a kind of job doesn't say.
    ghost fails: { Self.Out → Type 0 } = { λ _. ⊥ };

    /// Runs a job. It meets the relation whatever its context is.
    fn run<H: Threads + Wait + Sync>(
        rt: &H,
        alloc: Global,
        input: &Self::In,
        cx: &mut JobCx<Self::Inner>,
    ) -> Self::Out
        requires { IsSync H.row }
        ensures { meets input.now result };

    /// Whether an output is a failure, which stops a round that may stop. No other round asks.
    fn failed(_output: &Self::Out) -> bool
        ensures { result ≡ true → fails _output.now }
    {
        false
    }

    /// Equal inputs are the same value.
    ghost equal_is_same: { (x y : Self.In) → Self.In.eq x y ≡ true → x ≡ y };
}

/// A kind of job that tells each of its failures. `failed` alone may be silent: a kind that doesn't write it has it from the trait.
pub trait TellsFailures: Job {
    /// Whether an output is a failure. Where `failed` is written with this clause, it is `Self::failed`.
    fn is_failure(output: &Self::Out) -> bool
        ensures { IsTrue result ↔ Self.Job.fails output.now };
}
