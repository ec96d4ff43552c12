//! What came of a round that may stop.
ghost use Rattle.std.specs.Prelude.{◌≡◌, ◌↔◌, [], IfOk, IfSome, IsNone, IsTrue, OnErr, IsErrOf};
ghost use Rattle.std.specs.List.{Any};
ghost use Rattle.spindle_locks.specs.Reports.{AreFailed, IsFirstFailed, IsOfNone, NoneFailed, outputs_of};

use crate::job::TellsFailures;
use crate::prelude::*;

/// The pieces of a round that may stop: those that ran, each with its number and its outputs, and the numbers of those that
/// were skipped, since one that ran failed.
///
/// Numbers count the pieces from 0, as `cut` cuts the items. Both lists ascend by them.
#[derive(Drop)]
pub struct Report<T> {
    /// The pieces that ran: a number, and an output for each item of that piece.
    pub ran: Vec<(usize, Vec<T>)>,
    /// The numbers of the pieces that didn't.
    pub skipped: Vec<usize>,
}

impl<T: Drop> Report<T> {
    /// A report of no pieces, for `try_for_each_into`. Takes no memory.
    pub fn new(alloc: Global) -> Report<T>
        ensures { IsOfNone result }
    {
        Report {
            ran: Vec::new(alloc),
            skipped: Vec::new(alloc),
        }
    }

    /// Whether no piece was skipped.
    pub fn all_ran(&self) -> bool
        ensures { IsTrue result ↔ (self.now.skipped.items ≡ []) }
    {
        self.skipped.is_empty()
    }

    /// The number of the first piece that has failed: one of its outputs is a failure.
    pub fn first_failed<J: TellsFailures<Out = T>>(&self) -> Option<usize>
        ensures first { IfSome result (IsFirstFailed J.fails self.now.ran.items) }
        ensures none { IsNone result ↔ NoneFailed J.fails self.now.ran.items }
    {
        for piece in &self.ran {
            if has_failed::<J>(piece.1.as_slice()) {
                return Some(piece.0);
            }
        }
        None
    }

    /// The numbers of the pieces that have failed, in their order. The list grows only where there are such.
    pub fn failed<J: TellsFailures<Out = T>>(&self, alloc: Global) -> Result<Vec<usize>, Fault>
        ensures numbers { IfOk result (λ numbers. AreFailed J.fails self.now.ran.items numbers.items) }
        ensures memory { OnErr result (IsErrOf result Fault.Memory) }
    {
        let mut numbers = Vec::new(alloc);
        for piece in &self.ran {
            if has_failed::<J>(piece.1.as_slice()) {
                numbers.push(piece.0)?;
            }
        }
        Ok(numbers)
    }

    /// The outputs of the pieces that ran, in order. Where none was skipped there is one for each item of the round.
    pub fn into_outputs(self, alloc: Global) -> Result<Vec<T>, Fault>
        ensures outputs { IfOk result (λ outputs. outputs.items ≡ outputs_of self.ran.items) }
        ensures memory { OnErr result (IsErrOf result Fault.Memory) }
    {
        let mut all = Vec::new(alloc);
        for piece in self.ran {
            let (_, mut outputs) = piece;
            all.append(&mut outputs)?;
        }
        Ok(all)
    }
}

// Whether one of a piece's outputs is a failure.
fn has_failed<J: TellsFailures>(outputs: &[J::Out]) -> bool
    ensures { IsTrue result ↔ Any J.fails outputs.now }
{
    for output in outputs {
        if J::is_failure(output) {
            return true;
        }
    }
    false
}
