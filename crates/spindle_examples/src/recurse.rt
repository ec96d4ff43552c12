//! What kinds of jobs that evaluate a board of Chomp have in common, and the one that does so by itself, in plain recursion.
ghost use Rattle.std.proofs.Common.{rules};
ghost use Rattle.spindle_examples.specs.Chomp.{IsEvaluation};

use crate::chomp::Board;
use spindle::prelude::*;

/// The kinds of jobs that evaluate a board.
pub trait Evaluates: Job<In = Board, Out = Result<bool, Fault>> {
    /// What a job may answer is an evaluation of its board.
    ghost evaluates: { (board : _) (answer : _) → Self.meets board answer → IsEvaluation board answer };
}

/// Evaluates a board in plain recursion.
pub struct Recurse;

impl Job for Recurse {
    type In = Board;

    type Out = Result<bool, Fault>;

    type Inner = End;

    ghost meets = { IsEvaluation };

    fn run<H: Threads + Wait + Sync>(
        _rt: &H,
        _alloc: Global,
        board: &Board,
        _cx: &mut JobCx<End>,
    ) -> Result<bool, Fault> {
        Ok(board.is_won())
    }

    ghost equal_is_same = { Prim.search rules };
}

impl Evaluates for Recurse {
    ghost evaluates = { λ board answer said. said };
}
