//! A game evaluated by nested rounds: a job is given a board of Chomp, and has the boards that bites leave of it evaluated by a round
//! of its own, over jobs of the kind below it. So a caller says by the kind how deep rounds nest: `Evaluate<Evaluate<Recurse>>` has
//! locks at the first three bites of a game, and plain recursion from there on.
ghost use Rattle.std.specs.Prelude.{◌≡◌, IfOk};
ghost use Rattle.std.specs.List.{AllZip};
ghost use Rattle.std.proofs.Common.{rules};
ghost use Rattle.spindle_examples.specs.Chomp.{replies_to, winning_bites, IsEvaluation};

use crate::chomp::Board;
pub use crate::recurse::{Evaluates, Recurse};
use spindle::lock::Nest;
use spindle::prelude::*;
use std::marker::PhantomData;

/// Evaluates a board by a round over what bites leave of it, whose jobs are of kind K.
pub struct Evaluate<K> {
    kind: PhantomData<K>,
}

impl<K: Evaluates> Job for Evaluate<K> {
    type In = Board;

    type Out = Result<bool, Fault>;

    type Inner = Under<K>;

    ghost meets = { IsEvaluation };

    fn run<H: Threads + Wait + Sync>(
        rt: &H,
        alloc: Global,
        board: &Board,
        cx: &mut JobCx<Under<K>>,
    ) -> Result<bool, Fault> {
        let replies = board.replies(alloc)?;
        let jobs = replies.len();
        let answers = cx.for_each(rt, alloc, jobs, replies)?;
        let bites = lost_after::<K>(alloc, *board, answers)?;
        Ok(!bites.is_empty())
    }

    ghost equal_is_same = { Prim.search rules };
}

impl<K: Evaluates> Evaluates for Evaluate<K> {
    ghost evaluates = { λ board answer said. said };
}

/// The squares at which a bite wins, by a round over what each bite leaves, whose jobs are of kind K.
pub fn won_by<K: Evaluates + Send, G: Gate + Sync, H: Threads + Wait + Sync>(
    rt: &H,
    alloc: Global,
    pool: &Pool<G>,
    board: Board,
) -> Result<Vec<usize>, Fault>
where
    K::Inner: Send,
    <K::Inner as Nest>::ChildSlots: Send + Sync,
    ensures { IfOk result (λ bites. bites.items ≡ winning_bites board) }
{
    let replies = board.replies(alloc)?;
    let jobs = replies.len();
    let answers = run_one::<K>(rt, alloc, pool, jobs, replies)?;
    lost_after::<K>(alloc, board, answers)
}

// The bites after which the other one has lost, where jobs of kind K answered this of what each leaves.
fn lost_after<K: Evaluates>(
    alloc: Global,
    board: Board,
    answers: Vec<Result<bool, Fault>>,
) -> Result<Vec<usize>, Fault>
    requires { AllZip K.meets (replies_to board) answers.items }
    ensures { IfOk result (λ bites. bites.items ≡ winning_bites board) }
{
    let mut bites = Vec::new(alloc);
    let mut square = 1;
    for answer in answers {
        if !answer? {
            bites.push(square)?;
        }
        square += 1;
    }
    Ok(bites)
}
