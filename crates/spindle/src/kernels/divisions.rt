//! Divide and conquer in one call: level by level, in rounds of one lock.
ghost use Rattle.std.specs.Prelude.{◌≡◌, ◌<◌, IfOk, OnErr, IsErrOf};
ghost use Rattle.std.specs.List.{AllZip};
ghost use denote.Param.Send.{IsSync};
ghost use Rattle.spindle.specs.Divisions.{Allows};

use crate::kernels::dividing::{Branch, Dividing, answers_to};
use crate::kernels::held::Again;
use crate::kernels::tasks::PIECES;
use crate::prelude::*;
use spindle_locks::lock::leader::MOST_JOBS;

/// The answer to a problem that the kernel divides: it is split level by level, until there are some parts a thread; these are solved;
/// and answers are joined level by level. Each level is a round of one lock, which is opened for them, so splits, solutions and
/// joins run side by side. Memory is the only refusal.
///
/// A problem that the kernel doesn't split is solved by the caller's thread; that takes no memory, and opens no lock.
pub fn divide<'k, K: Division + Send + Sync, G: Gate + Sync, H: Threads + Wait + Sync>(
    rt: &H,
    alloc: Global,
    pool: &Pool<G>,
    kernel: &'k K,
    problem: K::Problem,
) -> Result<K::Answer, Fault>
where
    K::Problem: Send,
    K::Answer: Send,
    ensures answer { IfOk result (K.solves kernel.now problem) }
    ensures memory { OnErr result (IsErrOf result Fault.Memory) }
{
    let root = match kernel.split(problem) {
        Split::Whole(problem) => return Ok(kernel.solve(problem)),
        Split::Parts(first, second) => Branch::Parts(first, second),
    };
    let mut branches = Vec::new(alloc);
    branches.push(root)?;
    let mut answers = answers_in_lock::<&'k K, G, H>(rt, alloc, pool, &kernel, branches)?;
    match answers.pop() {
        Some(Some(answer)) => Ok(answer),
        _ => unreachable!(),
    }
}

// The answers to branches, in a lock that is opened for their rounds. Its tasks have the kernel again.
fn answers_in_lock<K: Division + Again + Send, G: Gate + Sync, H: Threads + Wait + Sync>(
    rt: &H,
    alloc: Global,
    pool: &Pool<G>,
    kernel: &K,
    branches: Vec<Branch<K::Problem, K::Answer>>,
) -> Result<Vec<Option<K::Answer>>, Fault>
where
    K::Problem: Send,
    K::Answer: Send,
    ensures answers { IfOk result (λ answers. AllZip
        (Allows (K.solves kernel.now) (K.splits kernel.now)) branches.items answers.items) }
    ensures memory { OnErr result (IsErrOf result Fault.Memory) }
{
    let threads = pool.max_num_threads();
    let slots = threads.saturating_mul(PIECES).min(MOST_JOBS);
    let levels = slots.ilog2();
    LockOf::<InPlace<Dividing<K>>>::with_slots_in_place(
        rt,
        alloc,
        pool,
        threads,
        slots,
        |leader| -> Result<Vec<Option<K::Answer>>, Fault>
            requires { IsSync H.row }
            ensures answers { IfOk result (λ answers. AllZip (Allows
                (K.solves kernel.entry.now) (K.splits kernel.entry.now))
                branches.items answers.items) }
            ensures memory { OnErr result (IsErrOf result Fault.Memory) }
        { answers_to::<K, G, H>(rt, alloc, leader, kernel, levels, branches) },
    )?
}
