//! Lists outside a lock: a closure at each item, on threads that start with the call and end before it returns.
//!
//! The threads are `rayon`'s. It halves a list into at most two pieces for each processor, 64 in all, and starts a
//! thread for each half that it splits off. Starting them costs tens to hundreds of microseconds at each call. So
//! these calls are for a few long jobs, here and there; who runs round after round, or short jobs, opens a lock,
//! which keeps its threads.
//!
//! No call takes a `Wait`, since `rayon` joins the threads that it starts. Closures that wait for each other must be no
//! more than run side by side.
ghost use Rattle.std.specs.Prelude.{◌≡◌, ◌<◌, All, IfOk, OnErr, IsOk, IsErrOf, vec_len};
ghost use Rattle.std.specs.List.{AllZip};
ghost use Rattle.spindle_parts.specs.Pieces.{counted};

use crate::prelude::*;
use rayon::prelude::*;

/// What `f` answers to each item, in the order of the items.
///
/// With a pool of one thread all is run in the calling thread, in order; else as many items run side by side as
/// the machine has processors, up to 64. `n_jobs` cuts nothing: no answer depends on it. It stands for `for_each` of
/// spindle outside a lock. Inside a lock it does the same, beside the lock's threads.
pub fn for_each<T: Send + Drop, U: Send + Drop, G: Gate, F: Fn(T) -> U + Sync, H: Threads + Sync>(
    rt: &H,
    alloc: Global,
    pool: &Pool<G>,
    n_jobs: usize,
    items: Vec<T>,
    f: F,
) -> Result<Vec<U>, Fault>
    requires jobs { 0 < vec_len items → 0 < n_jobs }
    requires callable { All (F.pre f) items.items }
    ensures answer { IfOk result (λ outputs. AllZip (F.post f) items.items outputs.items) }
    ensures length { IfOk result (λ outputs. vec_len outputs ≡ vec_len items) }
    ensures memory { OnErr result (IsErrOf result Fault.Memory) }
    ensures empty { vec_len items ≡ 0 → IsOk result }
{
    if items.is_empty() {
        return Ok(Vec::new(alloc));
    }
    let items = items.into_par_iter().with_min_len(least_piece(pool));
    Ok(items.map(&f).collect(rt, alloc)?)
}

/// What `f` answers to each number from 0 up to `n_jobs`, the end not included, in their order.
///
/// It runs them as `for_each` runs items. It stands for `for_each_raw` of spindle outside a lock.
pub fn for_each_raw<U: Send + Drop, G: Gate, F: Fn(usize) -> U + Sync, H: Threads + Sync>(
    rt: &H,
    alloc: Global,
    pool: &Pool<G>,
    n_jobs: usize,
    f: F,
) -> Result<Vec<U>, Fault>
    requires callable { All (F.pre f) (counted 0 n_jobs) }
    ensures answer { IfOk result (λ outputs. AllZip (F.post f) (counted 0 n_jobs) outputs.items) }
    ensures length { IfOk result (λ outputs. vec_len outputs ≡ n_jobs) }
    ensures memory { OnErr result (IsErrOf result Fault.Memory) }
    ensures empty { n_jobs ≡ 0 → IsOk result }
{
    if n_jobs == 0 {
        return Ok(Vec::new(alloc));
    }
    let numbers = (0..n_jobs).into_par_iter().with_min_len(least_piece(pool));
    Ok(numbers.map(&f).collect(rt, alloc)?)
}

// How few items may have a thread of their own: one, since an item may be a long job; a pool of one thread splits no
// list.
fn least_piece<G: Gate>(pool: &Pool<G>) -> usize {
    if pool.max_num_threads() > 1 {
        1
    } else {
        usize::MAX
    }
}
