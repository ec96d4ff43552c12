//! Passes over a list in place, until all values have settled. The values stand in strips, whose lists stay for all passes.
ghost use Rattle.std.specs.Prelude.{◌≡◌, ◌<◌, IfOk, IsOk, OnErr, IsErrOf, false, true, vec_len};
ghost use denote.Param.Send.{IsSync};
ghost use Rattle.spindle.specs.Passes.{HavePassed};

use crate::kernels::held::Again;
use crate::kernels::passing::Passing;
use crate::kernels::tasks::PIECES;
use crate::prelude::*;
use spindle_locks::lock::leader::MOST_JOBS;

/// What came of passes over a list.
#[derive(Drop)]
pub struct Passes<V> {
    /// The values after the last pass.
    pub values: Vec<V>,
    /// How many passes there were.
    pub count: usize,
    /// Whether all values have settled in the last one.
    pub settled: bool,
}

/// Passes over the list by the kernel, `most` at most, until all values have settled in one: each a round of one lock, which is opened
/// for them. Before the first value and behind the last stands `edge`. Memory is the only refusal, and gives the list up.
///
/// An empty list has settled after its first pass; it takes no memory, and opens no lock.
pub fn passes_until<'k, K: Stencil + Send + Sync, G: Gate + Sync, H: Threads + Wait + Sync>(
    rt: &H,
    alloc: Global,
    pool: &Pool<G>,
    kernel: &'k K,
    list: Vec<K::Value>,
    edge: K::Value,
    most: usize,
) -> Result<Passes<K::Value>, Fault>
where
    K::Value: Send,
    ensures answer { IfOk result (λ passes. HavePassed (K.becomes kernel.now) (K.settles kernel.now)
        edge most list.items passes.count passes.settled passes.values.items) }
    ensures memory { OnErr result (IsErrOf result Fault.Memory) }
    ensures empty { vec_len list ≡ 0 → IsOk result }
{
    if list.is_empty() {
        return Ok(no_values(list, most));
    }
    passes_in_lock::<&'k K, G, H>(rt, alloc, pool, &kernel, list, edge, most)
}

// The same over some values, in a lock that is opened for them. Its strips have the kernel again.
fn passes_in_lock<K: Stencil + Again + Send, G: Gate + Sync, H: Threads + Wait + Sync>(
    rt: &H,
    alloc: Global,
    pool: &Pool<G>,
    kernel: &K,
    list: Vec<K::Value>,
    edge: K::Value,
    most: usize,
) -> Result<Passes<K::Value>, Fault>
where
    K::Value: Send,
    ensures answer { IfOk result (λ passes. HavePassed (K.becomes kernel.now) (K.settles kernel.now)
        edge most list.items passes.count passes.settled passes.values.items) }
    ensures memory { OnErr result (IsErrOf result Fault.Memory) }
{
    let threads = pool.max_num_threads();
    let slots = threads
        .saturating_mul(PIECES)
        .min(list.len().max(1).min(MOST_JOBS));
    LockOf::<InPlace<Passing<K>>>::with_slots_in_place(
        rt,
        alloc,
        pool,
        threads,
        slots,
        |leader| -> Result<Passes<K::Value>, Fault>
            requires { IsSync H.row }
            ensures answer { IfOk result (λ passes.
                HavePassed (K.becomes kernel.entry.now) (K.settles kernel.entry.now)
                edge most list.items passes.count passes.settled passes.values.items) }
            ensures memory { OnErr result (IsErrOf result Fault.Memory) }
        { leader.passes_until(rt, alloc, kernel, list, edge, most) },
    )?
}

// What came of passes over an empty list.
fn no_values<V>(values: Vec<V>, most: usize) -> Passes<V>
    ensures values { result.values ≡ values }
    ensures none { most ≡ 0 → (result.count ≡ 0) × (result.settled ≡ false) }
    ensures one { 0 < most → (result.count ≡ 1) × (result.settled ≡ true) }
{
    Passes {
        values,
        count: most.min(1),
        settled: 0 < most,
    }
}
