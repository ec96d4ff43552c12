//! Computing each item of a list where one may fail. A job computes its piece up to its first failure, so the first failure of the
//! first piece that has one is the first of the list.
ghost use Rattle.std.specs.Prelude.{◌≡◌, ◌<◌, ◌≤◌, ◌++◌, [], None, IfOk, IsOk, OnErr, IsErrOf, All, map, length, vec_len, vec_capacity};
ghost use Rattle.spindle_parts.specs.Pieces.{joined};
ghost use Rattle.spindle.specs.Kernels.{IsOfKernel};
ghost use Rattle.spindle.specs.Tries.{AreUpTo, IsTried};

use crate::kernels::held::Again;
use crate::kernels::source::parts_of;
use crate::kernels::tasks::{PIECES, Task, append_list};
use crate::prelude::*;
use std::marker::PhantomData;

/// Where a list failed.
#[derive(Debug, Drop)]
pub struct Failed<V, E> {
    /// The place of the first item that failed, from 0.
    pub place: usize,
    /// Its failure.
    pub failure: E,
    /// The values of the items before it.
    pub before: Vec<V>,
}

/// A piece of a list, with room for its values, and its first failure.
#[derive(Drop)]
pub struct Trial<T: Drop, V, E> {
    pub(crate) run: ListRun<T>,
    pub(crate) values: Vec<V>,
    pub(crate) failure: Option<E>,
    ghost room: { length run ≤ vec_capacity values },
}

impl<T: Drop, V: Drop, E: Drop> Trial<T, V, E> {
    // The piece, with room for its values, and for so many at least.
    fn new(alloc: Global, run: ListRun<T>, room: usize) -> Result<Trial<T, V, E>, AllocError>
        ensures { IfOk result (λ trial. trial.run ≡ run) }
    {
        let values = Vec::with_capacity(alloc, run.len().max(room))?;
        Ok(Trial {
            run,
            values,
            failure: None,
        })
    }

    // The piece, with its values up to its first failure.
    fn tried<K: Kernel<In = T, Out = Result<V, E>>>(self, kernel: &K) -> Trial<T, V, E>
        ensures run { result.run ≡ self.run }
        ensures tried { AreUpTo (K.computes kernel.now)
            result.run result.values.items result.failure }
    {
        let Trial {
            run,
            mut values,
            ..
        } = self;
        values.clear();
        let failure = try_each::<T, V, E, K>(kernel, run.as_slice(), &mut values);
        Trial {
            run,
            values,
            failure,
        }
    }
}

// Puts the values of the items up to the first failure into an empty list, which has room for them, and answers the failure.
fn try_each<T, V: Drop, E: Drop, K: Kernel<In = T, Out = Result<V, E>>>(
    kernel: &K,
    items: &[T],
    values: &mut Vec<V>,
) -> Option<E>
    requires empty { values.old.items ≡ [] }
    requires room { length items.now ≤ vec_capacity values.old }
    ensures values { AreUpTo (K.computes kernel.now) items.now values.new.items result }
    ensures room { vec_capacity values.new ≡ vec_capacity values.old }
{
    for item in items {
        match kernel.compute(item) {
            Ok(value) => values.push_reserved(value),
            Err(failure) => return Some(failure),
        }
    }
    None
}

/// The kind of job that computes pieces up to their first failure.
pub struct Trying<K, V, E> {
    kind: PhantomData<(K, V, E)>,
}

impl<V: Drop, E: Drop, K: Kernel<Out = Result<V, E>> + Drop> Update for Trying<K, V, E> {
    type Item = Task<K, Trial<K::In, V, E>>;

    type Inner = End;

    ghost updated = { λ old new. (new.part.run ≡ old.part.run)
        × AreUpTo (K.computes old.kernel) new.part.run new.part.values.items new.part.failure };

    fn run<H: Threads + Wait + Sync>(
        _rt: &H,
        _alloc: Global,
        task: Task<K, Trial<K::In, V, E>>,
        _cx: &mut JobCx<End>,
    ) -> Task<K, Trial<K::In, V, E>> {
        let Task { kernel, part } = task;
        let part = part.tried::<K>(&kernel);
        Task { kernel, part }
    }
}

/// What the kernel computes of each item, in the order of the items, where it fails at none; else the first failure in the list, with
/// its place and the values before it. One round in a lock that is opened for it. Memory is the only refusal. An empty list takes
/// none, and opens no lock.
///
/// Each piece of the list is computed up to its first failure; no piece stops another.
pub fn try_map<
    'k,
    V: Drop + Send,
    E: Drop + Send,
    K: Kernel<Out = Result<V, E>> + Send + Sync,
    G: Gate + Sync,
    H: Threads + Wait + Sync,
>(
    rt: &H,
    alloc: Global,
    pool: &Pool<G>,
    kernel: &'k K,
    list: Vec<K::In>,
) -> Result<Result<Vec<V>, Failed<V, E>>, Fault>
where
    K::In: Send + Sync,
    ensures answer { IfOk result (λ tried. IsTried (K.computes kernel.now) list.items tried) }
    ensures memory { OnErr result (IsErrOf result Fault.Memory) }
    ensures empty { vec_len list ≡ 0 → IsOk result }
{
    if list.is_empty() {
        return Ok(Ok(Vec::new(alloc)));
    }
    let len = list.len();
    let list = SharedList::from_vec(alloc, list)?.run(0, len)?;
    try_run(rt, alloc, pool, kernel, &list)
}

// The same over a run.
fn try_run<
    'k,
    V: Drop + Send,
    E: Drop + Send,
    K: Kernel<Out = Result<V, E>> + Send + Sync,
    G: Gate + Sync,
    H: Threads + Wait + Sync,
>(
    rt: &H,
    alloc: Global,
    pool: &Pool<G>,
    kernel: &'k K,
    run: &ListRun<K::In>,
) -> Result<Result<Vec<V>, Failed<V, E>>, Fault>
where
    K::In: Send + Sync,
    ensures answer { IfOk result (λ tried. IsTried (K.computes kernel.now) run.now tried) }
    ensures memory { OnErr result (IsErrOf result Fault.Memory) }
{
    let jobs = pool.max_num_threads().saturating_mul(PIECES);
    let tasks = trials_of(alloc, &kernel, parts_of(alloc, run, jobs)?, run.len())?;
    let tasks = update_one::<InPlace<Trying<&'k K, V, E>>, G, H>(rt, alloc, pool, jobs, tasks)?;
    let tried = gathered_trials(&kernel, tasks, Vec::new(alloc))?;
    Ok(tried)
}

// The runs, each with the kernel and with room for its values. The first has room for `all` values,
// so that its list can take those of the others.
pub(crate) fn trials_of<K: Again, T: Drop, V: Drop, E: Drop>(
    alloc: Global,
    kernel: &K,
    runs: Vec<ListRun<T>>,
    all: usize,
) -> Result<Vec<Task<K, Trial<T, V, E>>>, AllocError>
    ensures runs { IfOk result (λ tasks. map (λ task. task.part.run) tasks.items ≡ runs.items) }
    ensures kernel { IfOk result (λ tasks. All (IsOfKernel kernel.now) tasks.items) }
{
    let mut tasks = Vec::with_capacity(alloc, runs.len())?;
    for run in runs {
        let kernel = kernel.again()?;
        let room = if tasks.is_empty() { all } else { 0 };
        let part = Trial::new(alloc, run, room)?;
        tasks.push_reserved(Task { kernel, part });
    }
    Ok(tasks)
}

// The values of all runs that were tried by the kernel, up to the first failure.
pub(crate) fn gathered_trials<V: Drop, E: Drop, K: Kernel<Out = Result<V, E>> + Drop>(
    _kernel: &K,
    tasks: Vec<Task<K, Trial<K::In, V, E>>>,
    mut values: Vec<V>,
) -> Result<Result<Vec<V>, Failed<V, E>>, AllocError>
    requires none { values.items ≡ [] }
    requires tried { All (λ task. AreUpTo (K.computes _kernel.now)
        task.part.run task.part.values.items task.part.failure) tasks.items }
    ensures { let items = joined (map (λ task. task.part.run) tasks.items) in
        IfOk result (λ tried. IsTried (K.computes _kernel.now) items tried) }
{
    for task in tasks {
        let Task { part, .. } = task;
        let Trial {
            values: own,
            failure,
            ..
        } = part;
        append_list(own, &mut values)?;
        match failure {
            None => {}
            Some(failure) => {
                let place = values.len();
                return Ok(Err(Failed {
                    place,
                    failure,
                    before: values,
                }));
            }
        }
    }
    Ok(Ok(values))
}
