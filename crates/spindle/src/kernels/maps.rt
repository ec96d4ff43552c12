//! What a kernel computes of each item of a list. A job has a run of the list, and room for what it computes: it takes no memory.
ghost use Rattle.std.specs.Prelude.{◌≡◌, ◌<◌, ◌≤◌, ◌++◌, [], IfOk, IsOk, OnOk, OnErr, IsErrOf, All, map, length, vec_len, vec_capacity};
ghost use Rattle.std.specs.List.{AllZip};
ghost use Rattle.spindle_parts.specs.Pieces.{joined};
ghost use Rattle.spindle.specs.Kernels.{IsOfKernel};

use crate::kernels::held::Again;
use crate::kernels::source::{Source, parts_of};
use crate::kernels::tasks::{PIECES, Task, append_list};
use crate::prelude::*;
use std::marker::PhantomData;
use std::mem;

/// A piece of a list, and what is computed of it.
#[derive(Drop)]
pub struct Run<S: Source, U> {
    pub(crate) source: S,
    pub(crate) outputs: Vec<U>,
    ghost room: { length (S.items source) ≤ vec_capacity outputs },
}

impl<S: Source, U: Drop> Run<S, U> {
    // The piece, with a list that has room for what is computed of it, and for so many outputs at least.
    fn new(source: S, mut outputs: Vec<U>, room: usize) -> Result<Run<S, U>, AllocError>
        ensures { IfOk result (λ run. run.source ≡ source) }
    {
        outputs.clear();
        outputs.reserve(source.count().max(room))?;
        Ok(Run { source, outputs })
    }

    // The piece, with what the kernel computes of it.
    fn computed<K: Kernel<In = S::Item, Out = U>>(self, kernel: &K) -> Run<S, U>
        ensures { AllZip (K.computes kernel.now) (S.items self.source) result.outputs.items }
    {
        let Run {
            source,
            mut outputs,
        } = self;
        outputs.clear();
        source.compute_each::<K>(kernel, &mut outputs);
        Run { source, outputs }
    }
}

/// The kind of job that computes pieces.
pub struct Mapping<K, S> {
    kind: PhantomData<(K, S)>,
}

impl<K: Kernel + Drop, S: Source<Item = K::In>> Update for Mapping<K, S> {
    type Item = Task<K, Run<S, K::Out>>;

    type Inner = End;

    ghost updated = { λ old new.
        AllZip (K.computes old.kernel) (S.items old.part.source) new.part.outputs.items };

    fn run<H: Threads + Wait + Sync>(
        _rt: &H,
        _alloc: Global,
        task: Task<K, Run<S, K::Out>>,
        _cx: &mut JobCx<End>,
    ) -> Task<K, Run<S, K::Out>> {
        let Task { kernel, part } = task;
        let part = part.computed::<K>(&kernel);
        Task { kernel, part }
    }
}

/// What the kernel computes of each item, in the order of the items: one round in a lock that is opened for it. Memory is the only
/// refusal. An empty list takes none, and opens no lock.
pub fn map<K: Kernel + Send + Sync, G: Gate + Sync, H: Threads + Wait + Sync>(
    rt: &H,
    alloc: Global,
    pool: &Pool<G>,
    kernel: &K,
    list: Vec<K::In>,
) -> Result<Vec<K::Out>, Fault>
where
    K::In: Send + Sync,
    K::Out: Send,
    ensures answer { IfOk result (λ outputs.
        AllZip (K.computes kernel.now) list.items outputs.items) }
    ensures memory { OnErr result (IsErrOf result Fault.Memory) }
    ensures empty { vec_len list ≡ 0 → IsOk result }
{
    if list.is_empty() {
        return Ok(Vec::new(alloc));
    }
    let len = list.len();
    let list = SharedList::from_vec(alloc, list)?.run(0, len)?;
    map_once(rt, alloc, pool, kernel, &list)
}

/// What `map` answers, left in the pieces that were computed apart, which one behind the other are its list. No output is moved, and
/// the lists that `pieces` holds serve again, so long lists take a fraction of the time of `map`. Memory is the only refusal, and
/// gives these lists up. An empty list takes none.
pub fn map_into<K: Kernel + Send + Sync, G: Gate + Sync, H: Threads + Wait + Sync>(
    rt: &H,
    alloc: Global,
    pool: &Pool<G>,
    kernel: &K,
    list: Vec<K::In>,
    pieces: &mut Vec<Vec<K::Out>>,
) -> Result<(), Fault>
where
    K::In: Send + Sync,
    K::Out: Send,
    ensures answer { OnOk result (AllZip (K.computes kernel.now)
        list.items (joined (map (λ piece. piece.items) pieces.new.items))) }
    ensures given_up { OnErr result (pieces.new.items ≡ []) }
    ensures memory { OnErr result (IsErrOf result Fault.Memory) }
    ensures empty { vec_len list ≡ 0 → IsOk result }
{
    let mut lists = mem::replace(pieces, Vec::new(alloc));
    if list.is_empty() {
        return Ok(());
    }
    let len = list.len();
    lists.reserve(pool.max_num_threads().saturating_mul(PIECES).min(len))?;
    let whole = SharedList::from_vec(alloc, list)?.run(0, len)?;
    let tasks = compute_all(rt, alloc, pool, kernel, &whole, &mut lists, 0)?;
    take_outputs(tasks, &mut lists)?;
    *pieces = lists;
    Ok(())
}

/// What `map` answers, over any source.
pub(crate) fn map_once<
    K: Kernel + Send + Sync,
    S: Source<Item = K::In> + Send,
    G: Gate + Sync,
    H: Threads + Wait + Sync,
>(rt: &H, alloc: Global, pool: &Pool<G>, kernel: &K, source: &S) -> Result<Vec<K::Out>, Fault>
where
    K::In: Send + Sync,
    K::Out: Send,
    ensures answer { IfOk result (λ outputs.
        AllZip (K.computes kernel.now) (S.items source.now) outputs.items) }
    ensures memory { OnErr result (IsErrOf result Fault.Memory) }
{
    let mut outputs = Vec::new(alloc);
    let len = source.count();
    let tasks = compute_all(rt, alloc, pool, kernel, source, &mut Vec::new(alloc), len)?;
    append_outputs(tasks, &mut outputs)?;
    Ok(outputs)
}

// The source in pieces, with what the kernel computes of each: a round in a lock that is opened for it. The first has room for so many
// outputs at least. The lists are used up.
fn compute_all<
    'k,
    K: Kernel + Send + Sync,
    S: Source<Item = K::In> + Send,
    G: Gate + Sync,
    H: Threads + Wait + Sync,
>(
    rt: &H,
    alloc: Global,
    pool: &Pool<G>,
    kernel: &'k K,
    source: &S,
    lists: &mut Vec<Vec<K::Out>>,
    room: usize,
) -> Result<Vec<Task<&'k K, Run<S, K::Out>>>, Fault>
where
    K::In: Send + Sync,
    K::Out: Send,
    ensures answer { IfOk result (λ tasks. AllZip (K.computes kernel.now)
        (S.items source.now) (joined (map (λ task. task.part.outputs.items) tasks.items))) }
    ensures used { OnOk result (lists.new.items ≡ []) }
    ensures memory { OnErr result (IsErrOf result Fault.Memory) }
{
    let jobs = pool.max_num_threads().saturating_mul(PIECES);
    let parts = parts_of(alloc, source, jobs)?;
    let tasks = map_tasks(alloc, &kernel, parts, lists, room)?;
    let tasks = update_one::<InPlace<Mapping<&'k K, S>>, G, H>(rt, alloc, pool, jobs, tasks)?;
    Ok(tasks)
}

// The parts, each with the kernel and with room for what is computed of it, in one of the lists where there are any: a part has the same
// list round after round, so that its thread may have it at hand. The first has room for so many outputs at least, so that its list can
// take those of the others. The list of lists keeps its room.
pub(crate) fn map_tasks<K: Again, S: Source, U: Drop>(
    alloc: Global,
    kernel: &K,
    parts: Vec<S>,
    lists: &mut Vec<Vec<U>>,
    room: usize,
) -> Result<Vec<Task<K, Run<S, U>>>, AllocError>
    ensures parts { IfOk result (λ tasks.
        map (λ task. task.part.source) tasks.items ≡ parts.items) }
    ensures kernel { IfOk result (λ tasks. All (IsOfKernel kernel.now) tasks.items) }
    ensures used { OnOk result (lists.new.items ≡ []) }
{
    let mut tasks = Vec::with_capacity(alloc, parts.len())?;
    lists.reverse();
    for part in parts {
        let kernel = kernel.again()?;
        let list = lists.pop().unwrap_or(Vec::new(alloc));
        let part = Run::new(part, list, if tasks.is_empty() { room } else { 0 })?;
        tasks.push_reserved(Task { kernel, part });
    }
    lists.clear();
    Ok(tasks)
}

// Moves what was computed of all pieces to the end of the list, one behind the other.
pub(crate) fn append_outputs<K: Drop, S: Source, U: Drop>(
    tasks: Vec<Task<K, Run<S, U>>>,
    all: &mut Vec<U>,
) -> Result<(), AllocError>
    ensures { let outputs = joined (map (λ task. task.part.outputs.items) tasks.items) in
        OnOk result (all.new.items ≡ all.old.items ++ outputs) }
{
    for task in tasks {
        let Task { part, .. } = task;
        let Run { outputs, .. } = part;
        append_list(outputs, all)?;
    }
    Ok(())
}

// Puts what was computed of each piece at the end of a list of pieces, which has room for them, else takes it.
pub(crate) fn take_outputs<K: Drop, S: Source, U: Drop>(
    tasks: Vec<Task<K, Run<S, U>>>,
    pieces: &mut Vec<Vec<U>>,
) -> Result<(), AllocError>
    requires none { pieces.old.items ≡ [] }
    ensures { OnOk result (map (λ piece. piece.items) pieces.new.items
        ≡ map (λ task. task.part.outputs.items) tasks.items) }
{
    pieces.reserve(tasks.len())?;
    for task in tasks {
        let Task { part, .. } = task;
        pieces.push_reserved(part.outputs);
    }
    Ok(())
}
