//! Lists that a kernel changes in place. A job has a piece of the list, and takes no memory.
ghost use Rattle.std.specs.Prelude.{◌≡◌, ◌<◌, ◌++◌, IfOk, IsOk, OnOk, OnErr, IsErrOf, map, vec_len};
ghost use Rattle.std.specs.List.{AllZip};
ghost use Rattle.spindle_parts.specs.Pieces.{joined};

use crate::kernels::tasks::{PIECES, Task, tasks_of};
use crate::prelude::*;
use spindle_parts::cut::{Piece, cut};
use std::marker::PhantomData;

/// The kind of job that changes the items of pieces.
pub struct Updating<K> {
    kind: PhantomData<K>,
}

impl<K: Change + Drop> Update for Updating<K> {
    type Item = Task<K, Piece<K::Item>>;

    type Inner = End;

    ghost updated = { λ old new.
        AllZip (K.changes old.kernel) old.part.items.items new.part.items.items };

    fn run<H: Threads + Wait + Sync>(
        _rt: &H,
        _alloc: Global,
        task: Task<K, Piece<K::Item>>,
        _cx: &mut JobCx<End>,
    ) -> Task<K, Piece<K::Item>> {
        let Task { kernel, part } = task;
        let Piece { number, mut items } = part;
        change_each::<K>(&kernel, &mut items);
        let part = Piece { number, items };
        Task { kernel, part }
    }
}

/// Changes each item of the list.
pub(crate) fn change_each<K: Change>(kernel: &K, items: &mut Vec<K::Item>)
    ensures { AllZip (K.changes kernel.now) items.old.items items.new.items }
{
    for item in items.iter_mut() {
        kernel.change(item);
    }
}

/// The list, each item changed by the kernel: one round in a lock that is opened for it. Memory is the only refusal, and gives the
/// list up. An empty list takes none, and opens no lock.
pub fn update<'k, K: Change + Send + Sync, G: Gate + Sync, H: Threads + Wait + Sync>(
    rt: &H,
    alloc: Global,
    pool: &Pool<G>,
    kernel: &'k K,
    mut list: Vec<K::Item>,
) -> Result<Vec<K::Item>, Fault>
where
    K::Item: Send,
    ensures answer { IfOk result (λ new. AllZip (K.changes kernel.now) list.items new.items) }
    ensures memory { OnErr result (IsErrOf result Fault.Memory) }
    ensures empty { vec_len list ≡ 0 → IsOk result }
{
    if list.is_empty() {
        return Ok(list);
    }
    let jobs = pool.max_num_threads().saturating_mul(PIECES);
    let tasks = tasks_of(alloc, &kernel, cut(alloc, &mut list, jobs)?)?;
    let tasks = update_one::<InPlace<Updating<&'k K>>, G, H>(rt, alloc, pool, jobs, tasks)?;
    append_items(tasks, &mut list)?;
    Ok(list)
}

// Moves the items of all pieces to the end of the list, one behind the other.
pub(crate) fn append_items<K: Drop, T: Drop>(
    tasks: Vec<Task<K, Piece<T>>>,
    list: &mut Vec<T>,
) -> Result<(), AllocError>
    ensures { let items = joined (map (λ task. task.part.items.items) tasks.items) in
        OnOk result (list.new.items ≡ list.old.items ++ items) }
{
    for task in tasks {
        let Task { part, .. } = task;
        let Piece { mut items, .. } = part;
        list.append(&mut items)?;
    }
    Ok(())
}
