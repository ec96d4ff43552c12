//! What a job of a call over a list is given: the kernel, and a part of the list.
ghost use Rattle.std.specs.Prelude.{◌≡◌, ◌++◌, IfOk, OnOk, All, map};
ghost use Rattle.spindle.specs.Kernels.{IsOfKernel};

use crate::kernels::held::Again;
use std::alloc::{AllocError, Global};

/// So many pieces a thread.
pub(crate) const PIECES: usize = 4;

/// A kernel, and what it works on.
#[derive(Drop)]
pub struct Task<K, P> {
    pub(crate) kernel: K,
    pub(crate) part: P,
}

// The parts, each with the kernel.
pub(crate) fn tasks_of<K: Again, P: Drop>(
    alloc: Global,
    kernel: &K,
    parts: Vec<P>,
) -> Result<Vec<Task<K, P>>, AllocError>
    ensures parts { IfOk result (λ tasks. map (λ task. task.part) tasks.items ≡ parts.items) }
    ensures kernel { IfOk result (λ tasks. All (IsOfKernel kernel.now) tasks.items) }
{
    let mut tasks = Vec::with_capacity(alloc, parts.len())?;
    for part in parts {
        let kernel = kernel.again()?;
        tasks.push_reserved(Task { kernel, part });
    }
    Ok(tasks)
}

// Moves a list to the end of another. In place of an empty one the list itself stands, with its room.
pub(crate) fn append_list<T: Drop>(mut list: Vec<T>, all: &mut Vec<T>) -> Result<(), AllocError>
    ensures { OnOk result (all.new.items ≡ all.old.items ++ list.items) }
{
    if all.is_empty() {
        *all = list;
        return Ok(());
    }
    all.append(&mut list)
}

// The parts, without the kernel.
pub(crate) fn parts_in<K: Drop, P: Drop>(
    alloc: Global,
    tasks: Vec<Task<K, P>>,
) -> Result<Vec<P>, AllocError>
    ensures { IfOk result (λ parts. parts.items ≡ map (λ task. task.part) tasks.items) }
{
    let mut parts = Vec::new(alloc);
    for task in tasks {
        parts.push(task.part)?;
    }
    Ok(parts)
}
