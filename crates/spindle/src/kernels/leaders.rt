//! Calls over whole lists in a lock that stays open: round after round by one leader, whose kernel its lists share.
ghost use Rattle.std.specs.Prelude.{◌≡◌, ◌<◌, ◌≤◌, [], IfOk, OnOk, OnErr, IsErrOf, map};
ghost use Rattle.spindle.specs.Folds.{total_of};
ghost use Rattle.spindle.specs.Passes.{HavePassed};
ghost use Rattle.spindle.specs.Tries.{IsTried};
ghost use Rattle.std.specs.List.{AllZip};
ghost use Rattle.spindle_parts.specs.Pieces.{joined};
ghost use Rattle.spindle.specs.SlotLeaders.{threads_of, lock_slots};

use crate::kernels::dividing::{Branch, Dividing, answers_to};
use crate::kernels::held::Again;
use crate::kernels::maps::{Mapping, Run, append_outputs, map_tasks, take_outputs};
use crate::kernels::passing::{Passing, append_strips, play_passes, strips_of};
use crate::kernels::source::{Source, parts_of};
use crate::kernels::tasks::{Task, tasks_of};
use crate::kernels::tries::{Trying, gathered_trials, trials_of};
use crate::kernels::updates::{Updating, append_items};
use crate::lock::folds::{combined, fold_parts};
use crate::lock::{Combine, Folds};
use crate::prelude::*;
use spindle_parts::cut::cut;
use std::mem;

/// The kind of job of a lock whose leader updates lists by the kernel K, opened by `LockOf::<UpdatesOf<K>>::with_slots_in_place`.
pub type UpdatesOf<K> = InPlace<Updating<Shared<K>>>;

/// The kind of job of a lock whose leader passes over lists by the kernel K, opened by `LockOf::<PassesOf<K>>::with_slots_in_place`.
pub type PassesOf<K> = InPlace<Passing<Shared<K>>>;

impl<'a, K: Change + Again, G: Gate> PlaceLeader<'a, Updating<K>, G> {
    /// Changes each item of the list by the kernel: a round of this lock. A refusal gives the items up.
    pub fn update<H: Threads + Wait + Sync>(
        &mut self,
        rt: &H,
        alloc: Global,
        kernel: &K,
        mut list: Vec<K::Item>,
    ) -> Result<Vec<K::Item>, Fault>
        ensures answer { IfOk result (λ new. AllZip (K.changes kernel.now) list.items new.items) }
        ensures memory { OnErr result (IsErrOf result Fault.Memory) }
        ensures lock { threads_of self.new ≡ threads_of self.old }
        ensures slots { lock_slots self.new ≡ lock_slots self.old }
    {
        let jobs = self.piece_count();
        let mut tasks = tasks_of(alloc, kernel, cut(alloc, &mut list, jobs)?)?;
        self.update_all(rt, alloc, jobs, &mut tasks)?;
        append_items(tasks, &mut list)?;
        Ok(list)
    }
}

impl<'a, K: Stencil + Again, G: Gate> PlaceLeader<'a, Passing<K>, G> {
    /// Passes over the list as `spindle::passes_until` does, each pass a round of this lock. A refusal gives the values up.
    pub fn passes_until<H: Threads + Wait + Sync>(
        &mut self,
        rt: &H,
        alloc: Global,
        kernel: &K,
        mut list: Vec<K::Value>,
        edge: K::Value,
        most: usize,
    ) -> Result<Passes<K::Value>, Fault>
        ensures answer { IfOk result (λ passes.
            HavePassed (K.becomes kernel.now) (K.settles kernel.now)
            edge most list.items passes.count passes.settled passes.values.items) }
        ensures memory { OnErr result (IsErrOf result Fault.Memory) }
        ensures lock { threads_of self.new ≡ threads_of self.old }
        ensures slots { lock_slots self.new ≡ lock_slots self.old }
    {
        let jobs = self.piece_count();
        let mut strips = strips_of(alloc, kernel, cut(alloc, &mut list, jobs)?, edge)?;
        let ended = play_passes::<K, G, H>(rt, alloc, self, &mut strips, edge, most)?;
        append_strips(strips, &mut list)?;
        Ok(Passes {
            values: list,
            count: ended.0,
            settled: ended.1,
        })
    }
}

/// The kind of job of a lock whose leader makes totals of lists by C, opened by `LockOf::<TotalsOf<C>>::with_slots_in_place`.
pub type TotalsOf<C> = InPlace<Folds<C, ListRun<<C as Combine>::Item>>>;

/// The kind of job of a lock whose leader makes totals of the pairs of two lists by C.
pub type PairTotalsOf<A, B, C> = InPlace<Folds<C, PairRun<A, B>>>;

impl<'a, C: Combine, S: Source<Item = C::Item>, G: Gate> PlaceLeader<'a, Folds<C, S>, G> {
    /// The total of a run of a list, or of the pairs of two, as `spindle::reduce` makes it, by a round of this lock.
    pub fn reduce<H: Threads + Wait + Sync>(
        &mut self,
        rt: &H,
        alloc: Global,
        source: &S,
    ) -> Result<C::Total, Fault>
        ensures answer { IfOk result (λ total.
            total ≡ total_of C.combine C.neutral C.of (S.items source.now)) }
        ensures memory { OnErr result (IsErrOf result Fault.Memory) }
        ensures lock { threads_of self.new ≡ threads_of self.old }
        ensures slots { lock_slots self.new ≡ lock_slots self.old }
    {
        let jobs = self.piece_count();
        let mut parts = fold_parts::<C, S>(alloc, parts_of(alloc, source, jobs)?)?;
        self.update_all(rt, alloc, jobs, &mut parts)?;
        Ok(combined::<C, S>(parts))
    }
}

/// The kind of job of a lock whose leader computes lists by the kernel K, opened by `LockOf::<MapsOf<K>>::with_slots_in_place`.
pub type MapsOf<K> = InPlace<Mapping<Shared<K>, ListRun<<K as Kernel>::In>>>;

/// The kind of job of a lock whose leader computes the pairs of two lists by the kernel K.
pub type PairMapsOf<A, B, K> = InPlace<Mapping<Shared<K>, PairRun<A, B>>>;

impl<'a, K, S, G> PlaceLeader<'a, Mapping<K, S>, G>
where
    K: Kernel + Again,
    S: Source<Item = K::In>,
    G: Gate,
{
    /// What the kernel computes of each item of a run of a list, or of each pair of two, as `spindle::map` does, by a round of this
    /// lock.
    pub fn map<H: Threads + Wait + Sync>(
        &mut self,
        rt: &H,
        alloc: Global,
        kernel: &K,
        source: &S,
    ) -> Result<Vec<K::Out>, Fault>
        ensures answer { IfOk result (λ outputs.
            AllZip (K.computes kernel.now) (S.items source.now) outputs.items) }
        ensures memory { OnErr result (IsErrOf result Fault.Memory) }
        ensures lock { threads_of self.new ≡ threads_of self.old }
        ensures slots { lock_slots self.new ≡ lock_slots self.old }
    {
        let mut outputs = Vec::new(alloc);
        let len = source.count();
        let tasks = self.compute_all(rt, alloc, kernel, source, &mut Vec::new(alloc), len)?;
        append_outputs(tasks, &mut outputs)?;
        Ok(outputs)
    }

    /// What `map` answers, left in the pieces that were computed apart, as `spindle::map_into` leaves it. Round after round the same
    /// lists serve.
    pub fn map_into<H: Threads + Wait + Sync>(
        &mut self,
        rt: &H,
        alloc: Global,
        kernel: &K,
        source: &S,
        pieces: &mut Vec<Vec<K::Out>>,
    ) -> Result<(), Fault>
        ensures answer { OnOk result (AllZip (K.computes kernel.now)
            (S.items source.now) (joined (map (λ piece. piece.items) pieces.new.items))) }
        ensures given_up { OnErr result (pieces.new.items ≡ []) }
        ensures memory { OnErr result (IsErrOf result Fault.Memory) }
        ensures lock { threads_of self.new ≡ threads_of self.old }
        ensures slots { lock_slots self.new ≡ lock_slots self.old }
    {
        let mut lists = mem::replace(pieces, Vec::new(alloc));
        lists.reserve(self.piece_count())?;
        let tasks = self.compute_all(rt, alloc, kernel, source, &mut lists, 0)?;
        take_outputs(tasks, &mut lists)?;
        *pieces = lists;
        Ok(())
    }

    // The source in pieces, with what the kernel computes of each: a round of this lock. The first has
    // room for so many outputs at least. The lists are used up.
    fn compute_all<H: Threads + Wait + Sync>(
        &mut self,
        rt: &H,
        alloc: Global,
        kernel: &K,
        source: &S,
        lists: &mut Vec<Vec<K::Out>>,
        room: usize,
    ) -> Result<Vec<Task<K, Run<S, K::Out>>>, Fault>
        ensures answer { IfOk result (λ tasks. AllZip (K.computes kernel.now)
            (S.items source.now) (joined (map (λ task. task.part.outputs.items) tasks.items))) }
        ensures used { OnOk result (lists.new.items ≡ []) }
        ensures memory { OnErr result (IsErrOf result Fault.Memory) }
        ensures lock { threads_of self.new ≡ threads_of self.old }
        ensures slots { lock_slots self.new ≡ lock_slots self.old }
    {
        let jobs = self.piece_count();
        let parts = parts_of(alloc, source, jobs)?;
        let mut tasks = map_tasks(alloc, kernel, parts, lists, room)?;
        self.update_all(rt, alloc, jobs, &mut tasks)?;
        Ok(tasks)
    }
}

/// The kind of job of a lock whose leader tries lists by the kernel K, opened by `LockOf::<TriesOf<K, V, E>>::with_slots_in_place`.
pub type TriesOf<K, V, E> = InPlace<Trying<Shared<K>, V, E>>;

impl<'a, V, E, K, G> PlaceLeader<'a, Trying<K, V, E>, G>
where
    V: Drop,
    E: Drop,
    K: Kernel<Out = Result<V, E>> + Again,
    G: Gate,
{
    /// What the kernel computes of each item of a run of a list, or the first failure, as `spindle::try_map` does, by a round of this
    /// lock.
    pub fn try_map<H: Threads + Wait + Sync>(
        &mut self,
        rt: &H,
        alloc: Global,
        kernel: &K,
        run: &ListRun<K::In>,
    ) -> Result<Result<Vec<V>, Failed<V, E>>, Fault>
        ensures answer { IfOk result (λ tried. IsTried (K.computes kernel.now) run.now tried) }
        ensures memory { OnErr result (IsErrOf result Fault.Memory) }
        ensures lock { threads_of self.new ≡ threads_of self.old }
        ensures slots { lock_slots self.new ≡ lock_slots self.old }
    {
        let jobs = self.piece_count();
        let mut tasks = trials_of(alloc, kernel, parts_of(alloc, run, jobs)?, run.len())?;
        self.update_all(rt, alloc, jobs, &mut tasks)?;
        let tried = gathered_trials(kernel, tasks, Vec::new(alloc))?;
        Ok(tried)
    }
}

/// The kind of job of a lock whose leader divides problems by the kernel K, opened by
/// `LockOf::<DivisionsOf<K>>::with_slots_in_place`.
pub type DivisionsOf<K> = InPlace<Dividing<Shared<K>>>;

impl<'a, K: Division + Again, G: Gate> PlaceLeader<'a, Dividing<K>, G> {
    /// The answer to a problem, as `spindle::divide` makes it, by rounds of this lock. A problem that the kernel doesn't split takes no
    /// memory.
    pub fn divide<H: Threads + Wait + Sync>(
        &mut self,
        rt: &H,
        alloc: Global,
        kernel: &K,
        problem: K::Problem,
    ) -> Result<K::Answer, Fault>
        ensures answer { IfOk result (K.solves kernel.now problem) }
        ensures memory { OnErr result (IsErrOf result Fault.Memory) }
        ensures lock { threads_of self.new ≡ threads_of self.old }
        ensures slots { lock_slots self.new ≡ lock_slots self.old }
    {
        let root = match kernel.split(problem) {
            Split::Whole(problem) => return Ok(kernel.solve(problem)),
            Split::Parts(first, second) => Branch::Parts(first, second),
        };
        let levels = self.piece_count().ilog2();
        let mut branches = Vec::new(alloc);
        branches.push(root)?;
        let mut answers = answers_to::<K, G, H>(rt, alloc, self, kernel, levels, branches)?;
        match answers.pop() {
            Some(Some(answer)) => Ok(answer),
            _ => unreachable!(),
        }
    }
}
