//! A problem that is divided level by level: in a round the branches of a level are split, and in another, once their parts have been
//! answered, they are answered.
ghost use Rattle.std.specs.Prelude.{◌≡◌, ◌<◌, ◌++◌, ◌/◌, IfOk, OnErr, IsErrOf, drop, length, map, take};
ghost use Rattle.std.specs.List.{AllZip, zip};
ghost use denote.Param.Send.{IsSync};
ghost use Rattle.spindle.specs.Divisions.{first_of, second_of, joined_at, Allows, LeadsTo};
ghost use Rattle.spindle.specs.SlotLeaders.{threads_of, lock_slots};

use crate::kernels::held::Again;
use crate::kernels::tasks::{Task, parts_in, tasks_of};
use crate::prelude::*;
use std::marker::PhantomData;

/// What a problem has become on the way to its answer.
#[derive(Drop)]
pub enum Branch<P, A> {
    /// A problem that nobody has split yet.
    Whole(P),
    /// It was split into these two.
    Parts(P, P),
    /// These answer the two.
    Answers(A, A),
    /// This answers it.
    Answered(A),
    /// There is no problem: the second part of one that was not split.
    Nothing,
}

impl<P: Drop, A: Drop> Branch<P, A> {
    // The answer, where there is a problem.
    fn answer<K: Division<Problem = P, Answer = A>>(self, kernel: &K) -> Option<A>
        ensures { Allows (K.solves kernel.now) (K.splits kernel.now) self result }
    {
        match self {
            Branch::Whole(problem) => Some(kernel.solve(problem)),
            Branch::Parts(first, second) => {
                let first = kernel.solve(first);
                let second = kernel.solve(second);
                Some(kernel.join(first, second))
            }
            Branch::Answers(first, second) => Some(kernel.join(first, second)),
            Branch::Answered(answer) => Some(answer),
            Branch::Nothing => None,
        }
    }

    // Its two parts, or itself and nothing.
    fn parts(self) -> (Branch<P, A>, Branch<P, A>)
        ensures { result ≡ (first_of self, second_of self) }
    {
        match self {
            Branch::Parts(first, second) => (Branch::Whole(first), Branch::Whole(second)),
            branch => (branch, Branch::Nothing),
        }
    }

    // What it becomes by what answers its parts.
    fn joined(first: Option<A>, second: Option<A>) -> Branch<P, A>
        ensures { result ≡ joined_at (first, second) }
    {
        match (first, second) {
            (Some(first), Some(second)) => Branch::Answers(first, second),
            (Some(answer), None) => Branch::Answered(answer),
            (None, _) => Branch::Nothing,
        }
    }

    // A problem is split, or answered where it is small. Anything else is answered.
    fn advanced<K: Division<Problem = P, Answer = A>>(self, kernel: &K) -> Branch<P, A>
        ensures { LeadsTo (K.solves kernel.now) (K.splits kernel.now) self result }
    {
        match self {
            Branch::Whole(problem) => match kernel.split(problem) {
                Split::Whole(problem) => Branch::Answered(kernel.solve(problem)),
                Split::Parts(first, second) => Branch::Parts(first, second),
            },
            branch => match branch.answer::<K>(kernel) {
                Some(answer) => Branch::Answered(answer),
                None => Branch::Nothing,
            },
        }
    }
}

/// The kind of job that takes branches further.
pub struct Dividing<K> {
    kind: PhantomData<K>,
}

impl<K: Division + Drop> Update for Dividing<K> {
    type Item = Task<K, Branch<K::Problem, K::Answer>>;

    type Inner = End;

    ghost updated = { λ old new.
        LeadsTo (K.solves old.kernel) (K.splits old.kernel) old.part new.part };

    fn run<H: Threads + Wait + Sync>(
        _rt: &H,
        _alloc: Global,
        task: Task<K, Branch<K::Problem, K::Answer>>,
        _cx: &mut JobCx<End>,
    ) -> Task<K, Branch<K::Problem, K::Answer>> {
        let Task { kernel, part } = task;
        let part = part.advanced::<K>(&kernel);
        Task { kernel, part }
    }
}

// The first parts of branches that were split, or what else they are; behind them all second parts.
fn opened<P: Drop, A: Drop>(
    alloc: Global,
    branches: Vec<Branch<P, A>>,
) -> Result<Vec<Branch<P, A>>, AllocError>
    ensures { IfOk result (λ parts.
        parts.items ≡ map first_of branches.items ++ map second_of branches.items) }
{
    let mut parts = Vec::new(alloc);
    let mut seconds = Vec::new(alloc);
    for branch in branches {
        let (first, second) = branch.parts();
        parts.push(first)?;
        seconds.push(second)?;
    }
    parts.append(&mut seconds)?;
    Ok(parts)
}

// What branches are, once this answers their first parts, and behind them their second ones.
fn closed<P: Drop, A: Drop>(
    alloc: Global,
    mut answers: Vec<Option<A>>,
) -> Result<Vec<Branch<P, A>>, AllocError>
    ensures { let count = length answers.items / 2 in
        IfOk result (λ branches. branches.items
        ≡ map joined_at (zip (take count answers.items) (drop count answers.items))) }
{
    let seconds = answers.split_off(answers.len() / 2)?;
    let mut branches = Vec::new(alloc);
    for (first, second) in answers.into_iter().zip(seconds) {
        branches.push(Branch::joined(first, second))?;
    }
    Ok(branches)
}

// What answers each branch.
fn answers_of<K: Division>(
    alloc: Global,
    kernel: &K,
    branches: Vec<Branch<K::Problem, K::Answer>>,
) -> Result<Vec<Option<K::Answer>>, AllocError>
    ensures { IfOk result (λ answers. AllZip
        (Allows (K.solves kernel.now) (K.splits kernel.now)) branches.items answers.items) }
{
    let mut answers = Vec::new(alloc);
    for branch in branches {
        answers.push(branch.answer::<K>(kernel))?;
    }
    Ok(answers)
}

// One round over branches.
fn advance_all<K: Division + Again, G: Gate, H: Threads + Wait + Sync>(
    rt: &H,
    alloc: Global,
    leader: &mut PlaceLeader<'_, Dividing<K>, G>,
    kernel: &K,
    branches: Vec<Branch<K::Problem, K::Answer>>,
) -> Result<Vec<Branch<K::Problem, K::Answer>>, Fault>
    requires { IsSync H.row }
    ensures advanced { IfOk result (λ new. AllZip
        (LeadsTo (K.solves kernel.now) (K.splits kernel.now)) branches.items new.items) }
    ensures memory { OnErr result (IsErrOf result Fault.Memory) }
    ensures lock { threads_of leader.new ≡ threads_of leader.old }
    ensures slots { lock_slots leader.new ≡ lock_slots leader.old }
{
    let mut tasks = tasks_of(alloc, kernel, branches)?;
    let jobs = tasks.len();
    leader.update_all(rt, alloc, jobs, &mut tasks)?;
    Ok(parts_in(alloc, tasks)?)
}

// The answers to branches, by one round.
fn answered<K: Division + Again, G: Gate, H: Threads + Wait + Sync>(
    rt: &H,
    alloc: Global,
    leader: &mut PlaceLeader<'_, Dividing<K>, G>,
    kernel: &K,
    branches: Vec<Branch<K::Problem, K::Answer>>,
) -> Result<Vec<Option<K::Answer>>, Fault>
    requires { IsSync H.row }
    ensures answers { IfOk result (λ answers. AllZip
        (Allows (K.solves kernel.now) (K.splits kernel.now)) branches.items answers.items) }
    ensures memory { OnErr result (IsErrOf result Fault.Memory) }
    ensures lock { threads_of leader.new ≡ threads_of leader.old }
    ensures slots { lock_slots leader.new ≡ lock_slots leader.old }
{
    let branches = advance_all::<K, G, H>(rt, alloc, leader, kernel, branches)?;
    Ok(answers_of(alloc, kernel, branches)?)
}

// The answers to branches, by so many levels below them: each is split in one round, and answered in another.
pub(crate) fn answers_to<K: Division + Again, G: Gate, H: Threads + Wait + Sync>(
    rt: &H,
    alloc: Global,
    leader: &mut PlaceLeader<'_, Dividing<K>, G>,
    kernel: &K,
    levels: u32,
    branches: Vec<Branch<K::Problem, K::Answer>>,
) -> Result<Vec<Option<K::Answer>>, Fault>
    requires { IsSync H.row }
    ensures answers { IfOk result (λ answers. AllZip
        (Allows (K.solves kernel.now) (K.splits kernel.now)) branches.items answers.items) }
    ensures memory { OnErr result (IsErrOf result Fault.Memory) }
    ensures lock { threads_of leader.new ≡ threads_of leader.old }
    ensures slots { lock_slots leader.new ≡ lock_slots leader.old }
{
    if levels == 0 {
        return answered::<K, G, H>(rt, alloc, leader, kernel, branches);
    }
    let parts = opened(alloc, branches)?;
    let parts = advance_all::<K, G, H>(rt, alloc, leader, kernel, parts)?;
    let answers = answers_to::<K, G, H>(rt, alloc, leader, kernel, levels - 1, parts)?;
    let branches = closed(alloc, answers)?;
    answered::<K, G, H>(rt, alloc, leader, kernel, branches)
}
