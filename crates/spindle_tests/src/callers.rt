//! Callers to read first: each runs rounds in a lock, and says what comes out in its own words. One of `try_for_each`, whose rounds
//! may stop, stands in `crates/spindle_examples/src/checked.rt`.
ghost use Rattle.std.specs.Prelude.{◌≡◌, ◌+◌, ◌*◌, ◌<◌, ◌≤◌, IfOk, OnOk, map, vec_len};
ghost use Rattle.std.specs.List.{AllZip};
ghost use Rattle.std.proofs.Common.{rules};
ghost use Rattle.spindle_locks.specs.Rounds.{job_count};
ghost use Rattle.spindle_tests.specs.Callers.{IsFunction, PublishedTwice, JobsDiffer};

use spindle::for_each;
use spindle::lock::{Nest, Opens};
use spindle::prelude::*;
use spindle::round_table::runs::every_moment;
use spindle::round_table::slots::SlotContents;
use std::alloc::AllocGlobal;

/// Squares a number.
pub struct Square;

impl Job for Square {
    type In = u32;

    type Out = u64;

    type Inner = End;

    ghost meets = { λ x y. y ≡ x * x };

    fn run<H: Threads + Wait + Sync>(_: &H, _: Global, x: &u32, _: &mut JobCx<End>) -> u64 {
        u64::from(*x) * u64::from(*x)
    }

    ghost equal_is_same = { Prim.search rules };
}

/// The squares of the numbers, by one round in a lock of the machine's threads.
pub fn squares<H: Threads + Wait + AllocGlobal + Sync>(
    rt: &H,
    numbers: Vec<u32>,
) -> Result<Vec<u64>, Fault>
    ensures { IfOk result (λ squares. squares.items ≡ map (λ x. x * x) numbers.items) }
{
    run_one::<Square>(rt, rt.alloc(), &Pool::of_machine(rt), 0, numbers)
}

/// Adds one to each element of a chunk.
pub struct AddOne;

impl Job for AddOne {
    type In = ListRun<u32>;

    type Out = Result<Vec<u64>, AllocError>;

    type Inner = End;

    ghost meets = { λ chunk output. IfOk output (λ sums. sums.items ≡ map (λ x. x + 1) chunk) };

    ghost equal_is_same = { Prim.search rules };

    fn run<H: Threads + Wait + Sync>(
        _rt: &H,
        alloc: Global,
        chunk: &ListRun<u32>,
        _cx: &mut JobCx<End>,
    ) -> Result<Vec<u64>, AllocError> {
        one_more(alloc, chunk.as_slice())
    }
}

/// Each element, and one more.
pub fn one_more(alloc: Global, chunk: &[u32]) -> Result<Vec<u64>, AllocError>
    ensures { IfOk result (λ sums. sums.items ≡ map (λ x. x + 1) chunk.now) }
{
    chunk.iter().map(|x| u64::from(*x) + 1).collect(alloc)
}

/// Each number and one more, by one round over as many chunks of a shared list as there are jobs.
pub fn one_more_each<G: Gate + Sync, H: Threads + Wait + Sync>(
    rt: &H,
    alloc: Global,
    pool: &Pool<G>,
    jobs: usize,
    numbers: Vec<u32>,
) -> Result<Vec<u64>, Fault>
    requires { 0 < jobs }
    ensures { IfOk result (λ sums. sums.items ≡ map (λ x. x + 1) numbers.items) }
{
    let chunks = SharedList::from_vec(alloc, numbers)?.share_out_evenly(alloc, jobs)?;
    let sums = run_one::<AddOne>(rt, alloc, pool, jobs, chunks)?;
    Ok(gathered(alloc, sums)??)
}

/// The outputs of a list in a lock of one thread, and those of an equal list in a lock of the pool. Where each input has
/// one output, they are the same, however many threads there were.
pub fn outputs_twice<J: Job + Send, G: Gate + Sync, H: Threads + Wait + Sync>(
    rt: &H,
    alloc: Global,
    pool: &Pool<G>,
    jobs: usize,
    items: Vec<J::In>,
    equal_items: Vec<J::In>,
) -> Result<(Vec<J::Out>, Vec<J::Out>), Fault>
where
    J::In: Send + Sync,
    J::Out: Send,
    J::Inner: Send,
    <J::Inner as Nest>::ChildSlots: Send + Sync,
    requires equal { equal_items.items ≡ items.items }
    requires function { IsFunction J.meets }
    ensures { IfOk result (λ outputs. outputs.0.items ≡ outputs.1.items) }
{
    let alone = Pool::new(1, Limits { spin: 0, pause: 0 }, NoGate);
    let by_one = run_one::<J>(rt, alloc, &alone, jobs, items)?;
    let by_many = run_one::<J>(rt, alloc, pool, jobs, equal_items)?;
    Ok((by_one, by_many))
}

/// Two rounds of one leader, whose trail then has both, in their order, each of as many jobs as its list has pieces.
pub fn two_rounds<J: Opens<L>, G: Gate, L, H: Threads + Wait + Sync>(
    rt: &H,
    alloc: Global,
    leader: &mut Leader<J, G, L>,
    jobs: usize,
    first: Vec<J::In>,
    second: Vec<J::In>,
) -> Result<(Vec<J::Out>, Vec<J::Out>), Fault>
    requires jobs { 2 ≤ jobs }
    requires items { (2 ≤ vec_len first) × (2 ≤ vec_len second) }
    ensures first { IfOk result (λ outputs. AllZip J.meets first.items outputs.0.items) }
    ensures second { IfOk result (λ outputs. AllZip J.meets second.items outputs.1.items) }
    ensures rounds { let n = job_count (vec_len first) jobs in
        let m = job_count (vec_len second) jobs in
        OnOk result (PublishedTwice n m leader.old leader.new) }
{
    let by_first = leader.for_each(rt, alloc, jobs, first)?;
    let by_second = leader.for_each(rt, alloc, jobs, second)?;
    Ok((by_first, by_second))
}

/// Two jobs that two seats of one round table began in one round have different numbers, whatever the
/// table's threads have done.
///
/// The run that the table shows has begun each number at most once, and the seats' trails together
/// tell just what that run has begun.
pub fn jobs_differ<D: SlotContents>()
    ensures { JobsDiffer D.discipline }
{
    every_moment::<D>();
}

/// The squares of the numbers, without a lock: by a closure, in threads of this one call.
pub fn squares_without_a_lock<G: Gate, H: Threads + Sync>(
    rt: &H,
    alloc: Global,
    pool: &Pool<G>,
    jobs: usize,
    numbers: Vec<u32>,
) -> Result<Vec<u64>, Fault>
    requires { 0 < jobs }
    ensures { IfOk result (λ squares. squares.items ≡ map (λ x. x * x) numbers.items) }
{
    for_each(
        rt,
        alloc,
        pool,
        jobs,
        numbers,
        |x: u32| -> u64
            ensures { result ≡ x * x }
        { u64::from(x) * u64::from(x) },
    )
}
