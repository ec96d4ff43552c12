//! Squares of numbers, made in a lock: out of trays, or in the slots of its round table.
ghost use Rattle.std.specs.Prelude.{◌≡◌, ℕ, ◌*◌, ◌<◌, ◌≤◌, true, IfOk, OnErr, IsErrOf};
ghost use Rattle.std.specs.List.{AllZip};
ghost use Rattle.std.proofs.Common.{rules};
ghost use Rattle.spindle_parts.specs.Pieces.{counted};

use spindle::prelude::*;
use spindle::{with_lock, with_slots};

/// What a round is made of, and by how many threads and jobs.
#[derive(Clone, Copy)]
pub struct RoundPlan {
    /// The numbers below it are the round's items.
    pub count: u32,
    /// The threads of its lock.
    pub threads: u32,
    /// The jobs that are asked for.
    pub jobs: u32,
}

/// Squares a number.
struct Square;

impl Job for Square {
    type In = u32;

    type Out = u64;

    type Inner = End;

    ghost meets = { λ number square. square ≡ number * number };

    fn run<H: Threads + Wait + Sync>(
        _rt: &H,
        _alloc: Global,
        input: &u32,
        _cx: &mut JobCx<End>,
    ) -> u64 {
        u64::from(*input) * u64::from(*input)
    }

    ghost equal_is_same = { Prim.search rules };
}

/// The squares of the numbers from 0 up, the end not included, by one round of a lock.
pub fn squares<H: Threads + Wait + Sync>(
    rt: &H,
    alloc: Global,
    plan: RoundPlan,
) -> Result<Vec<u64>, Fault>
    requires threads { 0 < plan.threads }
    requires jobs { 0 < plan.jobs }
    ensures { IfOk result (λ squares.
        AllZip (λ number square. square ≡ number * number)
        (counted 0 plan.count) squares.items) }
{
    let numbers = numbers_below(alloc, plan.count)?;
    squares_of(
        rt,
        alloc,
        plan.threads as usize,
        plan.jobs as usize,
        numbers,
    )
}

/// The same squares by one round of a lock of so many slots.
pub fn squares_in_slots<H: Threads + Wait + Sync>(
    rt: &H,
    alloc: Global,
    plan: RoundPlan,
    slots: usize,
) -> Result<Vec<u64>, Fault>
    requires threads { 0 < plan.threads }
    requires jobs { 0 < plan.jobs }
    requires slots { (1 ≤ slots) × (slots ≤ 4294967295) }
    ensures squares { IfOk result (λ squares.
        AllZip (λ number square. square ≡ number * number)
        (counted 0 plan.count) squares.items) }
    ensures memory { OnErr result (IsErrOf result Fault.Memory) }
{
    let (threads, jobs) = (plan.threads as usize, plan.jobs as usize);
    let numbers = numbers_below(alloc, plan.count)?;
    let pool = Pool::new(threads, Limits::new(), NoGate);
    with_slots::<Square, NoGate, Result<Vec<u64>, Fault>, _, _, H>(
        rt,
        alloc,
        &pool,
        threads,
        slots,
        |leader|
            requires jobs { 0 < jobs }
        { leader.for_each(rt, alloc, jobs, numbers) },
    )?
}

/// The numbers from 0 to `count`, the end not included.
pub fn numbers_below(alloc: Global, count: u32) -> Result<Vec<u32>, Fault>
    ensures memory { OnErr result (IsErrOf result Fault.Memory) }
    ensures numbers { IfOk result (λ numbers. numbers.items ≡ counted 0 count) }
{
    let mut numbers = Vec::with_capacity(alloc, count as usize)?;
    for number in 0..count {
        numbers.push_reserved(number);
    }
    Ok(numbers)
}

/// The squares of these numbers, in their order.
fn squares_of<H: Threads + Wait + Sync>(
    rt: &H,
    alloc: Global,
    threads: usize,
    jobs: usize,
    numbers: Vec<u32>,
) -> Result<Vec<u64>, Fault>
    requires threads { 0 < threads }
    requires jobs { 0 < jobs }
    ensures { IfOk result (λ squares.
        AllZip (λ number square. square ≡ number * number)
        numbers.items squares.items) }
{
    let pool = Pool::new(threads, Limits::new(), NoGate);
    with_lock::<Square, NoGate, Result<Vec<u64>, Fault>, _, _, H>(
        rt,
        alloc,
        &pool,
        threads,
        |leader|
            requires jobs { 0 < jobs }
        { leader.for_each(rt, alloc, jobs, numbers) },
    )?
}
