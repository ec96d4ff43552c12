//! A round that may stop: a job fails at one number, and pieces that hadn't begun are skipped.
ghost use Rattle.std.specs.Prelude.{◌≡◌, ◌↔◌, ◌<◌, IfOk, IsTrue, map, vec_len};
ghost use Rattle.std.proofs.Common.{rules};
ghost use Rattle.spindle_parts.specs.Pieces.{counted};
ghost use Rattle.spindle_locks.specs.Reports.{IsReport, numbers_of};
ghost use Rattle.spindle_locks.specs.Rounds.{job_count};
ghost use Rattle.spindle_commands.specs.Faults.{IsOutcome, Tells};

use crate::squares::{RoundPlan, numbers_below};
use spindle::prelude::*;
use spindle::with_lock;

/// Answers whether its number, the first of two, is the second, at which it fails.
struct FailAt;

impl Job for FailAt {
    type In = (u32, u32);

    type Out = bool;

    type Inner = End;

    ghost meets = { Tells };

    ghost fails = { λ failed. IsTrue failed };

    fn run<H: Threads + Wait + Sync>(
        _rt: &H,
        _alloc: Global,
        input: &(u32, u32),
        _cx: &mut JobCx<End>,
    ) -> bool {
        input.0 == input.1
    }

    fn failed(failed: &bool) -> bool {
        *failed
    }

    ghost equal_is_same = { Prim.search rules };
}

/// What came of a round: the numbers of the pieces that ran, and of those that were skipped.
#[derive(Drop)]
pub struct Outcome {
    /// The numbers of those that ran, ascending.
    pub ran: Vec<usize>,
    /// The numbers of the others, ascending.
    pub skipped: Vec<usize>,
}

/// One round of a lock over the numbers from 0 up, the end not included, that fails at the number `bad`.
pub fn faults<H: Threads + Wait + Sync>(
    rt: &H,
    alloc: Global,
    plan: RoundPlan,
    bad: u32,
) -> Result<Outcome, Fault>
    requires threads { 0 < plan.threads }
    requires jobs { 0 < plan.jobs }
    ensures { let pieces = job_count plan.count plan.jobs in
        IfOk result (IsOutcome plan.count pieces bad) }
{
    let items = items(alloc, plan.count, bad)?;
    let report = report_of(rt, alloc, plan.threads as usize, plan.jobs as usize, items)?;
    outcome_of(alloc, report)
}

// The numbers from 0 to `count`, each with the one that fails.
fn items(alloc: Global, count: u32, bad: u32) -> Result<Vec<(u32, u32)>, Fault>
    ensures { IfOk result (λ items.
        items.items ≡ map (λ number. (number, bad)) (counted 0 count)) }
{
    let numbers = numbers_below(alloc, count)?;
    Ok(numbers.iter().map(|number| (*number, bad)).collect(alloc)?)
}

// The report of one round that may stop, in a lock of its own.
fn report_of<H: Threads + Wait + Sync>(
    rt: &H,
    alloc: Global,
    threads: usize,
    jobs: usize,
    items: Vec<(u32, u32)>,
) -> Result<Report<bool>, Fault>
    requires threads { 0 < threads }
    requires jobs { 0 < jobs }
    ensures { let pieces = job_count (vec_len items) jobs in
        IfOk result (IsReport Tells (λ failed. IsTrue failed) items.items pieces) }
{
    let pool = Pool::new(threads, Limits::new(), NoGate);
    with_lock::<FailAt, NoGate, Result<Report<bool>, Fault>, _, _, H>(
        rt,
        alloc,
        &pool,
        threads,
        |leader|
            requires jobs { 0 < jobs }
        { leader.try_for_each(rt, alloc, jobs, items) },
    )?
}

// The numbers of a report's pieces.
fn outcome_of(alloc: Global, report: Report<bool>) -> Result<Outcome, Fault>
    ensures ran { IfOk result (λ outcome. outcome.ran.items ≡ numbers_of report.ran.items) }
    ensures skipped { IfOk result (λ outcome. outcome.skipped.items ≡ report.skipped.items) }
{
    Ok(Outcome {
        ran: report.ran.iter().map(|piece| piece.0).collect(alloc)?,
        skipped: report.skipped,
    })
}
