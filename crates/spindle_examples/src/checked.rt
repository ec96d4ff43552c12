//! A batch of orders that one failure stops: once a job has found an order whose bill is too large, a thread that has seen that begins no
//! other job, and the caller is told where that was. In a batch whose orders are all well, each has its bill.
ghost use Rattle.std.specs.Prelude.{◌≡◌, ◌<◌, None, IfOk, vec_len};
ghost use Rattle.std.proofs.Common.{rules};
ghost use Rattle.spindle.specs.Reports.{IsReport};
ghost use Rattle.spindle.specs.Rounds.{job_count};
ghost use Rattle.spindle_examples.specs.Batch.{IsBillOf};
ghost use Rattle.spindle_examples.specs.Checked.{IsChecked};

use crate::batch::{Bill, Order};
use spindle::prelude::*;

/// What came of a batch.
#[derive(Drop)]
pub enum Checked {
    /// What each order comes to, in order.
    Amounts(Vec<u32>),
    /// The first piece that failed, and what the pieces that ran answer, each with its number: no bill for an order that comes
    /// to too much.
    Stopped(usize, Vec<(usize, Vec<Option<u32>>)>),
}

// The report of one round of so many jobs.
fn report_of<G: Gate + Sync, H: Threads + Wait + Sync>(
    rt: &H,
    alloc: Global,
    pool: &Pool<G>,
    jobs: usize,
    orders: Vec<Order>,
) -> Result<Report<Option<u32>>, Fault>
    requires { 0 < jobs }
    ensures { let n = job_count (vec_len orders) jobs in
        IfOk result (IsReport IsBillOf (λ bill. bill ≡ None) orders.items n) }
{
    LockOf::<Bill>::with_lock(
        rt,
        alloc,
        pool,
        pool.max_num_threads(),
        |leader|
            requires { 0 < jobs }
        { leader.try_for_each(rt, alloc, jobs, orders) },
    )?
}

/// What all orders come to, by one round of so many jobs; or where it stopped, since an order comes to more than 32 bits can say.
pub fn check_orders<G: Gate + Sync, H: Threads + Wait + Sync>(
    rt: &H,
    alloc: Global,
    pool: &Pool<G>,
    jobs: usize,
    orders: Vec<Order>,
) -> Result<Checked, Fault>
    requires { 0 < jobs }
    ensures { let n = job_count (vec_len orders) jobs in IfOk result (IsChecked orders.items n) }
{
    let report = report_of(rt, alloc, pool, jobs, orders)?;
    if let Some(piece) = report.first_failed::<Bill>() {
        return Ok(Checked::Stopped(piece, report.ran));
    }
    let bills = report.into_outputs(alloc)?;
    let amounts = bills.iter().map(|bill| bill.unwrap_or(0));
    Ok(Checked::Amounts(amounts.collect(alloc)?))
}
