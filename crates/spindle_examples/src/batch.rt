//! A batch of orders in a lock with slots, which may lose none: each order gets its bill, and only want of memory refuses the
//! batch. An order whose bill would be too large is answered so, and fails none of the others.
ghost use Rattle.std.specs.Prelude.{◌≡◌, ◌<◌, ◌≤◌, None, IfOk, OnErr, IsErrOf};
ghost use Rattle.std.specs.List.{AllZip};
ghost use Rattle.std.proofs.Common.{rules};
ghost use Rattle.spindle_examples.specs.Batch.{IsBillOf};

use spindle::prelude::*;

/// So many of an article, each at a price.
#[derive(Clone, Copy, PartialEq, Eq)]
pub struct Order {
    /// How many.
    pub count: u32,
    /// The price of one.
    pub price: u32,
}

/// Makes an order's bill.
pub struct Bill;

impl Job for Bill {
    type In = Order;

    type Out = Option<u32>;

    type Inner = End;

    ghost meets = { IsBillOf };

    ghost fails = { λ bill. bill ≡ None };

    fn run<H: Threads + Wait + Sync>(
        _rt: &H,
        _alloc: Global,
        order: &Order,
        _cx: &mut JobCx<End>,
    ) -> Option<u32> {
        order.count.checked_mul(order.price)
    }

    fn failed(bill: &Option<u32>) -> bool {
        Self::is_failure(bill)
    }

    ghost equal_is_same = { Prim.search rules };
}

impl TellsFailures for Bill {
    fn is_failure(bill: &Option<u32>) -> bool {
        bill.is_none()
    }
}

/// The bill of each order, in their order, by one round of so many jobs; none where it is beyond 32 bits.
pub fn bills<G: Gate + Sync, H: Threads + Wait + Sync>(
    rt: &H,
    alloc: Global,
    pool: &Pool<G>,
    jobs: usize,
    orders: Vec<Order>,
) -> Result<Vec<Option<u32>>, Fault>
    requires { (1 ≤ jobs) × (jobs ≤ 4294967295) }
    ensures bills { IfOk result (λ bills. AllZip IsBillOf orders.items bills.items) }
    ensures memory { OnErr result (IsErrOf result Fault.Memory) }
{
    LockOf::<Bill>::with_slots(
        rt,
        alloc,
        pool,
        pool.max_num_threads(),
        jobs,
        |leader|
            requires { 1 ≤ jobs }
        { leader.for_each(rt, alloc, jobs, orders) },
    )?
}
