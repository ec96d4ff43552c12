//! Examples of the users' fields, each a few dozen lines over the public calls of `spindle`, with its contract in its own
//! terms: a batch that loses nothing, one that a failure stops, prefix sums in two rounds, a matrix product and the greatest sum of a
//! run by divide and conquer, a stencil of many passes, in place too, a solver that runs until nothing changes, keys looked up in a
//! table that all jobs are lent, and a game evaluated by rounds in rounds.
//!
//! The program runs each once over fixed numbers, and prints what comes out: the file `stdout` has it. What comes out is proved; that
//! no call is refused memory, nor answers none, is shown here. Where the variable TRACE is set, it also prints who ran which job of
//! recorded rounds when (`trace`), which differs from run to run. With the word `lists` it times calls over whole lists (`lists`).
#![tactic(auto)]

mod batch;
mod checked;
mod chomp;
mod clocked;
mod decimals;
mod entries;
mod evaluator;
mod lists;
mod prefix;
mod product;
mod ranks;
mod recurse;
mod runs;
mod solver;
mod stencil;
mod stop;
mod sums;
mod trace;
mod vectors;

use crate::batch::Order;
use crate::checked::Checked;
use crate::chomp::Board;
use crate::evaluator::{Evaluate, Recurse};
use crate::lists::Machine;
use crate::stop::Stop;
use spindle::lock::{NoGate, Pool};
use spindle::{Fault, SharedList};
use std::alloc::{AllocError, Global};
use std::env;
use std::fmt::Debug;
use std::io::Print;

/// An order with a bill.
const MANY: Order = Order {
    count: 3,
    price: 250,
};

/// An order that comes to too much.
const DEAR: Order = Order {
    count: 65536,
    price: 65536,
};

/// A game's first board.
const BOARD: Board = Board {
    top: 4,
    middle: 3,
    bottom: 3,
};

fn main(rt: HostRuntime) -> Result<(), Stop> {
    let alloc = rt.alloc();
    let pool = Pool::of_machine(&rt);
    if env::args(&rt)?.nth(1).as_deref() == Some("lists") {
        return lists::time(&rt, &pool);
    }
    batches(&rt, &pool)?;
    read_decimals(&rt, &pool)?;
    show(&rt, "solver", solved(&rt, &pool))?;
    show(&rt, "dot", dot(&rt, &pool))?;
    show(&rt, "runs", greatest_sum(&rt))?;
    show(&rt, "prefix", prefix_sums(&rt, &pool))?;
    show(&rt, "product", matrix_product(&rt, &pool))?;
    show(&rt, "stencil", smoothed(&rt, &pool))?;
    show(&rt, "ranks", ranks_of_keys(&rt, &pool))?;
    show(&rt, "evaluator", winning_bites(&rt, &pool))?;
    if env::var(&rt, "TRACE").is_ok() {
        trace::print(&rt, alloc)?;
    }
    Ok(())
}

// A line: an example's name, and what it answers.
fn show<T: Debug + Drop>(
    rt: &impl Print,
    name: &str,
    answer: Result<T, Fault>,
) -> Result<(), Stop> {
    let answer = answer?;
    println!(rt; "{name} {answer:?}")?;
    Ok(())
}

// Two batches of orders: one in which each order has its bill, and one that stops where an order comes to too much.
fn batches(rt: &impl Machine, pool: &Pool<NoGate>) -> Result<(), Stop> {
    let orders = vec![in rt.alloc(); MANY, DEAR, MANY]?;
    show(rt, "batch", batch::bills(rt, rt.alloc(), pool, 2, orders))?;
    check_batch(rt, pool, MANY)?;
    check_batch(rt, pool, DEAR)
}

fn check_batch(rt: &impl Machine, pool: &Pool<NoGate>, last: Order) -> Result<(), Stop> {
    let orders = vec![in rt.alloc(); MANY, MANY, last]?;
    match checked::check_orders(rt, rt.alloc(), pool, 3, orders)? {
        Checked::Amounts(amounts) => println!(rt; "checked {amounts:?}")?,
        Checked::Stopped(piece, _) => println!(rt; "checked, and stopped at {piece}")?,
    }
    Ok(())
}

// Texts, of which one is no decimal.
fn read_decimals(rt: &impl Machine, pool: &Pool<NoGate>) -> Result<(), Stop> {
    let alloc = rt.alloc();
    let texts = vec![in alloc; format!(in alloc; "12")?, format!(in alloc; "7x")?]?;
    match decimals::numbers(rt, alloc, pool, texts)? {
        Ok(numbers) => println!(rt; "decimals {numbers:?}")?,
        Err(failed) => println!(rt; "decimals {:?}, none at {}", failed.before, failed.place)?,
    }
    Ok(())
}

fn solved(rt: &impl Machine, pool: &Pool<NoGate>) -> Result<Option<Vec<u32>>, Fault> {
    let values = vec![in rt.alloc(); 0u32, 1000, 400]?;
    solver::solved(rt, rt.alloc(), pool, 500, values, 100)
}

fn dot(rt: &impl Machine, pool: &Pool<NoGate>) -> Result<u64, Fault> {
    let numbers = SharedList::from_vec(rt.alloc(), vec![in rt.alloc(); 1u32, 2, 3]?)?;
    vectors::dot(rt, rt.alloc(), pool, &numbers, &numbers)
}

// The greatest sum of a run of four thousand values, which are split.
fn greatest_sum(rt: &impl Machine) -> Result<Option<i64>, Fault> {
    let values = (0..4000u32).map(|at| i64::from(at % 8) - 3);
    let values = SharedList::from_vec(rt.alloc(), values.collect(rt.alloc())?)?;
    runs::greatest_sum(rt, values.run(0, values.len())?)
}

fn prefix_sums(rt: &impl Machine, pool: &Pool<NoGate>) -> Result<Vec<u64>, Fault> {
    let table = vec![in rt.alloc(); 3u64, 1, 4, 1, 5, 9, 2, 6]?;
    prefix::summed(rt, rt.alloc(), pool, 3, table)
}

fn matrix_product(rt: &impl Machine, pool: &Pool<NoGate>) -> Result<Vec<u64>, Fault> {
    let rows = rows(rt.alloc())?;
    product::multiplied(rt, rt.alloc(), pool, rows, &[1, 0, 1, 0, 2, 2])
}

fn rows(alloc: Global) -> Result<Vec<Vec<u64>>, AllocError> {
    Ok(vec![in alloc; vec![in alloc; 1u64, 2, 3]?, vec![in alloc; 4u64, 5, 6]?]?)
}

fn smoothed(rt: &impl Machine, pool: &Pool<NoGate>) -> Result<Vec<u32>, Fault> {
    let heat = vec![in rt.alloc(); 0u32, 0, 0, 0, 4096, 0, 0, 0, 0]?;
    stencil::smoothed(rt, rt.alloc(), pool, 4, heat, 8)
}

// Keys looked up in a table.
fn ranks_of_keys(rt: &impl Machine, pool: &Pool<NoGate>) -> Result<Vec<usize>, Fault> {
    let table = vec![in rt.alloc(); 50u32, 20, 90, 20]?;
    let keys = vec![in rt.alloc(); 21u32, 20, 90, 100]?;
    ranks::ranks(rt, rt.alloc(), pool, table, keys)
}

// The bites that win a game, whose jobs are of three kinds, each under the next.
fn winning_bites(rt: &impl Machine, pool: &Pool<NoGate>) -> Result<Vec<usize>, Fault> {
    evaluator::won_by::<Evaluate<Evaluate<Recurse>>, _, _>(rt, rt.alloc(), pool, BOARD)
}
