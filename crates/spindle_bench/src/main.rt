//! Nanoseconds a round, for seven shapes of rounds in three kinds of locks.
//!
//! For each shape and kind the program opens one lock of THREADS threads with the default limits, runs rounds in it, checks what came
//! out, and prints one line
//!
//! ```text
//! NAME SHAPE THREADS best median p10 p90
//! ```
//!
//! where the last four are whole nanoseconds a round: the best batch, the middle one, and those that a tenth and nine tenths of all
//! batches stand below. A batch is 100 rounds between two readings of the clock (20 of `nested`, 10 of `stencil256k`). Batches that
//! begin within 50 ms warm up, until all threads of the lock are there; then 300 count, or as many as begin within 0.8 seconds.
//!
//! SHAPE in the environment names the one shape to run, and POOL what to run it on: `slots`, `trays`, `place` or `patient`. No line is
//! printed, and no lock is opened, where nothing has that name. THREADS is how many threads run, else 4. With the word `check` the
//! program runs one batch for each line, checks what came out, and prints zeros; then it plays a round of each lock of `soak`.
//!
//! With the words `soak SECONDS` it plays uneven jobs in each kind of lock instead, for so many seconds in all, as `soak.rt` says. A
//! line a kind has its rounds, how long the longest took, its lists made and checked, and the memory that the program has then.
//!
//! NAME is `zuflanto` for a lock that `with_slots` opens, with a slot for each job of the round,
//! `zuflanto-trays` for one that `with_lock` opens, and `zuflanto-place` for one that `with_slots_in_place` opens, whose rounds are
//! `update_each`. `try8` runs with trays alone, and `nested` in place alone, and once more as `zuflanto-patient`, whose pool lets
//! 512 pauses, some four microseconds, pass before a helper looks for inner locks.
//!
//! - `empty`: as many numbers as threads; a job does nothing. In place the numbers stay from round to round.
//! - `tiny8`: the same for eight numbers a thread; a job is about 50 ns of dependent arithmetic. In place an item is a number with
//!   what comes out of it, which a job writes down there.
//! - `try8`: `tiny8` by `try_for_each_into`: the same list of numbers, no job fails, and what comes out is one report, round after round.
//! - `nested`: two jobs, each with a list of 256 numbers in four parts; a job opens a lock in place for half of the threads and plays
//!   sixteen rounds there, each of which adds one to each number, a part a job. The parts stay where they are, each by itself.
//! - `stencil4k`, `stencil256k`: one is added to each of 4096 or 262144 numbers, in one shared list a thread; a job answers a list of
//!   each number and one more, and these lists are the next round's items. In place an item is a list, one a thread, with pages of
//!   its own, and a job adds one to each of its numbers where they stand, by whole cache lines.
//! - `map`: the squares of 4096 numbers, in four shared lists a thread that were made before the clock started. In place an item is
//!   such a list with another of that length, into which a job writes the squares.
//!
//! What a round is charged with: making its list of items, all of `for_each_into` into a new list (or of the call that stands for
//! it), and letting the last round's outputs go. Lists that rounds share are made before the clock starts.
#![tactic(auto)]

ghost use Rattle.std.specs.Prelude.{◌≡◌};

mod kinds;
mod nested;
mod series;
mod soak;
mod timing;

use crate::kinds::{AddOne, Does, Nothing, Square, Stir, Task};
use crate::nested::in_nested;
use crate::soak::soak;
use crate::timing::{Bench, Ended, Machine, Shape, Way, in_place, in_slots, in_trays, shaped};
use spindle::prelude::*;
use std::env;
use std::num::NonZeroU16;

/// No batch begins after so many nanoseconds.
const END: u64 = 850_000_000;

// Whether POOL and SHAPE ask for rounds of the shape of this name in this kind of lock.
fn wants<H: Machine>(bench: &Bench<H>, kind: &str, name: &str) -> bool {
    let pool = env::var(bench.rt, "POOL").ok();
    let shape = env::var(bench.rt, "SHAPE").ok();
    pool.as_deref().is_none_or(|it| it == kind) && shape.as_deref().is_none_or(|it| it == name)
}

// Runs the shape of this name in each of these kinds of locks that is asked for. What its jobs do is a parameter: where a lock's kind is
// named, the proof takes much more.
fn in_each<T: Task + Send, H: Machine>(
    bench: &Bench<H>,
    kinds: &[&str],
    name: &str,
    shape: Shape,
) -> Ended
where
    T::In: Send + Sync,
    T::Out: Send,
    T::Item: Send,
{
    for kind in kinds {
        if wants(bench, kind, name) {
            let times = match *kind {
                "slots" => in_slots::<Does<T>, H>(bench, shape)?,
                "trays" => in_trays::<Does<T>, H>(bench, shape)?,
                _ => in_place::<InPlace<Does<T>>, H>(bench, shape)?,
            };
            print(bench, kind, name, times)?;
        }
    }
    Ok(())
}

// Runs `nested` in place all through, where it is asked for.
fn run_nested<H: Machine>(bench: &Bench<H>, kind: &str) -> Ended {
    if wants(bench, kind, "nested") {
        print(bench, kind, "nested", in_nested(bench, shaped(2, 0, 20))?)?;
    }
    Ok(())
}

// Prints the line of the shape of this name in this kind of lock.
fn print<H: Machine>(bench: &Bench<H>, kind: &str, name: &str, times: Vec<u64>) -> Ended {
    let lock = match kind {
        "slots" => "zuflanto",
        "trays" => "zuflanto-trays",
        "place" => "zuflanto-place",
        _ => "zuflanto-patient",
    };
    let (at, all) = (|at: usize| times.get(at).copied().unwrap_or(0), times.len());
    let (best, median, low, high) = (at(0), at(all / 2), at(all / 10), at(all - all / 10));
    let threads = bench.pool.max_num_threads();
    println!(bench.rt; "{lock} {name} {threads} {best} {median} {low} {high}")?;
    Ok(())
}

// Runs each shape in each kind of lock.
fn run<H: Machine>(rt: &H, way: Way) -> Ended {
    let text = env::var(rt, "THREADS").ok();
    let threads = usize::from(text.as_deref().unwrap_or("4").parse::<NonZeroU16>()?.get());
    let kinds = ["slots", "trays", "place"].as_slice();
    let pool = Pool::new(threads, Limits::new(), NoGate);
    let bench = Bench { rt, pool, way };
    let stirs = shaped(8 * threads, 0, 100);
    let mut tries = stirs;
    tries.may_stop = true;
    in_each::<Nothing, H>(&bench, kinds, "empty", shaped(threads, 0, 100))?;
    in_each::<Stir, H>(&bench, kinds, "tiny8", stirs)?;
    in_each::<Stir, H>(&bench, &["trays"], "try8", tries)?;
    run_nested(&bench, "place")?;
    let pool = Pool::new(threads, Limits::new(), NoGate).with_patience(512);
    run_nested(&Bench { rt, pool, way }, "patient")?;
    in_each::<AddOne, H>(&bench, kinds, "stencil4k", shaped(threads, 4096, 100))?;
    in_each::<AddOne, H>(&bench, kinds, "stencil256k", shaped(threads, 262144, 10))?;
    in_each::<Square, H>(&bench, kinds, "map", shaped(4 * threads, 4096, 100))
}

fn main(rt: HostRuntime) -> Ended {
    let mut words = env::args(&rt)?.skip(1);
    let (word, seconds) = (words.next(), words.next());
    match word.as_deref().unwrap_or("") {
        "check" => {
            run(&rt, Way::Batches(0))?;
            soak(&rt, 0)
        }
        "soak" => soak(&rt, seconds.as_deref().unwrap_or("15").parse::<u64>()?),
        _ => run(&rt, Way::Batches(END)),
    }
}
