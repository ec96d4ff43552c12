//! Uneven jobs by the thousand in each kind of lock and in locks that jobs open, with few threads and with 64, with the default limits and
//! without a pause before sleep. They triple numbers, or add one to uneven lists. A wrong answer ends the program.
ghost use Rattle.std.specs.Prelude.{◌≡◌};
ghost use Rattle.std.proofs.Common.{rules};
ghost use denote.Param.Send.{IsSync};

use crate::kinds::{Does, Task, stirred};
use crate::nested::in_nested;
use crate::series::{Input, Listed, Lists, Plays, Runs, Series};
use crate::timing::{
    Bench, Ended, Machine, Shape, Stop, Times, Way, in_place, in_slots, in_trays, nanos_since,
    shaped,
};
use spindle::lock::Nest;
use spindle::prelude::*;
use std::fs;
use std::hint::spin_loop;
use std::marker::PhantomData;
use std::rt::Files;
use std::time::Instant;

/// The kinds of locks, each with those that its jobs open.
const KINDS: [&str; 6] = [
    "trays",
    "slots",
    "place",
    "trays in trays",
    "slots in slots",
    "place in place",
];

/// At most so many uneven rounds are played in a lock.
const UNEVEN: u64 = 50;

// The uneven shape of this number, for one round: up to fifty jobs, over fewer than forty items. Its size is any number.
fn uneven(number: u64) -> Shape {
    let random = stirred(number);
    let mut shape = shaped(1 + (random >> 50) as usize % 50, 0, 1);
    shape.items = (random >> 8) as usize % 40;
    shape.size = (random % 4000000000) as usize;
    shape
}

// Plays the uneven round of this number, and tells whether what came out is right.
fn goes_right<S: Series, E: Plays<S>, H: Runs>(
    rt: &H,
    alloc: Global,
    leader: &mut E,
    number: u64,
) -> Result<bool, Fault>
    requires { IsSync H.row }
{
    let mut series = S::new(alloc, uneven(number))?;
    leader.play(rt, alloc, &mut series)?;
    series.is_right(alloc, 1)
}

/// Plays uneven rounds for so many nanoseconds, from the one of this number on.
pub fn soaked<S: Series, E: Plays<S>, H: Machine>(
    rt: &H,
    first: u64,
    share: u64,
    leader: &mut E,
) -> Times
    requires { IsSync H.row }
{
    let (begin, mut start, mut times) = (Instant::now(rt)?, 0u64, Vec::new(rt.alloc()));
    for number in first..first.saturating_add(UNEVEN) {
        if !goes_right::<S, E, H>(rt, rt.alloc(), leader, number)? {
            return Err(Stop::Wrong);
        }
        let end = nanos_since(rt, begin)?;
        times.push(end.saturating_sub(start)).map_err(Fault::from)?;
        if share <= end {
            break;
        }
        start = end;
    }
    Ok(times)
}

/// Triples its number, and takes uneven numbers of turns for it.
pub struct Turns;

impl Task for Turns {
    type In = u64;

    type Out = u64;

    type Item = u64;

    fn answer(_: Global, number: &u64) -> u64 {
        Turns::update(*number)
    }

    fn update(number: u64) -> u64 {
        let turns = if number % 61 == 0 { 999 } else { number % 16 };
        for _ in 0..turns {
            spin_loop();
        }
        number.wrapping_mul(3)
    }

    fn output(alloc: Global, number: usize, size: usize, _: u64) -> Result<u64, Fault> {
        Turns::item(alloc, number, size, 1)
    }

    fn item(alloc: Global, number: usize, size: usize, rounds: u64) -> Result<u64, Fault> {
        let first = u64::input(alloc, number, size)?;
        Ok((0..rounds).fold(first, |item, _| item.wrapping_mul(3)))
    }
}

/// Opens a lock with trays, plays the uneven round of its number there over jobs of kind J, and answers whether it went right.
pub struct InTrays<J>(PhantomData<J>);

impl<J: Listed<In = u64, Out = u64>> Job for InTrays<J> {
    type In = u64;

    type Out = bool;

    type Inner = Under<J>;

    ghost meets = { λ _ _. Unit {0} };

    fn run<H: Threads + Wait + Sync>(
        rt: &H,
        alloc: Global,
        number: &u64,
        cx: &mut JobCx<Under<J>>,
    ) -> bool {
        let right = cx.with_lock(
            rt,
            alloc,
            3,
            |leader| -> Result<bool, Fault>
                requires { IsSync H.row }
            { goes_right::<Lists<J>, _, H>(rt, alloc, leader, *number) },
        );
        matches!(right, Ok(Ok(true)))
    }

    ghost equal_is_same = { Prim.search rules };
}

impl<J: Listed<In = u64, Out = u64>> Listed for InTrays<J> {
    fn output(_: Global, _: usize, _: usize, _: u64) -> Result<bool, Fault> {
        Ok(true)
    }
}

/// The same in a lock with slots, which are fewer than the jobs of some rounds.
pub struct InSlots<J>(PhantomData<J>);

impl<J: Listed<In = u64, Out = u64>> Job for InSlots<J> {
    type In = u64;

    type Out = bool;

    type Inner = UnderSlots<J>;

    ghost meets = { λ _ _. Unit {0} };

    fn run<H: Threads + Wait + Sync>(
        rt: &H,
        alloc: Global,
        number: &u64,
        cx: &mut JobCx<UnderSlots<J>>,
    ) -> bool {
        let right = LockOf::<J>::nested_with_slots(
            rt,
            alloc,
            cx,
            3,
            4,
            |leader| -> Result<bool, Fault>
                requires { IsSync H.row }
            { goes_right::<Lists<J>, _, H>(rt, alloc, leader, *number) },
        );
        matches!(right, Ok(Ok(true)))
    }

    ghost equal_is_same = { Prim.search rules };
}

impl<J: Listed<In = u64, Out = u64>> Listed for InSlots<J> {
    fn output(_: Global, _: usize, _: usize, _: u64) -> Result<bool, Fault> {
        Ok(true)
    }
}

// Locks whose jobs open locks over jobs of kind J.
fn in_inner_trays<J: Listed<In = u64, Out = u64> + Send, H: Machine>(
    bench: &Bench<H>,
    shape: Shape,
) -> Times
where
    J::Inner: Send,
    <J::Inner as Nest>::ChildSlots: Send + Sync,
{
    in_trays::<InTrays<J>, H>(bench, shape)
}

fn in_inner_slots<J: Listed<In = u64, Out = u64> + Send, H: Machine>(
    bench: &Bench<H>,
    shape: Shape,
) -> Times
where
    J::Inner: Send,
    <J::Inner as Nest>::ChildSlots: Send + Sync,
{
    in_slots::<InSlots<J>, H>(bench, shape)
}

// Plays in a lock of this kind, whose slots are fewer than the jobs of some rounds. What its jobs do is a parameter, as in `main.rt`.
fn play<T: Task<In = u64, Out = u64> + Send, H: Machine>(bench: &Bench<H>, kind: &str) -> Times
where
    T::Item: Send,
{
    let shape = shaped(25, 0, 0);
    match kind {
        "trays in trays" => in_inner_trays::<Does<T>, H>(bench, shape),
        "slots in slots" => in_inner_slots::<Does<T>, H>(bench, shape),
        "place in place" => in_nested(bench, shape),
        "trays" => in_trays::<Does<T>, H>(bench, shape),
        "slots" => in_slots::<Does<T>, H>(bench, shape),
        _ => in_place::<InPlace<Does<T>>, H>(bench, shape),
    }
}

/// Plays in all kinds of locks for so many seconds in all. With 0 it plays a round in each, and prints nothing.
pub fn soak<H: Machine + Files>(rt: &H, seconds: u64) -> Ended {
    let share = seconds.saturating_mul(1_000_000_000) / 36;
    for kind in KINDS {
        let mut seen = (0, 0);
        for threads in [2, 5, 64] {
            for limits in [Limits::new(), Limits { spin: 0, pause: 0 }] {
                seen = in_pool(rt, kind, Pool::new(threads, limits, NoGate), share, seen)?;
            }
        }
        if 0 < seconds {
            print(rt, kind, seen.0, seen.1 / 1000)?;
        }
    }
    Ok(())
}

// Opens locks of a kind, one after the other, for so many nanoseconds. Adds to how many rounds there were, and how long the longest took.
fn in_pool<H: Machine>(
    rt: &H,
    kind: &str,
    pool: Pool<NoGate>,
    share: u64,
    seen: (u64, u64),
) -> Result<(u64, u64), Stop> {
    let (mut rounds, mut worst) = seen;
    let (begin, way) = (Instant::now(rt)?, Way::Uneven(0, 0));
    let mut bench = Bench { rt, pool, way };
    for _ in 0..u64::MAX {
        let past = nanos_since(rt, begin)?;
        bench.way = Way::Uneven(rounds, share.saturating_sub(past));
        for nanos in play::<Turns, H>(&bench, kind)? {
            rounds = rounds.saturating_add(1);
            worst = worst.max(nanos);
        }
        if share <= nanos_since(rt, begin)? {
            break;
        }
    }
    Ok((rounds, worst))
}

// Prints a kind's line. The system counts the memory in pages of 4 kB.
fn print<H: Machine + Files>(rt: &H, kind: &str, rounds: u64, worst: u64) -> Ended {
    let text = fs::read_to_string(rt, "/proc/self/statm")?;
    let pages = text.as_str().split(' ').nth(1).unwrap_or("0");
    let memory = pages.parse::<u64>().unwrap_or(0).saturating_mul(4);
    println!(rt; "{kind}: {rounds} rounds, the longest took {worst} us, {memory} kB of memory")?;
    Ok(())
}
