//! Times calls over whole lists of 1048576 numbers, by the leader of an open lock and by the kit's `rayon`: the map that adds one to
//! each, which the leader leaves in pieces, and the dot product of two.
//!
//! A line a call: its name, what it runs on, the threads of the lock, and the best and the middle of 100 calls in nanoseconds, after
//! three that warm up. `rayon` has threads by its own rule.
ghost use Rattle.std.specs.Prelude.{◌≡◌};
ghost use denote.Param.Send.{IsSync};

use crate::stop::Stop;
use crate::vectors::Products;
use rayon::prelude::*;
use spindle::kernels::{Again, Mapping, Source};
use spindle::lock::{Combine, Folds, PlaceLeaderState, Updates};
use spindle::prelude::*;
use std::rt::Clock;
use std::time::Instant;

/// What is needed of the runtime.
pub trait Machine: Threads + Wait + Sync + Clock + Print + Alloc<A = Global> {}

impl<H: Threads + Wait + Sync + Clock + Print + Alloc<A = Global>> Machine for H {}

/// The numbers of each list.
const NUMBERS: u32 = 1048576;

/// The calls, with those that warm up.
const CALLS: usize = 103;

/// Adds one to a number.
#[derive(Drop)]
struct OneMore;

impl Kernel for OneMore {
    type In = u64;

    type Out = u64;

    ghost computes = { λ _ _ _. Unit {0} };

    fn compute(&self, x: &u64) -> u64 {
        x.wrapping_add(1)
    }
}

/// Times all calls.
pub fn time<H: Machine>(rt: &H, pool: &Pool<NoGate>) -> Result<(), Stop> {
    maps(rt, pool)?;
    dots(rt, pool)
}

fn maps<H: Machine>(rt: &H, pool: &Pool<NoGate>) -> Result<(), Stop> {
    let alloc = rt.alloc();
    let list = SharedList::from_vec(alloc, vec![in alloc; 102u64; NUMBERS as usize]?)?;
    maps_in_lock(rt, pool, list.run(0, list.len())?)?;
    maps_by_rayon(rt, pool, list.as_slice())
}

fn maps_in_lock<H: Machine>(rt: &H, pool: &Pool<NoGate>, run: ListRun<u64>) -> Result<(), Stop> {
    let kernel = Shared::new(rt.alloc(), OneMore)?;
    let mut task = (kernel, run, Vec::new(rt.alloc()));
    let times = in_lock::<MapsOf<OneMore>, _>(rt, pool, &mut task)?;
    let is_right = task.2.iter().flatten().all(|x| *x == 103);
    print(rt, pool, "map1m lock", is_right, times)
}

fn maps_by_rayon<H: Machine>(rt: &H, pool: &Pool<NoGate>, list: &[u64]) -> Result<(), Stop> {
    let times = timed(rt, || -> Result<Vec<u64>, Stop> {
        let more = list.par_iter().map(|x: &u64| x.wrapping_add(1));
        Ok(more.collect(rt, rt.alloc())?)
    })?;
    print(rt, pool, "map1m rayon", true, times)
}

/// A kind of job in place, and the call of its leader that is timed. A lock is opened by no kind's name, for the checker's sake.
trait Led: Updates<In = (), Out = (), Inner = End> {
    /// What the call is given, and what it leaves.
    type Task: Drop;

    /// Calls the leader once.
    fn lead<H: Machine>(
        rt: &H,
        leader: &mut SlotLeader<Self, NoGate, PlaceLeaderState<Self>>,
        task: &mut Self::Task,
    ) -> Result<(), Stop>
        requires { IsSync H.row };
}

// Times the calls of a leader whose lock stays open.
fn in_lock<J: Led + Send, H: Machine>(
    rt: &H,
    pool: &Pool<NoGate>,
    task: &mut J::Task,
) -> Result<Vec<u64>, Stop>
where
    J::Item: Send,
{
    let threads = pool.max_num_threads();
    LockOf::<J>::with_slots_in_place(
        rt,
        rt.alloc(),
        pool,
        threads,
        threads.min(1024) * 4,
        |leader| -> Result<Vec<u64>, Stop>
            requires { IsSync H.row }
        {
            timed(
                rt,
                || -> Result<(), Stop>
                    requires { IsSync H.row }
                { J::lead(rt, leader, task) },
            )
        },
    )?
}

impl<K: Kernel + Again, S: Source<Item = K::In>> Led for InPlace<Mapping<K, S>> {
    type Task = (K, S, Vec<Vec<K::Out>>);

    fn lead<H: Machine>(
        rt: &H,
        leader: &mut SlotLeader<Self, NoGate, PlaceLeaderState<Self>>,
        task: &mut (K, S, Vec<Vec<K::Out>>),
    ) -> Result<(), Stop> {
        Ok(leader.map_into(rt, rt.alloc(), &task.0, &task.1, &mut task.2)?)
    }
}

impl<C: Combine, S: Source<Item = C::Item>> Led for InPlace<Folds<C, S>> {
    type Task = (S, C::Total);

    fn lead<H: Machine>(
        rt: &H,
        leader: &mut SlotLeader<Self, NoGate, PlaceLeaderState<Self>>,
        task: &mut (S, C::Total),
    ) -> Result<(), Stop> {
        task.1 = leader.reduce(rt, rt.alloc(), &task.0)?;
        Ok(())
    }
}

fn dots<H: Machine>(rt: &H, pool: &Pool<NoGate>) -> Result<(), Stop> {
    let alloc = rt.alloc();
    let first = SharedList::from_vec(alloc, (0..NUMBERS).collect(alloc)?)?;
    let second = SharedList::from_vec(alloc, (0..NUMBERS).rev().collect(alloc)?)?;
    let mut wanted = 0u64;
    for pair in first.as_slice().iter().zip(second.as_slice()) {
        wanted = wanted.wrapping_add(u64::from(*pair.0).wrapping_mul(u64::from(*pair.1)));
    }
    dots_in_lock(rt, pool, PairRun::new(&first, &second)?, wanted)?;
    dots_by_rayon(rt, pool, first.as_slice(), second.as_slice(), wanted)
}

fn dots_in_lock<H: Machine>(
    rt: &H,
    pool: &Pool<NoGate>,
    pairs: PairRun<u32, u32>,
    wanted: u64,
) -> Result<(), Stop> {
    let mut task = (pairs, 0);
    let times = in_lock::<PairTotalsOf<u32, u32, Products>, _>(rt, pool, &mut task)?;
    print(rt, pool, "dot1m lock", task.1 == wanted, times)
}

fn dots_by_rayon<H: Machine>(
    rt: &H,
    pool: &Pool<NoGate>,
    first: &[u32],
    second: &[u32],
    wanted: u64,
) -> Result<(), Stop> {
    let mut total = 0;
    let times = timed(rt, || -> Result<(), Stop> {
        total = by_rayon(rt, first, second);
        Ok(())
    })?;
    print(rt, pool, "dot1m rayon", total == wanted, times)
}

fn by_rayon<H: Machine>(rt: &H, first: &[u32], second: &[u32]) -> u64 {
    first
        .par_iter()
        .zip(second)
        .map(|pair: (&u32, &u32)| u64::from(*pair.0) * u64::from(*pair.1))
        .reduce(rt, || 0, |x: u64, y: u64| x.wrapping_add(y))
}

// What so many calls take, in nanoseconds. What one answers is let go once the clock was read.
fn timed<T: Drop, H: Machine, F: FnMut() -> Result<T, Stop>>(
    rt: &H,
    mut call: F,
) -> Result<Vec<u64>, Stop>
    requires { F.IsAlwaysCallable call }
{
    let mut times = Vec::with_capacity(rt.alloc(), CALLS)?;
    for _ in 0..CALLS {
        let begin = Instant::now(rt)?;
        let _answer = call()?;
        times.push(u64::from(begin.elapsed(rt)?.subsec_nanos()))?;
    }
    Ok(times)
}

// Prints the best and the middle of these times, those of the first three calls left out.
fn print<H: Machine>(
    rt: &H,
    pool: &Pool<NoGate>,
    name: &'static str,
    is_right: bool,
    mut times: Vec<u64>,
) -> Result<(), Stop> {
    if !is_right {
        return Err(Stop::Wrong);
    }
    let mut times = times.split_off(3.min(times.len()))?;
    times.sort_unstable();
    let best = times.first().copied().unwrap_or(0);
    let median = times.get(50).copied().unwrap_or(0);
    println!(rt; "{name} {} {best} {median}", pool.max_num_threads())?;
    Ok(())
}
