//! Rounds of a shape in each kind of lock, checked: batches against the clock, or uneven rounds; and how long they took.
ghost use Rattle.std.specs.Prelude.{◌≡◌, ◌*◌, ◌<◌, ◌≤◌};
ghost use denote.Param.Send.{IsSync};

use crate::series::{Listed, Lists, Placed, Places, Plays, Runs, Series, Tries};
use crate::soak::soaked;
use spindle::lock::Nest;
use spindle::prelude::*;
use std::io;
use std::num::ParseIntError;
use std::rt::{Clock, Env};
use std::time::Instant;
use thiserror::Error;

/// Batches that begin within so many nanoseconds warm up.
const WARM_UP: u64 = 50_000_000;

/// At most so many batches count.
const BATCHES: usize = 300;

/// A shape of rounds.
#[derive(Clone, Copy)]
pub struct Shape {
    /// The jobs of a round.
    pub jobs: usize,
    /// The items of a round.
    pub items: usize,
    /// The numbers of an item's list, where it has one.
    pub size: usize,
    /// The rounds of a batch.
    pub rounds: u64,
    /// Whether rounds may stop, in a lock with trays.
    pub may_stop: bool,
    ghost some: { 0 < jobs },
    ghost few: { jobs ≤ 4294967295 },
}

/// A shape of so many jobs a round, with an item each, and so many numbers in all of their lists.
pub fn shaped(jobs: usize, numbers: usize, rounds: u64) -> Shape
    requires { (0 < jobs) × (jobs ≤ 4294967295) }
{
    Shape {
        jobs,
        items: jobs,
        size: numbers / jobs,
        rounds,
        may_stop: false,
    }
}

/// What is played in a lock.
#[derive(Clone, Copy)]
pub enum Way {
    /// Batches of rounds of a shape against the clock, of which none begins after so many nanoseconds.
    Batches(u64),
    /// Uneven rounds, from the one of this number on, for so many nanoseconds.
    Uneven(u64, u64),
}

/// What to play, and on what.
#[derive(Drop)]
pub struct Bench<'a, H> {
    /// The runtime.
    pub rt: &'a H,
    /// The pool that locks are opened from.
    pub pool: Pool<NoGate>,
    /// What is played in them.
    pub way: Way,
}

/// Whether it went well.
pub type Ended = Result<(), Stop>;

/// Why the program stops early.
#[derive(Debug, Drop, Error)]
pub enum Stop {
    /// THREADS is no number above 0, or the word behind `soak` is none.
    #[error("how many threads, or seconds? {0}")]
    Number(#[from] ParseIntError),
    /// A lock or a round was refused.
    #[error(transparent)]
    Refused(#[from] Fault),
    /// The clock, the words, a file or the output could not be read or written.
    #[error(transparent)]
    System(#[from] io::Error),
    /// Rounds answered something wrong: as a rule those of the line that would have come next.
    #[error("wrong answers")]
    Wrong,
}

/// What rounds need of the program's runtime.
pub trait Machine: Runs + Clock + Env + Print + Alloc<A = Global> {}

impl<H: Runs + Clock + Env + Print + Alloc<A = Global>> Machine for H {}

/// The nanoseconds that rounds took: the mean of each batch, in order of size, or each uneven round.
pub type Times = Result<Vec<u64>, Stop>;

/// Plays in a lock with so many slots as a round of the shape has jobs.
pub fn in_slots<J: Listed + Send, H: Machine>(bench: &Bench<H>, shape: Shape) -> Times
where
    J::In: Send + Sync,
    J::Out: Send,
    J::Inner: Send,
    <J::Inner as Nest>::ChildSlots: Send + Sync,
{
    LockOf::<J>::with_slots(
        bench.rt,
        bench.rt.alloc(),
        &bench.pool,
        bench.pool.max_num_threads(),
        shape.jobs,
        |leader| -> Times
            requires { IsSync H.row }
        { led::<Lists<J>, _, H>(bench, shape, leader) },
    )?
}

/// Plays in a lock with trays, where rounds may stop.
pub fn in_trays<J: Listed + Send, H: Machine>(bench: &Bench<H>, shape: Shape) -> Times
where
    J::In: Send + Sync,
    J::Out: Send,
    J::Inner: Send,
    <J::Inner as Nest>::ChildSlots: Send + Sync,
{
    LockOf::<J>::with_lock(
        bench.rt,
        bench.rt.alloc(),
        &bench.pool,
        bench.pool.max_num_threads(),
        |leader| -> Times
            requires { IsSync H.row }
        {
            if shape.may_stop {
                return led::<Tries<J>, _, H>(bench, shape, leader);
            }
            led::<Lists<J>, _, H>(bench, shape, leader)
        },
    )?
}

/// Plays in a lock with so many slots as a round of the shape has jobs, in place.
pub fn in_place<J: Placed + Send, H: Machine>(bench: &Bench<H>, shape: Shape) -> Times
where
    J::Item: Send,
    J::Inner: Send,
    <J::Inner as Nest>::ChildSlots: Send + Sync,
{
    LockOf::<J>::with_slots_in_place(
        bench.rt,
        bench.rt.alloc(),
        &bench.pool,
        bench.pool.max_num_threads(),
        shape.jobs,
        |leader| -> Times
            requires { IsSync H.row }
        { led::<Places<J>, _, H>(bench, shape, leader) },
    )?
}

// Plays what is asked for with the leader of a lock.
fn led<S: Series, E: Plays<S>, H: Machine>(bench: &Bench<H>, shape: Shape, leader: &mut E) -> Times
    requires { IsSync H.row }
{
    match bench.way {
        Way::Batches(end) => time::<S, E, H>(bench.rt, shape, end, leader),
        Way::Uneven(first, share) => soaked::<S, E, H>(bench.rt, first, share, leader),
    }
}

// Plays batches of rounds against the clock, the first whatever the end is.
fn time<S: Series, E: Plays<S>, H: Machine>(rt: &H, shape: Shape, end: u64, leader: &mut E) -> Times
    requires { IsSync H.row }
{
    let mut series = S::new(rt.alloc(), shape)?;
    let mut times = Vec::with_capacity(rt.alloc(), BATCHES).map_err(Fault::from)?;
    let (begin, mut rounds) = (Instant::now(rt)?, 0u64);
    for _ in 0..u64::MAX {
        let start = nanos_since(rt, begin)?;
        leader.play_all(rt, rt.alloc(), &mut series, shape.rounds)?;
        let past = nanos_since(rt, begin)?;
        rounds = rounds.saturating_add(shape.rounds);
        if WARM_UP <= start && start < end {
            let nanos = past.saturating_sub(start) / shape.rounds.max(1);
            times.push(nanos).map_err(Fault::from)?;
        }
        if BATCHES <= times.len() || end <= past {
            break;
        }
    }
    if !series.is_right(rt.alloc(), rounds)? {
        return Err(Stop::Wrong);
    }
    times.sort_unstable();
    Ok(times)
}

/// The nanoseconds from an instant up to now.
pub fn nanos_since(rt: &impl Clock, begin: Instant) -> Result<u64, Stop> {
    Ok(u64::try_from(begin.elapsed(rt)?.as_nanos()).unwrap_or(u64::MAX))
}
