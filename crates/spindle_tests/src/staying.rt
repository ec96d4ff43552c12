//! Jobs that answer where they run, once all threads of their lock are there, and rounds of them that go on until each thread runs some.
ghost use Rattle.std.specs.Prelude.{◌≡◌, ◌<◌, vec_len};
ghost use Rattle.std.proofs.Common.{rules};
ghost use denote.Param.Send.{IsSync};

use spindle::lock::{PlaysInPlace, PlaysPieces, Updates};
use spindle::prelude::*;
use spindle_locks_tests::gates::take_turn;
use spindle_locks_tests::rounds::Seen;

/// How often rounds are played until each thread runs a job.
pub const MOST_ROUNDS: usize = 10000;

/// How long a job of such a round stays, in turns.
const STAY: usize = 100000;

/// Waits for so many turns at most until all threads of its lock are there, and stays for so many more. Answers where it runs. In no turns
/// it tells the lock's workers to rest.
pub struct Staying;

impl Job for Staying {
    type In = usize;

    type Out = Seen;

    type Inner = End;

    ghost meets = { λ _ _. Unit {0} };

    fn run<H: Threads + Wait + Sync>(
        _rt: &H,
        _alloc: Global,
        turns: &usize,
        cx: &mut JobCx<End>,
    ) -> Seen {
        if *turns == 0 {
            cx.relieve_workers();
        }
        stay(*turns, cx)
    }

    ghost equal_is_same = { Prim.search rules };
}

/// What such a job does.
pub fn stay(turns: usize, cx: &JobCx<End>) -> Seen {
    for turn in 0..turns {
        if cx.current_num_threads() == cx.max_num_threads() {
            break;
        }
        take_turn(turn);
    }
    for turn in 0..turns {
        take_turn(turn);
    }
    (
        cx.current_thread_index(),
        cx.current_num_threads(),
        cx.max_num_threads(),
    )
}

/// Stays as `Staying` does, for as many turns as its item says in the place of the threads that are there. The item becomes where it ran.
pub struct StayingHere;

impl Update for StayingHere {
    type Item = Seen;

    type Inner = End;

    ghost updated = { λ _ _. Unit {0} };

    fn run<H: Threads + Wait + Sync>(
        _rt: &H,
        _alloc: Global,
        item: Seen,
        cx: &mut JobCx<End>,
    ) -> Seen {
        stay(item.1, cx)
    }
}

/// How many of the jobs that ran there a thread of this number ran.
pub fn runs_of(places: &[Seen], thread: Option<usize>) -> usize {
    let mut runs = 0usize;
    for place in places {
        if place.0 == thread {
            runs = runs.wrapping_add(1);
        }
    }
    runs
}

/// Whether each of so many threads ran so many of the jobs that ran there.
pub fn each_ran(places: &[Seen], threads: usize, jobs: usize) -> bool {
    for thread in 0..threads {
        if runs_of(places, Some(thread)) != jobs {
            return false;
        }
    }
    true
}

/// Whether so many threads, from the least to the most, were there each time, in a lock of so many.
pub fn all_see(places: &[Seen], least: usize, most: usize, threads: usize) -> bool {
    for place in places {
        if place.1 < least || most < place.1 || place.2 != threads {
            return false;
        }
    }
    true
}

/// How long a job stays where so many rounds are played at most: in one round alone it doesn't.
pub fn turns_of(rounds: usize) -> usize {
    if rounds > 1 { STAY } else { 0 }
}

/// A leader that plays rounds of jobs that stay. T is what its jobs are given.
pub trait Stays<T> {
    /// Plays a round of so many jobs that stay for so many turns, and answers where they ran.
    fn play_stays<H: Threads + Wait + Sync>(
        &mut self,
        rt: &H,
        alloc: Global,
        jobs: usize,
        turns: usize,
    ) -> Result<Vec<Seen>, Fault>
        requires { IsSync H.row };

    /// Plays rounds of so many jobs until each of so many threads runs as many of them as the others, so many rounds at most, and answers
    /// where those of the last round ran; none where a round was refused twice.
    fn until_all_run<H: Threads + Wait + Sync>(
        &mut self,
        rt: &H,
        alloc: Global,
        threads: usize,
        jobs: usize,
        rounds: usize,
    ) -> Option<Vec<Seen>>
        requires { IsSync H.row }
    {
        let turns = turns_of(rounds);
        let mut places = Vec::new(alloc);
        for _ in 0..rounds {
            places = match self.play_stays(rt, alloc, jobs, turns) {
                Ok(places) => places,
                Err(_) => self.play_stays(rt, alloc, jobs, turns).ok()?,
            };
            if each_ran(&places, threads, jobs / threads.max(1)) {
                break;
            }
        }
        Some(places)
    }
}

impl<'a, K: PlaysPieces<P, In = usize, Out = Seen>, P> Stays<usize>
    for SlotLeader<'a, K, NoGate, P> {
    fn play_stays<H: Threads + Wait + Sync>(
        &mut self,
        rt: &H,
        alloc: Global,
        jobs: usize,
        turns: usize,
    ) -> Result<Vec<Seen>, Fault> {
        self.for_each(rt, alloc, jobs.max(1), Vec::from_elem(alloc, turns, jobs)?)
    }
}

impl<'a, J: PlaysInPlace<P> + Updates<Item = Seen>, P> Stays<Seen>
    for SlotLeader<'a, J, NoGate, P> {
    fn play_stays<H: Threads + Wait + Sync>(
        &mut self,
        rt: &H,
        alloc: Global,
        jobs: usize,
        turns: usize,
    ) -> Result<Vec<Seen>, Fault> {
        let mut places = Vec::from_elem(alloc, (None, turns, 0), jobs)?;
        self.update_each(rt, alloc, jobs.max(1), &mut places)?;
        Ok(places)
    }
}
