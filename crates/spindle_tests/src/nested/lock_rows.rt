//! Rows of rounds that jobs play by a lock for each, and of locks with slots that they open, over lists and in place, and what a refused
//! allocation leaves there.
//!
//! No clause says that helpers come to such a lock and run jobs there, that such locks end, or that a refused lock hasn't run its
//! closure. A job can't fail a test, so it answers what it saw. The test named `refused_` ends well whichever one of its allocations
//! is refused.
ghost use Rattle.std.proofs.Common.{rules};
ghost use denote.Param.Send.{IsSync};

use crate::checks::{holds, is};
use crate::staying::{MOST_ROUNDS, Staying, StayingHere, Stays, all_see, each_ran, turns_of};
use spindle::lock::{ChunkOf, Nest, UnderPieces, Updates};
use spindle::prelude::*;
use spindle_locks_tests::rounds::{Seen, rounds_of};
use std::marker::PhantomData;
use std::process::Abort;

/// The threads of a lock, the jobs of its rounds, and how many rounds are played at most until each thread has run a job.
pub type Ask = (usize, usize, usize);

/// Kinds of locks that jobs open. What jobs do there is a parameter: under the name of its kind each would be dear to prove.
pub trait Nested: Send {
    /// The locks of this kind.
    type Locks: Nest<ChildSlots: Send + Sync> + Send;

    /// Opens the lock that is asked for, tells that its closure is run, and answers where the jobs of its last round ran; none where a
    /// round was refused twice.
    fn open<H: Threads + Wait + Sync>(
        rt: &H,
        alloc: Global,
        ask: Ask,
        cx: &mut JobCx<Self::Locks>,
        is_run: &mut bool,
    ) -> Result<Option<Vec<Seen>>, Fault>
        requires { IsSync H.row };
}

/// Opens the lock that it is asked for, again where it was refused, and answers where the jobs of its last round ran; none where it
/// was refused twice, or a refused lock has run its closure.
pub struct Opening<K> {
    kind: PhantomData<K>,
}

impl<K: Nested> Job for Opening<K> {
    type In = Ask;

    type Out = Vec<Seen>;

    type Inner = K::Locks;

    ghost meets = { λ _ _. Unit {0} };

    fn run<H: Threads + Wait + Sync>(
        rt: &H,
        alloc: Global,
        ask: &Ask,
        cx: &mut JobCx<K::Locks>,
    ) -> Vec<Seen> {
        for _ in 0..2 {
            let mut is_run = false;
            match K::open(rt, alloc, *ask, cx, &mut is_run) {
                Ok(Some(places)) => return places,
                _ if is_run => break,
                _ => {}
            }
        }
        Vec::new(alloc)
    }

    ghost equal_is_same = { Prim.search rules };
}

/// A lock for each round, of a thread a job.
pub struct InRounds<K> {
    kind: PhantomData<K>,
}

impl<K: Job<In = usize, Out = Seen, Inner = End> + Send> Nested for InRounds<K> {
    type Locks = Under<K>;

    fn open<H: Threads + Wait + Sync>(
        rt: &H,
        alloc: Global,
        ask: Ask,
        cx: &mut JobCx<Under<K>>,
        _is_run: &mut bool,
    ) -> Result<Option<Vec<Seen>>, Fault> {
        let (_, jobs, rounds) = ask;
        let mut places = Vec::new(alloc);
        for _ in 0..rounds {
            let stays = Vec::from_elem(alloc, turns_of(rounds), jobs)?;
            places = cx.for_each(rt, alloc, jobs.max(1), stays)?;
            if each_ran(&places, jobs, 1) {
                break;
            }
        }
        Ok(Some(places))
    }
}

/// One lock with slots.
pub struct InSlots<K> {
    kind: PhantomData<K>,
}

impl<K: Job<In = usize, Out = Seen, Inner = End> + Send> Nested for InSlots<K> {
    type Locks = UnderSlots<K>;

    fn open<H: Threads + Wait + Sync>(
        rt: &H,
        alloc: Global,
        ask: Ask,
        cx: &mut JobCx<UnderSlots<K>>,
        is_run: &mut bool,
    ) -> Result<Option<Vec<Seen>>, Fault> {
        let (most, jobs, rounds) = ask;
        let (most, slots) = (most.max(1), jobs.max(1).min(64));
        LockOf::<K>::nested_with_slots(
            rt,
            alloc,
            cx,
            most,
            slots,
            |leader| -> Option<Vec<Seen>>
                requires { IsSync H.row }
            {
                *is_run = true;
                let threads = leader.max_num_threads();
                Stays::<usize>::until_all_run(leader, rt, alloc, threads, jobs, rounds)
            },
        )
    }
}

/// One lock in place.
pub struct Here<J> {
    kind: PhantomData<J>,
}

impl<J: Updates<In = (), Out = (), Item = Seen, Inner = End> + Send> Nested for Here<J> {
    type Locks = UnderPieces<J, ChunkOf<J>>;

    fn open<H: Threads + Wait + Sync>(
        rt: &H,
        alloc: Global,
        ask: Ask,
        cx: &mut JobCx<UnderPieces<J, ChunkOf<J>>>,
        is_run: &mut bool,
    ) -> Result<Option<Vec<Seen>>, Fault> {
        let (most, jobs, rounds) = ask;
        let (most, slots) = (most.max(1), jobs.max(1).min(64));
        LockOf::<J>::nested_with_slots_in_place(
            rt,
            alloc,
            cx,
            most,
            slots,
            |leader| -> Option<Vec<Seen>>
                requires { IsSync H.row }
            {
                *is_run = true;
                let threads = leader.max_num_threads();
                Stays::<Seen>::until_all_run(leader, rt, alloc, threads, jobs, rounds)
            },
        )
    }
}

// A pool's threads, their pauses before they sleep, rounds of one lock (0: the jobs run in one call) and jobs; what each job asks for;
// the threads of the lock that it opens.
type Row = (usize, u32, usize, usize, Ask, usize);

// One lock after the other, more than there are child slots.
const ROUNDS: &[Row] = &[
    (2, 65536, 5, 1, (2, 2, MOST_ROUNDS), 2),
    (4, 65536, 5, 1, (2, 2, MOST_ROUNDS), 2),
    (4, 65536, 5, 1, (3, 3, MOST_ROUNDS), 3),
    (4, 65536, 5, 1, (4, 4, MOST_ROUNDS), 4),
];

const CALL: &[Row] = &[(3, 65536, 0, 1, (3, 3, MOST_ROUNDS), 3)];

const MANY: &[Row] = &[
    (1, 65536, 1, 1, (4, 3, 2), 1),
    (4, 65536, 200, 4, (2, 2, 1), 2),
    (3, 0, 2500, 4, (2, 2, 1), 2),
];

const REFUSED: &[Row] = &[
    (2, 65536, 1, 2, (2, 1, 1), 2),
    (2, 65536, 1, 2, (2, 3, 1), 2),
    (2, 65536, 1, 2, (2, 7, 1), 2),
];

// What the jobs of a row answer.
fn answers_of<K: Nested, H: Threads + Wait + Sync>(
    rt: &H,
    alloc: Global,
    row: Row,
) -> Result<Vec<Vec<Seen>>, Fault> {
    let (threads, spin, rounds, jobs, ask, _) = row;
    let pool = Pool::new(threads.max(1), Limits { spin, pause: 8 }, NoGate);
    let asks = Vec::from_elem(alloc, ask, jobs)?;
    if rounds == 0 {
        return run_one::<Opening<K>>(rt, alloc, &pool, jobs, asks);
    }
    Ok(rounds_of::<Opening<K>, _, _>(rt, alloc, &pool, 4, jobs.max(1), rounds, &asks)?.0)
}

// Plays a row.
fn play<K: Nested, H: Threads + Wait + Abort + Sync>(
    rt: &H,
    alloc: Global,
    row: Row,
) -> Result<(), Fault> {
    let (_, _, rounds, jobs, (_, inner_jobs, most_rounds), most) = row;
    let answers = answers_of::<K, H>(rt, alloc, row)?;
    is(rt, answers.len(), rounds.max(1).wrapping_mul(jobs));
    for places in answers {
        is(rt, places.len(), inner_jobs);
        let all_ran = most_rounds == 1 || each_ran(&places, most, inner_jobs / most.max(1));
        holds(rt, all_ran && all_see(&places, 1, most, most));
    }
    Ok(())
}

// Plays rows; where memory may be refused, it is asked for again.
fn play_all<K: Nested, H: Threads + Wait + Abort + Sync>(
    rt: &H,
    alloc: Global,
    rows: &[Row],
    may_be_refused: bool,
) -> Result<(), Fault> {
    for row in rows {
        if play::<K, H>(rt, alloc, *row).is_err() {
            holds(rt, may_be_refused);
            play::<K, H>(rt, alloc, *row)?;
        }
    }
    Ok(())
}

// The same by locks of each kind, in the one function that names them all.
fn play_each<H: Threads + Wait + Abort + Sync>(
    rt: &H,
    alloc: Global,
    rows: &[Row],
    may_be_refused: bool,
) -> Result<(), Fault> {
    play_all::<InRounds<Staying>, H>(rt, alloc, rows, may_be_refused)?;
    play_all::<InSlots<Staying>, H>(rt, alloc, rows, may_be_refused)?;
    play_all::<Here<InPlace<StayingHere>>, H>(rt, alloc, rows, may_be_refused)
}

#[test]
fn helpers_run_jobs_of_rounds_in_a_job(rt: HostRuntime) -> Result<(), Fault> {
    play_each(&rt, rt.alloc(), ROUNDS, false)
}

#[test]
fn helpers_run_rounds_in_the_only_job_of_a_call(rt: HostRuntime) -> Result<(), Fault> {
    play_each(&rt, rt.alloc(), CALL, false)
}

#[test]
fn helpers_run_jobs_of_locks_with_slots_in_jobs(rt: HostRuntime) -> Result<(), Fault> {
    play_each(&rt, rt.alloc(), ROUNDS, false)?;
    play_each(&rt, rt.alloc(), MANY, false)
}

#[test]
fn refused_lock_with_slots_in_a_job_opens_when_asked_again(rt: HostRuntime) -> Result<(), Fault> {
    play_each(&rt, rt.alloc(), REFUSED, true)
}
