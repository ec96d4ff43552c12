//! Rows of jobs that open a lock, one under the other too: who comes there, and what its rounds answer.
//!
//! No clause says that helpers come to a lock, or that none comes where the job that opens it runs directly in another, nor that such
//! locks end at all, two and three one in the other.
ghost use Rattle.std.proofs.Common.{rules};
ghost use denote.Param.Send.{IsSync};

use crate::checks::{holds, is};
use crate::gates::{Meetings, take_turn};
use crate::jobs::Idle;
use crate::rounds::rounds_of;
use spindle_locks::job::gate::NoGate;
use spindle_locks::lock::leader::Leader;
use spindle_locks::lock::nested::Under;
use spindle_locks::lock::workspace::Opens;
use spindle_locks::prelude::*;
use spindle_rounds::threads::limits::Limits;
use std::marker::PhantomData;
use std::process::Abort;

/// What a job is asked for: a lock of so many threads, for which it waits so many turns at most, and a round of so many units there. A
/// kind above has it with so many quiet ones beside it, which wait for no thread.
#[derive(Clone, Copy, PartialEq, Eq)]
pub struct Ask(usize, usize, usize, usize);

/// How many threads came to the lock, how many it has at most, and how many units were answered there.
#[derive(Clone, Copy, PartialEq, Eq)]
pub struct Answer(usize, usize, usize);

/// Opens the lock that it is asked for; all three numbers are 0 where it was refused.
pub struct Opening;

impl Job for Opening {
    type In = Ask;

    type Out = Answer;

    type Inner = Under<Idle>;

    ghost meets = { λ _ _. Unit {0} };

    fn run<H: Threads + Wait + Sync>(
        rt: &H,
        alloc: Global,
        ask: &Ask,
        cx: &mut JobCx<Under<Idle>>,
    ) -> Answer {
        let Ask(threads, turns, units, _) = *ask;
        let answer = cx.with_lock(
            rt,
            alloc,
            threads.max(1),
            |leader| -> Answer
                requires { IsSync H.row }
            { lead(rt, alloc, leader, turns, units) },
        );
        answer.unwrap_or(Answer(0, 0, 0))
    }

    ghost equal_is_same = { Prim.search rules };
}

// Waits for the threads of a lock, and runs units there.
fn lead<L, H: Threads + Wait + Sync>(
    rt: &H,
    alloc: Global,
    leader: &mut Leader<Idle, NoGate, L>,
    turns: usize,
    units: usize,
) -> Answer
where
    Idle: Opens<L>,
{
    let most = leader.max_num_threads();
    for turn in 0..turns {
        if leader.current_num_threads() == most {
            break;
        }
        take_turn(turn);
    }
    let there = leader.current_num_threads();
    let Ok(items) = Vec::from_elem(alloc, (), units) else {
        return Answer(there, most, 0);
    };
    match leader.for_each(rt, alloc, units.max(1), items) {
        Ok(answers) => Answer(there, most, answers.len()),
        Err(_) => Answer(there, most, 0),
    }
}

/// Has what it is asked for answered by a round of jobs of kind K, with quiet ones beside it. Answers who came to the first one's lock,
/// and how many units were answered in all.
pub struct Above<K> {
    below: PhantomData<K>,
}

impl<K: Job<In = Ask, Out = Answer>> Job for Above<K> {
    type In = Ask;

    type Out = Answer;

    type Inner = Under<K>;

    ghost meets = { λ _ _. Unit {0} };

    fn run<H: Threads + Wait + Sync>(
        rt: &H,
        alloc: Global,
        ask: &Ask,
        cx: &mut JobCx<Under<K>>,
    ) -> Answer {
        let quiet = Ask(1, 0, 1, ask.3);
        let Ok(mut asks) = Vec::from_elem(alloc, quiet, ask.3.min(1000) + 1) else {
            return Answer(0, 0, 0);
        };
        asks[0] = *ask;
        match cx.for_each(rt, alloc, asks.len().max(1), asks) {
            Ok(answers) => in_all(&answers),
            Err(_) => Answer(0, 0, 0),
        }
    }

    ghost equal_is_same = { Prim.search rules };
}

// The threads of the first, and the units of all.
fn in_all(answers: &[Answer]) -> Answer {
    let Some(first) = answers.first() else {
        return Answer(0, 0, 0);
    };
    let mut units = 0usize;
    for answer in answers {
        units = units.wrapping_add(answer.2);
    }
    Answer(first.0, first.1, units)
}

// A pool's threads, a lock's at most, jobs and rounds of it; what is asked for, and how many jobs ask for it; what each answers: threads
// that come to its lock (0: any number), its threads, units.
type Row = (usize, usize, usize, usize, Ask, usize, Answer);

// More turns than other programs keep a processor away from a thread.
const WAIT: usize = 3000000000;

// A helper that could come would come.
const IN_VAIN: usize = 100000;

const ROWS: &[Row] = &[
    // More locks one after the other than there are slots for them.
    (2, 2, 1, 8, Ask(2, WAIT, 2, 0), 1, Answer(2, 2, 2)),
    // Two jobs that have met each open a lock, so both locks stand at once, each in a slot of its own. A leader that has no job
    // waits for the round's end, so there are two helpers more.
    (5, 5, 2, 8, Ask(2, WAIT, 3, 0), 2, Answer(2, 2, 3)),
    (4, 4, 1, 8, Ask(4, WAIT, 4, 0), 1, Answer(4, 4, 4)),
    (4, 4, 1, 8, Ask(3, WAIT, 3, 0), 1, Answer(3, 3, 3)),
    (1, 4, 1, 1, Ask(4, WAIT, 3, 0), 1, Answer(1, 1, 3)),
    (16, 4, 2, 1, Ask(4, 0, 4, 0), 4, Answer(0, 4, 4)),
];

// Two kinds of jobs: in the first row three of four threads come to a lock of a job of a job, since the fourth may be a leader that has
// no job. A job that runs directly in another has no slots, so the lock that it opens has its leader alone; in one job three helpers
// are idle meanwhile, in two jobs two.
const TWO_KINDS: &[Row] = &[
    (4, 4, 1, 8, Ask(3, WAIT, 3, 3), 1, Answer(3, 3, 6)),
    (4, 4, 1, 1, Ask(4, IN_VAIN, 1, 0), 2, Answer(1, 4, 1)),
    (4, 4, 2, 1, Ask(4, IN_VAIN, 1, 0), 2, Answer(1, 4, 1)),
];

// Three kinds of jobs, and a fourth in the locks that the third opens. In the first row two of the four threads may be leaders that have
// no job.
const THREE_KINDS: &[Row] = &[
    (4, 4, 1, 8, Ask(2, WAIT, 2, 3), 1, Answer(2, 2, 17)),
    (2, 2, 2, 20, Ask(2, 0, 3, 2), 3, Answer(0, 2, 11)),
    (8, 8, 3, 20, Ask(3, 0, 3, 2), 3, Answer(0, 3, 11)),
];

// Plays rows. The kind of job is a parameter, which hides from a check what lies below it.
fn play<K: Job<In = Ask, Out = Answer> + Send, H: Threads + Wait + Abort + Sync>(
    rt: &H,
    alloc: Global,
    rows: &[Row],
) -> Result<(), Fault>
where
    K::Inner: Send,
    <K::Inner as Nest>::ChildSlots: Send + Sync,
{
    for row in rows {
        let (threads, most, jobs, rounds, ask, asks, wanted) = *row;
        let meetings = Meetings::new();
        let pool = Pool::new(threads.max(1), Limits::new(), meetings.of_jobs(jobs));
        let asks = Vec::from_elem(alloc, ask, asks)?;
        let (most, jobs) = (most.max(1), jobs.max(1));
        let (answers, _) = rounds_of::<K, _, _>(rt, alloc, &pool, most, jobs, rounds, &asks)?;
        is(rt, answers.len(), asks.len().wrapping_mul(rounds));
        for Answer(there, most, units) in answers {
            is(rt, (most, units), (wanted.1, wanted.2));
            let some_are = wanted.0 == 0 && 0 < there && there <= most;
            holds(rt, there == wanted.0 || some_are);
        }
    }
    Ok(())
}

#[test]
fn helpers_come_to_locks_of_each_size(rt: HostRuntime) -> Result<(), Fault> {
    play::<Opening, _>(&rt, rt.alloc(), ROWS)
}

// The same one kind of job further up.
fn play_above<K: Job<In = Ask, Out = Answer> + Send, H: Threads + Wait + Abort + Sync>(
    rt: &H,
    alloc: Global,
    rows: &[Row],
) -> Result<(), Fault>
where
    K::Inner: Send,
    <K::Inner as Nest>::ChildSlots: Send + Sync,
{
    play::<Above<K>, H>(rt, alloc, rows)
}

// The same one and two kinds further up, each named where the one below it is hidden.
fn play_far_above<K: Job<In = Ask, Out = Answer> + Send, H: Threads + Wait + Abort + Sync>(
    rt: &H,
    alloc: Global,
) -> Result<(), Fault>
where
    K::Inner: Send,
    <K::Inner as Nest>::ChildSlots: Send + Sync,
{
    play_above::<K, H>(rt, alloc, TWO_KINDS)?;
    play_above::<Above<K>, H>(rt, alloc, THREE_KINDS)
}

#[test]
fn helpers_come_to_locks_of_jobs_of_jobs(rt: HostRuntime) -> Result<(), Fault> {
    play_far_above::<Opening, _>(&rt, rt.alloc())
}
