//! Who ran which job when: of a round of one lock, and of the rounds in locks that two jobs open. The jobs note their begin and
//! their end at a clock that all of them share, and answer both with the number of the thread that ran them.
ghost use Rattle.std.specs.Prelude.{◌≡◌, ◌<◌, IfOk, vec_len};
ghost use Rattle.std.proofs.Common.{rules};

use crate::clocked::{Clocked, Span};
use crate::stop::Stop;
use spindle::prelude::*;
use std::io::Print;

/// The jobs of the one lock's round.
const JOBS: usize = 8;

/// How many jobs open a lock, and how many jobs the round of each such lock has.
const LOCKS: usize = 2;

const JOBS_OF_A_LOCK: usize = 6;

/// Goes on for its turns.
pub struct Turns;

impl Job for Turns {
    type In = Clocked;

    type Out = Span;

    type Inner = End;

    ghost meets = { λ _ _. Unit {0} };

    fn run<H: Threads + Wait + Sync>(
        _rt: &H,
        _alloc: Global,
        turns: &Clocked,
        cx: &mut JobCx<End>,
    ) -> Span {
        turns.run(cx.current_thread_index())
    }

    ghost equal_is_same = { Prim.search rules };
}

/// Opens a lock for a round of jobs that go on for its turns each.
pub struct OpensLock;

impl Job for OpensLock {
    type In = Clocked;

    type Out = Result<Vec<Span>, Fault>;

    type Inner = Under<Turns>;

    ghost meets = { λ _ _. Unit {0} };

    fn run<H: Threads + Wait + Sync>(
        rt: &H,
        alloc: Global,
        turns: &Clocked,
        cx: &mut JobCx<Under<Turns>>,
    ) -> Result<Vec<Span>, Fault> {
        let jobs = turns.copies(alloc, JOBS_OF_A_LOCK)?;
        cx.for_each(rt, alloc, JOBS_OF_A_LOCK, jobs)
    }

    ghost equal_is_same = { Prim.search rules };
}

// A round in a lock of two threads, job by job.
fn round<H: Threads + Wait + Sync>(rt: &H, alloc: Global) -> Result<Vec<Span>, Fault>
    ensures { IfOk result (λ spans. vec_len spans ≡ 8) }
{
    let pool = Pool::new(2, Limits::new(), NoGate);
    let jobs = Clocked::new(alloc)?.copies(alloc, JOBS)?;
    let spans = run_one::<Turns>(rt, alloc, &pool, JOBS, jobs)?;
    Ok(spans)
}

// The round of each lock that a job opened, in a lock of four threads.
fn nested<H: Threads + Wait + Sync>(
    rt: &H,
    alloc: Global,
) -> Result<Vec<Result<Vec<Span>, Fault>>, Fault> {
    let pool = Pool::new(4, Limits::new(), NoGate);
    let locks = Clocked::new(alloc)?.copies(alloc, LOCKS)?;
    run_one::<OpensLock>(rt, alloc, &pool, LOCKS, locks)
}

/// Prints a line for each job: its number, its thread, and the events of its begin and its end. A nested round has a line before.
pub fn print<H: Threads + Wait + Sync + Print>(rt: &H, alloc: Global) -> Result<(), Stop> {
    print_spans(rt, "trace", round(rt, alloc)?)?;
    for spans in nested(rt, alloc)? {
        println!(rt; "lock")?;
        print_spans(rt, "nested", spans?)?;
    }
    Ok(())
}

// A line for each job of a round.
fn print_spans<H: Print>(rt: &H, word: &str, spans: Vec<Span>) -> Result<(), Stop> {
    for (job, span) in spans.into_iter().enumerate() {
        let thread = span.thread.unwrap_or(0);
        println!(rt; "{word} {job} {thread} {} {}", span.begun, span.done)?;
    }
    Ok(())
}
