//! Rounds that may stop, in place: a piece that fails keeps those from running that nobody has begun. Nothing is compared, memory is
//! the only refusal, and all items come back.
//!
//! The pieces of a round share a stop. Who runs a piece that fails tells it, and a piece that finds it told stays as it was. No clause
//! follows a value through the stop. So the leader looks at what came back: where pieces were skipped and none that ran has failed, it
//! runs them itself. No test has met that.
ghost use Rattle.std.specs.Prelude.{◌≡◌, ◌⊎◌, ◌<◌, None, true, IfOk, IsOk, OnErr, IsErrOf, map, vec_len};
ghost use Rattle.std.specs.List.{All, AllZip, Any};
ghost use Rattle.spindle_parts.specs.Pieces.{cut_lengths, joined};
ghost use Rattle.spindle.specs.OneRound.{asked_jobs};
ghost use Rattle.spindle.specs.SlotLeaders.{threads_of, lock_slots};
ghost use Rattle.spindle.specs.Attempts.{AreAttempts, HasFailed, HasRun, IsAttempted, IsSkipped, IsUnstopped};

use crate::kernels::change_each;
use crate::prelude::*;
use spindle_locks::job::nest::Nest;
use spindle_locks::pieces::tally::has_failure;
use spindle_parts::cut::{Piece, cut};
use std::marker::PhantomData;
use std::sync::Arc;
use std::sync::atomic::AtomicBool;

/// The kind of job that runs pieces by jobs of kind J, as long as none has failed.
pub struct Attempting<J> {
    kind: PhantomData<J>,
}

impl<J: Job> Update for Attempting<J> {
    type Item = Attempt<J::In, J::Out>;

    type Inner = J::Inner;

    ghost updated = { IsAttempted J.meets };

    fn run<H: Threads + Wait + Sync>(
        rt: &H,
        alloc: Global,
        attempt: Attempt<J::In, J::Out>,
        cx: &mut JobCx<J::Inner>,
    ) -> Attempt<J::In, J::Out> {
        if attempt.ran || attempt.is_stopped() {
            attempt
        } else {
            attempt.run::<J, H>(rt, alloc, cx)
        }
    }
}

/// The kind of job of a lock in place whose rounds may stop, opened by `LockOf::<AttemptsOf<J>>::with_slots_in_place`.
pub type AttemptsOf<J> = InPlace<Attempting<J>>;

// Lets nothing keep a piece from running.
#[derive(Drop)]
struct Unstopped<A, B> {
    pieces: PhantomData<(A, B)>,
}

impl<A: Drop, B: Drop> Change for Unstopped<A, B> {
    type Item = Attempt<A, B>;

    ghost changes = { λ _ old new. IsUnstopped old new };

    fn change(&self, attempt: &mut Attempt<A, B>) {
        attempt.stop = None;
    }
}

/// Runs the items by jobs of kind J, in one round of `n_jobs` jobs that stops where a piece has failed: one of its outputs is a failure.
/// Where `n_jobs` is 0, there are as many jobs as the pool has threads. The lock is that of `update_one`.
///
/// The pieces come back in their order, of the lengths into which `cut` cuts the items. Those that ran have an output for each of their
/// items, the others none. Which ran depends on the threads. No items are no job: that takes no memory and opens no lock. A refusal,
/// for memory alone, gives the items up.
pub fn try_one<J: Job + Send, G: Gate + Sync, H: Threads + Wait + Sync>(
    rt: &H,
    alloc: Global,
    pool: &Pool<G>,
    n_jobs: usize,
    items: Vec<J::In>,
) -> Result<Vec<Attempt<J::In, J::Out>>, Fault>
where
    J::In: Send,
    J::Out: Send,
    J::Inner: Send,
    <J::Inner as Nest>::ChildSlots: Send + Sync,
    ensures attempts { let n = asked_jobs pool.now.threads n_jobs in
        IfOk result (λ pieces. AreAttempts J.meets J.fails items n pieces.items) }
    ensures memory { OnErr result (IsErrOf result Fault.Memory) }
    ensures empty { vec_len items ≡ 0 → IsOk result }
{
    if items.is_empty() {
        return Ok(Vec::new(alloc));
    }
    let asked = if n_jobs == 0 {
        pool.max_num_threads()
    } else {
        n_jobs
    };
    let attempts = attempts_of(alloc, items, asked)?;
    let mut attempts = update_one::<InPlace<Attempting<J>>, G, H>(
        rt, alloc, pool, n_jobs, attempts,
    )?;
    if is_over::<J>(attempts.as_slice()) {
        return Ok(attempts);
    }
    unstop(&mut attempts);
    Ok(update_one::<InPlace<Attempting<J>>, G, H>(rt, alloc, pool, 1, attempts)?)
}

impl<'a, J: Job, G: Gate> PlaceLeader<'a, Attempting<J>, G> {
    /// Runs the items by jobs of kind J, in a round of this lock that stops where a piece has failed, as `try_one` does. There are at most
    /// `n_jobs` jobs, and no more than the lock has slots or the list items. A refusal gives the items up.
    pub fn try_each<H: Threads + Wait + Sync>(
        &mut self,
        rt: &H,
        alloc: Global,
        n_jobs: usize,
        items: Vec<J::In>,
    ) -> Result<Vec<Attempt<J::In, J::Out>>, Fault>
        requires jobs { 0 < n_jobs }
        ensures attempts { IfOk result (λ pieces.
            AreAttempts J.meets J.fails items n_jobs pieces.items) }
        ensures memory { OnErr result (IsErrOf result Fault.Memory) }
        ensures lock { threads_of self.new ≡ threads_of self.old }
        ensures slots { lock_slots self.new ≡ lock_slots self.old }
    {
        let mut attempts = attempts_of(alloc, items, n_jobs)?;
        self.update_all(rt, alloc, n_jobs, &mut attempts)?;
        if is_over::<J>(attempts.as_slice()) {
            return Ok(attempts);
        }
        unstop(&mut attempts);
        self.update_all(rt, alloc, 1, &mut attempts)?;
        Ok(attempts)
    }
}

// Lets nothing keep these pieces from running.
fn unstop<A: Drop, B: Drop>(attempts: &mut Vec<Attempt<A, B>>)
    ensures { AllZip IsUnstopped attempts.old.items attempts.new.items }
{
    let unstopped = Unstopped::<A, B> {
        pieces: PhantomData,
    };
    change_each(&unstopped, attempts);
}

// The items in pieces that share a stop, which isn't told.
fn attempts_of<A: Drop, B: Drop>(
    alloc: Global,
    mut items: Vec<A>,
    n_jobs: usize,
) -> Result<Vec<Attempt<A, B>>, Fault>
    requires { 0 < n_jobs }
    ensures whole { IfOk result (λ attempts.
        joined (map (λ attempt. attempt.items.items) attempts.items) ≡ items.items) }
    ensures lengths { IfOk result (λ attempts.
        map (λ attempt. vec_len attempt.items) attempts.items ≡ cut_lengths (vec_len items) n_jobs) }
    ensures none { IfOk result (λ attempts. All IsSkipped attempts.items) }
    ensures memory { OnErr result (IsErrOf result Fault.Memory) }
{
    let pieces = cut(alloc, &mut items, n_jobs)?;
    Ok(with_stop(alloc, pieces)?)
}

// The pieces with room for their outputs, and with one stop, which isn't told.
fn with_stop<A: Drop, B: Drop>(
    alloc: Global,
    pieces: Vec<Piece<A>>,
) -> Result<Vec<Attempt<A, B>>, AllocError>
    ensures items { IfOk result (λ attempts.
        map (λ attempt. attempt.items) attempts.items ≡ map (λ p. p.items) pieces.items) }
    ensures none { IfOk result (λ attempts. All IsSkipped attempts.items) }
{
    let mut attempts = Vec::with_capacity(alloc, pieces.len())?;
    let stop = Arc::new(alloc, AtomicBool::new(false))?;
    for piece in pieces {
        let Piece { items, .. } = piece;
        let outputs = Vec::with_capacity(alloc, items.len())?;
        let stop = Some(stop.clone()?);
        let ran = false;
        attempts.push_reserved(Attempt {
            items,
            outputs,
            ran,
            stop,
        });
    }
    Ok(attempts)
}

// Whether all pieces ran, or one that ran has failed.
fn is_over<J: Job>(attempts: &[Attempt<J::In, J::Out>]) -> bool
    ensures { result ≡ true → All HasRun attempts.now ⊎ Any (HasFailed J.fails) attempts.now }
{
    if all_ran(attempts) {
        return true;
    }
    any_failed::<J>(attempts)
}

// Whether all pieces ran.
fn all_ran<A: Drop, B: Drop>(attempts: &[Attempt<A, B>]) -> bool
    ensures { result ≡ true → All HasRun attempts.now }
{
    for attempt in attempts {
        if !attempt.ran {
            return false;
        }
    }
    true
}

// Whether a piece that ran has failed.
fn any_failed<J: Job>(attempts: &[Attempt<J::In, J::Out>]) -> bool
    ensures { result ≡ true → Any (HasFailed J.fails) attempts.now }
{
    for attempt in attempts {
        if attempt.ran && has_failure::<J>(attempt.outputs.as_slice()) {
            return true;
        }
    }
    false
}
