//! A piece of a round in place that may stop. (Its clauses stand apart from those of the round, whose words name it.)
ghost use Rattle.std.specs.Prelude.{◌≡◌, ◌≤◌, None, true, false, vec_len, vec_capacity};
ghost use Rattle.std.specs.List.{AllZip};

use crate::prelude::*;
use spindle_locks::pieces::tally::has_failure;
use spindle_locks::running::runner::run_each;
use std::sync::Arc;
use std::sync::atomic::{AtomicBool, Ordering};

/// A piece of a round that may stop: its items, and an output for each of them where it ran.
#[derive(Drop)]
pub struct Attempt<A, B> {
    pub(crate) items: Vec<A>,
    pub(crate) outputs: Vec<B>,
    pub(crate) ran: bool,
    /// None where nothing may keep the piece from running.
    pub(crate) stop: Option<Arc<AtomicBool>>,
    ghost room: { vec_len items ≤ vec_capacity outputs },
}

impl<A: Drop, B: Drop> Attempt<A, B> {
    /// The items.
    pub fn items(&self) -> &[A]
        ensures { result.now ≡ self.now.items.items }
    {
        self.items.as_slice()
    }

    /// Whether the piece ran. Else it was skipped, and has no outputs.
    pub fn ran(&self) -> bool
        ensures { result ≡ self.now.ran }
    {
        self.ran
    }

    /// The outputs, one for each item where the piece ran.
    pub fn outputs(&self) -> &[B]
        ensures { result.now ≡ self.now.outputs.items }
    {
        self.outputs.as_slice()
    }

    /// The items and the outputs.
    pub fn into_lists(self) -> (Vec<A>, Vec<B>)
        ensures { (result.0 ≡ self.items) × (result.1 ≡ self.outputs) }
    {
        let Attempt { items, outputs, .. } = self;
        (items, outputs)
    }

    /// Whether the stop was told.
    pub(crate) fn is_stopped(&self) -> bool
        ensures { self.now.stop ≡ None → result ≡ false }
    {
        match &self.stop {
            Some(stop) => stop.load(Ordering::Relaxed),
            None => false,
        }
    }

    /// The piece with the outputs of its items; a failure tells the stop.
    pub(crate) fn run<J: Job<In = A, Out = B>, H: Threads + Wait + Sync>(
        self,
        rt: &H,
        alloc: Global,
        cx: &mut JobCx<J::Inner>,
    ) -> Attempt<A, B>
        ensures items { result.items ≡ self.items }
        ensures ran { result.ran ≡ true }
        ensures right { AllZip J.meets self.items.items result.outputs.items }
    {
        let Attempt {
            items,
            mut outputs,
            stop,
            ..
        } = self;
        outputs.clear();
        run_each::<J, H>(rt, alloc, items.as_slice(), cx, &mut outputs);
        if let Some(stop) = &stop {
            if has_failure::<J>(outputs.as_slice()) {
                stop.store(true, Ordering::Relaxed);
            }
        }
        Attempt {
            items,
            outputs,
            ran: true,
            stop,
        }
    }
}
