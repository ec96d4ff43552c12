//! Runs the items of one job, between its two calls of the gate.
ghost use Rattle.std.specs.Prelude.{◌≡◌, ◌+◌, ◌≤◌, ◌++◌, List, length, vec_len, vec_capacity};
ghost use Rattle.spindle_locks.specs.Rounds.{AddsAnswers};

use crate::job::context::JobSignals;
use crate::prelude::*;
use spindle_rounds::threads::signals::Signals;
use spindle_rounds::threads::tables::JobSite;

/// What a thread of a lock runs jobs with.
#[derive(Drop)]
pub struct Runner<'a, J: Job, G: Gate> {
    pub child_slots: &'a <J::Inner as Nest>::ChildSlots,
    pub gate: &'a G,
    pub site: JobSite<'a>,
    pub signals: Signals<'a>,
}

impl<'a, J: Job, G: Gate> Runner<'a, J, G> {
    /// What this thread runs jobs with.
    pub fn new(
        child_slots: &'a <J::Inner as Nest>::ChildSlots,
        gate: &'a G,
        site: JobSite<'a>,
        signals: Signals<'a>,
    ) -> Runner<'a, J, G>
        ensures { result.site ≡ site.entry }
    {
        Runner {
            child_slots,
            gate,
            site,
            signals,
        }
    }

    /// The way into a job of this number: its context, and the gate's first call. A job that a leader runs directly has no number,
    /// and its gate is told 0.
    pub fn enter(&mut self, number: Option<usize>) -> JobCx<'a, J::Inner>
        ensures { self.new.site ≡ self.old.site }
    {
        let site = match number {
            Some(_) => self.site,
            None => self.site.directly(),
        };
        let signals = self.signals.another();
        let context = JobCx {
            child_slots: Some(self.child_slots),
            signals: JobSignals { signals },
            site,
        };
        self.gate.begun(number.unwrap_or(0));
        context
    }

    /// The way out of it: the gate's second call.
    pub fn leave(&self, number: Option<usize>) {
        self.gate.done(number.unwrap_or(0));
    }

    /// Runs the items of a job, and puts their outputs at the end of the list.
    pub fn run<H: Threads + Wait + Sync>(
        &mut self,
        rt: &H,
        alloc: Global,
        number: Option<usize>,
        items: &[J::In],
        outputs: &mut Vec<J::Out>,
    )
        requires room { vec_len outputs.old + length items.now ≤ vec_capacity outputs.old }
        ensures answered { AddsAnswers J.meets items.now outputs.old.items outputs.new.items }
        ensures room { vec_capacity outputs.new ≡ vec_capacity outputs.old }
        ensures len { vec_len outputs.new ≡ vec_len outputs.old + length items.now }
        ensures site { self.new.site ≡ self.old.site }
    {
        let mut context = self.enter(number);
        run_each::<J, H>(rt, alloc, items, &mut context, outputs);
        self.leave(number);
    }

    /// Runs a job of one item, and answers its output.
    pub fn run_one<H: Threads + Wait + Sync>(
        &mut self,
        rt: &H,
        alloc: Global,
        number: Option<usize>,
        item: &J::In,
    ) -> J::Out
        ensures answered { J.meets item.now result }
        ensures site { self.new.site ≡ self.old.site }
    {
        let mut context = self.enter(number);
        let output = J::run(rt, alloc, item, &mut context);
        self.leave(number);
        output
    }
}

/// Runs the items one after the other, and puts their outputs at the end of the list.
pub fn run_each<J: Job, H: Threads + Wait + Sync>(
    rt: &H,
    alloc: Global,
    items: &[J::In],
    context: &mut JobCx<'_, J::Inner>,
    outputs: &mut Vec<J::Out>,
)
    requires room { vec_len outputs.old + length items.now ≤ vec_capacity outputs.old }
    ensures answered { AddsAnswers J.meets items.now outputs.old.items outputs.new.items }
    ensures room { vec_capacity outputs.new ≡ vec_capacity outputs.old }
    ensures len { vec_len outputs.new ≡ vec_len outputs.old + length items.now }
{
    for item in items {
        outputs.push_reserved(J::run(rt, alloc, item, context));
    }
}
