//! What a job is given beside its input: where it runs.
//!
//! A job sees of its context what the methods tell. By the functions and `JobSignals` the crates above open locks in jobs, and `spindle`
//! doesn't give them out.
ghost use Rattle.std.specs.Prelude.{◌≡◌, ◌+◌, ◌<◌, ◌≤◌, IfSome};
ghost use Rattle.spindle_rounds.specs.ThreadCounts.{lock_threads};
ghost use Rattle.spindle_locks.specs.Locks.{nested_workers};

use crate::job::nest::Nest;
use spindle_rounds::round_table::slots::SlotContents;
use spindle_rounds::threads::ThreadCounts;
use spindle_rounds::threads::signals::{HelperRequest, Signals};
use spindle_rounds::threads::tables::{JobSite, Tables};
use std::marker::Model;

/// The context of a job whose kind has the inner nest N.
#[derive(Drop)]
pub struct JobCx<'a, N: Nest> {
    // The lock's child slots; none in a job that another job runs directly.
    pub(crate) child_slots: Option<&'a N::ChildSlots>,
    /// By this the library asks for the helpers of a lock that the job opens.
    pub signals: JobSignals<'a>,
    // What it sees of its lock.
    pub(crate) site: JobSite<'a>,
}

/// A job's access to what its lock's threads announce. Who has no tables of a lock, as a job hasn't, can do nothing with it.
#[derive(Drop)]
pub struct JobSignals<'a> {
    pub(crate) signals: Signals<'a>,
}

impl<'a> JobSignals<'a> {
    ghost use Rattle.spindle_rounds.specs.Accounts.{account_of};

    /// Asks for a helper for each thread but the leader of the lock with these tables, which the job opens.
    pub fn ask<D: SlotContents>(&mut self, tables: &Tables<D>) -> HelperRequest<'a>
        ensures same { account_of self.new.signals ≡ account_of self.old.signals }
        ensures helpers { 1 + result.helpers ≡ tables.now.counts.threads }
    {
        self.signals.ask(tables)
    }
}

impl<'a, N: Nest> Model for JobCx<'a, N> {
    ghost use Rattle.std.specs.Prelude.{is_some};
    ghost use Rattle.spindle_locks.specs.Locks.{ContextView, context_at};
    ghost use Rattle.spindle_rounds.specs.Accounts.{account_of};

    ghost Value = { ContextView };

    ghost view = { λ c. context_at (is_some c.child_slots) c.site (account_of c.signals.signals) };
}

impl<'a, N: Nest> JobCx<'a, N> {
    ghost use Rattle.spindle_rounds.specs.Accounts.{account_of};
    ghost use Rattle.spindle_rounds.specs.Signals.{AnnouncedRest};
    ghost use Rattle.spindle_locks.specs.Locks.{RunsDirectly, context_at, knowing};

    /// The context of a job that one at this site runs directly.
    pub(crate) fn within(signals: Signals<'a>, site: &JobSite<'a>) -> JobCx<'a, N>
        ensures { RunsDirectly site.now result }
    {
        JobCx {
            child_slots: None,
            signals: JobSignals { signals },
            site: site.within(),
        }
    }

    /// How many threads take part in the lock at this moment, its leader counted. In a job that another job runs directly it is
    /// the number of when the job began.
    pub fn current_num_threads(&self) -> usize
        ensures leader { 0 < result }
        ensures most { result ≤ self.now.threads }
        ensures told { IfSome self.now.told (λ now. result ≡ now) }
    {
        self.site.current()
    }

    /// The lock's threads.
    pub fn max_num_threads(&self) -> usize
        ensures { result ≡ self.now.threads }
    {
        self.site.counts.most()
    }

    /// The number of the thread that runs the job, the leader's being 0; None in a job that a leader runs
    /// directly.
    pub fn current_thread_index(&self) -> Option<usize>
        ensures index { result ≡ self.now.index }
        ensures number { IfSome result (λ index. index < self.now.threads) }
    {
        self.site.index
    }

    /// Tells idle helpers of the lock to sleep at once until its next round. A leader that works alone has none.
    pub fn relieve_workers(&mut self)
        ensures rest { AnnouncedRest self.old.account self.new.account }
        ensures same { self.new ≡ knowing self.new.account self.old }
    {
        self.signals.signals.announce_rest();
    }
}

/// Where a job runs.
pub fn site_of<'a, N: Nest>(cx: &JobCx<'a, N>) -> JobSite<'a>
    ensures threads { result.counts.most ≡ cx.now.threads }
    ensures pool { result.counts.pool ≡ cx.now.pool }
{
    cx.site
}

/// The threads of a lock that the job opens. Its leader is alone where there are no child slots.
pub fn counts_for<N: Nest>(cx: &JobCx<'_, N>, max_threads: usize) -> ThreadCounts
    requires some { 0 < max_threads }
    ensures most { result.most ≡ lock_threads cx.now.pool max_threads }
    ensures workers { result.threads ≡ nested_workers cx.now.has_slots result.most }
{
    let counts = cx.site.counts.nested(max_threads);
    match cx.child_slots {
        Some(_) => counts,
        None => counts.alone(),
    }
}

/// The child slots for a lock of so many threads that the job opens, where helpers may come to it.
pub fn child_slots_for<'a, N: Nest>(
    cx: &JobCx<'a, N>,
    counts: ThreadCounts,
) -> Option<&'a N::ChildSlots> {
    if counts.threads() > 1 {
        cx.child_slots
    } else {
        None
    }
}
