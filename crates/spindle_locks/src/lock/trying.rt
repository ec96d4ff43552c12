//! Rounds of a lock that may stop: a piece that fails stops its round, and the leader learns which pieces ran.
ghost use Rattle.std.specs.Prelude.{◌≡◌, ◌<◌, ◌≤◌, IfOk, IfErr, OnOk, OnErr, IsErrOf, vec_len};
ghost use Rattle.std.specs.List.{Contains};
ghost use Rattle.spindle_locks.specs.Leaders.{AreLeft, GoesOn, IsBlank, IsSameLock, IsTallied, IsTryRefusal, MadeNoStep, TriedAs};
ghost use Rattle.spindle_locks.specs.Reports.{IsOfNone, IsReport};
ghost use Rattle.spindle_locks.specs.Rounds.{job_count};

use crate::lock::leader::{Leader, MOST_JOBS};
use crate::lock::workspace::Opens;
use crate::pieces::list_runs::ListRuns;
use crate::pieces::place::SpareLists;
use crate::pieces::report::Report;
use crate::pieces::tally::Tally;
use crate::prelude::*;
use crate::running::in_trays::play_in_trays;
use crate::running::sequential::{make_buffers, play_sequential};
use std::mem;

impl<'a, J: Opens<L>, G: Gate, L> Leader<'a, J, G, L> {
    /// Runs the items in as many jobs as `for_each` does, until a job fails: one of its outputs does, as `Job::failed` says.
    /// A job that has begun runs all its items. A thread that has seen the stop begins no other; one that hasn't may. The report
    /// says which pieces ran, with their outputs, and which were skipped.
    ///
    /// A leader that works alone runs the pieces in order, and none after the first that failed. One job is run by the
    /// leader directly. No items are no job: that round takes no memory. After a refusal the lock can be used further; the
    /// items are given up.
    pub fn try_for_each<H: Threads + Wait + Sync>(
        &mut self,
        rt: &H,
        alloc: Global,
        n_jobs: usize,
        items: Vec<J::In>,
    ) -> Result<Report<J::Out>, Fault>
        requires jobs { 0 < vec_len items → 0 < n_jobs }
        ensures report { let jobs = job_count (vec_len items) n_jobs in
            IfOk result (IsReport J.meets J.fails items.items jobs) }
        ensures skipped { let jobs = job_count (vec_len items) n_jobs in
            2 ≤ jobs → IfOk result (λ report.
            AreLeft jobs (Contains report.skipped.items) self.old self.new) }
        ensures refused { let jobs = job_count (vec_len items) n_jobs in
            IfErr result (IsTryRefusal J.meets J.fails items.items jobs self.old self.new) }
        ensures trail { let jobs = job_count (vec_len items) n_jobs in
            TriedAs jobs self.old self.new result }
        ensures goes_on { GoesOn self.old self.new }
    {
        let mut report = Report::new(alloc);
        self.try_for_each_into(rt, alloc, n_jobs, items, &mut report)?;
        Ok(report)
    }

    /// As `try_for_each`, with the report where the caller keeps it: what stood there goes, and the memory of its lists serves
    /// again. After a refusal it is a report of no pieces.
    pub fn try_for_each_into<H: Threads + Wait + Sync>(
        &mut self,
        rt: &H,
        alloc: Global,
        n_jobs: usize,
        items: Vec<J::In>,
        report: &mut Report<J::Out>,
    ) -> Result<(), Fault>
        requires jobs { 0 < vec_len items → 0 < n_jobs }
        ensures report { let jobs = job_count (vec_len items) n_jobs in
            OnOk result (IsReport J.meets J.fails items.items jobs report.new) }
        ensures skipped { let jobs = job_count (vec_len items) n_jobs in
            2 ≤ jobs → OnOk result (AreLeft jobs
            (Contains report.new.skipped.items) self.old self.new) }
        ensures given_up { OnErr result (IsOfNone report.new) }
        ensures refused { let jobs = job_count (vec_len items) n_jobs in
            IfErr result (IsTryRefusal J.meets J.fails items.items jobs self.old self.new) }
        ensures trail { let jobs = job_count (vec_len items) n_jobs in
            TriedAs jobs self.old self.new result }
        ensures goes_on { GoesOn self.old self.new }
    {
        let Report { ran, skipped } = mem::replace(report, Report::new(alloc));
        if items.is_empty() {
            return Ok(());
        }
        let jobs = items.len().min(n_jobs.min(MOST_JOBS));
        let pieces = ListRuns::cut(alloc, items, jobs)?;
        *report = self.try_pieces(rt, alloc, &pieces, SpareLists::new(ran), skipped)?;
        Ok(())
    }

    // The round of the pieces, which are tallied, and the report of the tally.
    fn try_pieces<H: Threads + Wait + Sync>(
        &mut self,
        rt: &H,
        alloc: Global,
        pieces: &ListRuns<J::In>,
        mut spares: SpareLists<J::Out>,
        skipped: Vec<usize>,
    ) -> Result<Report<J::Out>, Fault>
        requires most { pieces.now.count ≤ 4294967295 }
        ensures report { IfOk result (IsReport J.meets J.fails pieces.now.items pieces.now.count) }
        ensures skipped { 2 ≤ pieces.now.count → IfOk result (λ report.
            AreLeft pieces.now.count (Contains report.skipped.items) self.old self.new) }
        ensures refused { IfErr result (IsTryRefusal J.meets J.fails
            pieces.now.items pieces.now.count self.old self.new) }
        ensures trail { TriedAs pieces.now.count self.old self.new result }
        ensures lock { IsSameLock self.old self.new }
    {
        let mut left = vec![in alloc; false; pieces.count()]?;
        let mut tally = Tally::new::<J>(alloc, pieces, skipped)?;
        self.try_jobs(rt, alloc, pieces, &mut spares, &mut left, &mut tally)?;
        match tally.finish::<J>(pieces, left.as_slice()) {
            Ok(report) => Ok(report),
            Err(number) => Err(Fault::Lost(number)),
        }
    }

    // A round with the helpers, if any may take part: hand out, publish, work, wait, mark what is left, and note what came back.
    fn try_jobs<H: Threads + Wait + Sync>(
        &mut self,
        rt: &H,
        alloc: Global,
        pieces: &ListRuns<J::In>,
        spares: &mut SpareLists<J::Out>,
        left: &mut Vec<bool>,
        tally: &mut Tally<J::Out>,
    ) -> Result<(), Fault>
        requires most { pieces.now.count ≤ 4294967295 }
        requires blank { IsBlank J.meets J.fails
            pieces.now.items pieces.now.count left.old.items tally.old }
        ensures tallied { OnOk result (IsTallied J.meets J.fails pieces.now.items
            pieces.now.count left.new.items tally.new self.old self.new) }
        ensures memory { OnErr result (IsErrOf result Fault.Memory × MadeNoStep self.old self.new) }
        ensures lock { IsSameLock self.old self.new }
    {
        if pieces.count() > 1 && self.leader_member.member.tables.counts.threads() > 1 {
            let trays = J::trays(self.workspace);
            trays.hand_out(rt, alloc, pieces, spares)?;
            let published = pieces.published(true);
            play_in_trays(
                rt,
                alloc,
                &mut self.leader_member,
                trays,
                &mut self.runner,
                published,
            );
            self.leader_member.mark_left(left);
            trays.tally(rt, pieces, left.as_slice(), tally);
            return Ok(());
        }
        self.try_alone(rt, alloc, pieces, spares, left, tally)
    }

    // The leader alone: one piece directly, more by a round of its own. No piece is lost here.
    fn try_alone<H: Threads + Wait + Sync>(
        &mut self,
        rt: &H,
        alloc: Global,
        pieces: &ListRuns<J::In>,
        spares: &mut SpareLists<J::Out>,
        left: &mut Vec<bool>,
        tally: &mut Tally<J::Out>,
    ) -> Result<(), Fault>
        requires most { pieces.now.count ≤ 4294967295 }
        requires blank { IsBlank J.meets J.fails
            pieces.now.items pieces.now.count left.old.items tally.old }
        ensures tallied { OnOk result (IsTallied J.meets J.fails pieces.now.items
            pieces.now.count left.new.items tally.new self.old self.new) }
        ensures memory { OnErr result (IsErrOf result Fault.Memory × MadeNoStep self.old self.new) }
        ensures lock { IsSameLock self.old self.new }
    {
        let mut buffers = make_buffers::<J>(alloc, pieces, spares)?;
        if pieces.count() == 1 {
            let none = pieces.count();
            self.runner
                .tally_buffers(rt, alloc, pieces, buffers, none, left.as_slice(), tally);
            return Ok(());
        }
        let member = &mut self.leader_member;
        let failed = play_sequential(rt, alloc, member, &mut self.runner, pieces, &mut buffers);
        self.leader_member.mark_left(left);
        self.runner
            .tally_buffers(rt, alloc, pieces, buffers, failed, left.as_slice(), tally);
        Ok(())
    }
}
