//! What the threads of a lock share that depends on the kind of job: the trays of its pieces, and the child slots.
//!
//! A closure's bound can't name a type that keeps a fact about a kind of job, and a workspace keeps such facts. So a leader
//! knows its workspace as a type L of which only the calls of `Opens<L>` are known.
ghost use Rattle.std.specs.Prelude.{◌<◌, OnErr, IsErrOf, ◌≡◌, false};
ghost use denote.Param.Send.{IsSync};
ghost use Rattle.spindle_rounds.specs.RoundConditions.{IsDone};
ghost use Rattle.spindle_rounds.specs.Seating.{IsSameSeat};
ghost use Rattle.spindle_rounds.specs.Working.{OnPublished};

use crate::lock::nested::{Child, Nested};
use crate::pieces::trays::Trays;
use crate::prelude::*;
use crate::running::in_trays::TrayWork;
use spindle_rounds::round::publishing::PublishedRound;
use spindle_rounds::round_table::slots::{Bare, SlotContents};
use spindle_rounds::threads::member::Member;
use spindle_rounds::threads::tables::{MemberCount, Tables};

/// What the threads of a lock over jobs of kind J share, beside the tables that every lock has.
#[derive(Drop)]
pub struct Workspace<J: Job> {
    child_slots: <J::Inner as Nest>::ChildSlots,
    trays: Trays<J>,
}

/// The kinds of jobs whose locks have a workspace of type L. Each kind of job has one, `Workspace<J>`, which a caller leaves
/// to the compiler; the trait's calls are the library's own, and who names `spindle` alone can't implement it, since it doesn't give
/// out `Trays`.
pub trait Opens<L>: Job {
    /// The workspace of a lock of so many threads.
    fn open(alloc: Global, threads: usize) -> Result<L, Fault>
        requires { 0 < threads }
        ensures { OnErr result (IsErrOf result Fault.Memory) };

    /// The slots for the locks that its jobs open.
    fn child_slots(workspace: &L) -> &<Self::Inner as Nest>::ChildSlots;

    /// The trays of its pieces.
    fn trays(workspace: &L) -> &Trays<Self>;

    /// The workspace of a lock that a job opened.
    fn inner(child: &Child<Nested<Self>>) -> &L;
}

impl<J: Job> Opens<Workspace<J>> for J {
    fn open(alloc: Global, threads: usize) -> Result<Workspace<J>, Fault> {
        let child_slots = <J::Inner as Nest>::make(alloc, threads)?;
        let trays = Trays::new(alloc, threads)?;
        Ok(Workspace { child_slots, trays })
    }

    fn child_slots(workspace: &Workspace<J>) -> &<J::Inner as Nest>::ChildSlots {
        &workspace.child_slots
    }

    fn trays(workspace: &Workspace<J>) -> &Trays<J> {
        &workspace.trays
    }

    fn inner(child: &Child<Nested<J>>) -> &Workspace<J> {
        child.workspace()
    }
}

/// What the threads of a lock over jobs of kind J share beside its tables, where its round table has D's slots.
pub trait TakesPart<J: Job, D: SlotContents> {
    /// The slots for the locks that its jobs open.
    fn child_slots(&self) -> &<J::Inner as Nest>::ChildSlots;

    /// Where its jobs read how many threads take part.
    fn members<'a>(tables: &'a Tables<D>) -> MemberCount<'a>;

    /// Runs the jobs of a published round that are left for the thread.
    fn take_part<'a, G: Gate, H: Threads + Wait + Sync>(
        &self,
        rt: &H,
        alloc: Global,
        member: &mut Member<'a, D>,
        runner: &mut Runner<'_, J, G>,
        published: PublishedRound,
    )
        requires sync { IsSync H.row }
        requires on { OnPublished published.jobs published.may_stop member.old.barrier.seat.me.0 }
        requires helper { member.old.barrier.seat.me.0.leader ≡ false }
        ensures member { (member.new.tables ≡ member.old.tables)
            × (member.new.thread ≡ member.old.thread) }
        ensures leader { member.new.barrier.seat.me.0.leader ≡ false }
        ensures done { IsDone member.new.barrier.seat.me.0 }
        ensures seat { IsSameSeat member.old.barrier.seat member.new.barrier.seat };
}

impl<J: Opens<L>, L> TakesPart<J, Bare> for L {
    fn child_slots(&self) -> &<J::Inner as Nest>::ChildSlots {
        <J as Opens<L>>::child_slots(self)
    }

    fn members<'a>(tables: &'a Tables<Bare>) -> MemberCount<'a> {
        MemberCount::Barrier(tables.round.init())
    }

    fn take_part<'a, G: Gate, H: Threads + Wait + Sync>(
        &self,
        rt: &H,
        alloc: Global,
        member: &mut Member<'a, Bare>,
        runner: &mut Runner<'_, J, G>,
        published: PublishedRound,
    ) {
        let trays = J::trays(self);
        let work = TrayWork {
            trays,
            runner,
            alloc,
            held: None,
        };
        let work = member.join_in(rt, published, work);
        trays.bring_back(rt, published.jobs as usize, work.held);
    }
}
