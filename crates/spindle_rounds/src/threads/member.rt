//! A thread's membership at the barrier of its lock: between rounds it stands inside, with no job claimed.
ghost use Rattle.std.specs.Prelude.{◌≡◌, ℕ, ◌<◌, ◌%◌, false, true, IfSome};
ghost use Rattle.spindle_rounds.specs.declared.round_table.view.Standing.TheVariants.{Inside};
ghost use Rattle.spindle_rounds.specs.RoundConditions.{IsDone};
ghost use Rattle.spindle_rounds.specs.RoundSteps.{round_of};
ghost use Rattle.spindle_rounds.specs.Working.{OnPublished, IsIdle};
ghost use Rattle.spindle_rounds.specs.Members.{IsAt, IsOut, IsSized, party_view};
ghost use Rattle.spindle_rounds.specs.Members.{LookedForPublished};
ghost use Rattle.spindle_rounds.specs.Seating.{IsSeatAt, IsSameSeat, IsSameTable};

use crate::barrier::Barrier;
use crate::round::claimer::{Claimer, Work};
use crate::round::publishing::PublishedRound;
use crate::round_table::Seat;
use crate::round_table::slots::SlotContents;
use crate::threads::tables::Tables;
use std::sync::Wait;
use std::thread;
use std::thread::Threads;

/// A member of the barrier that takes part in no round at the moment.
#[derive(Drop)]
pub struct Member<'a, D: SlotContents> {
    /// What it shares with the lock's other threads.
    pub tables: &'a Tables<D>,
    /// Its membership, with its seat at the round table.
    pub barrier: Barrier<'a, D>,
    /// Its number among the lock's threads, the leader's being 0.
    pub thread: usize,
    ghost seated: { IsSeatAt tables.now.round.init barrier.seat },
    ghost home: { IsSameTable tables.now.round.init barrier.init.now },
    ghost sized: { IsSized tables.now (party_view barrier) },
    ghost inside: { (party_view barrier).standing ≡ Inside (round_of (party_view barrier).standing) },
    ghost sense: { barrier.sense ≡ round_of (party_view barrier).standing % 2 },
    ghost member: { barrier.is_member ≡ true },
    ghost idle: { IsIdle (party_view barrier) },
    ghost role: { (party_view barrier).known.unpublished ≡ (party_view barrier).leader },
    ghost numbered: { thread < tables.now.counts.threads },
}

/// Where a helper is after a round.
#[derive(Drop)]
pub enum HelperStatus<'a, D: SlotContents> {
    /// In the barrier.
    In(Member<'a, D>),
    /// Out of the barrier, since nested locks ask for helpers.
    Out(Seat<D>),
}

impl<'a, D: SlotContents> Member<'a, D> {
    /// The membership of a party that is inside its round.
    pub fn new(tables: &'a Tables<D>, barrier: Barrier<'a, D>, thread: usize) -> Member<'a, D>
        requires at { IsAt tables.now barrier }
        requires inside { (q : ℕ) × ((party_view barrier).standing ≡ Inside q) }
        requires idle { IsIdle (party_view barrier) }
        requires role { (party_view barrier).known.unpublished ≡ (party_view barrier).leader }
        requires numbered { thread < tables.now.counts.threads }
        ensures tables { result.tables.now ≡ tables.now }
        ensures leader { (party_view result.barrier).leader ≡ (party_view barrier.entry).leader }
        ensures thread { result.thread ≡ thread }
        ensures seat { result.barrier.seat ≡ barrier.entry.seat }
    {
        Member {
            tables,
            barrier,
            thread,
        }
    }

    /// Joins the barrier, and tries again until it has.
    pub fn join<H: Wait>(
        rt: &H,
        tables: &'a Tables<D>,
        mut seat: Seat<D>,
        thread: usize,
    ) -> Member<'a, D>
        requires out { IsOut tables.now seat }
        requires thread { thread < tables.now.counts.threads }
        ensures tables { result.tables.now ≡ tables.now }
        ensures thread { result.thread ≡ thread }
        ensures leader { (party_view result.barrier).leader ≡ seat.me.0.leader }
        ensures seat { IsSameSeat seat result.barrier.seat }
        ensures slots { (result.barrier.seat.me.1 ≡ seat.me.1)
            × ((party_view result.barrier).board ≡ seat.me.0.board) }
    {
        for _ in rt.forever() {
            seat = match tables.round.init().barrier(rt, seat, thread) {
                Ok(barrier) => {
                    tables.present.come();
                    return Member::new(tables, barrier, thread);
                }
                Err(full) => full.seat,
            };
            thread::yield_now();
        }
        unreachable!()
    }

    /// The published round, where there is one.
    pub fn published(&mut self) -> Option<PublishedRound>
        ensures on { IfSome result (λ published.
            OnPublished published.jobs published.may_stop (party_view self.new.barrier)) }
        ensures looked { LookedForPublished result
            (party_view self.old.barrier) (party_view self.new.barrier) }
        ensures member { (self.new.tables ≡ self.old.tables) × (self.new.thread ≡ self.old.thread) }
        ensures leader { (party_view self.new.barrier).leader ≡ (party_view self.old.barrier).leader }
        ensures seat { IsSameSeat self.old.barrier.seat self.new.barrier.seat }
    {
        let tables = self.tables;
        let word = tables.round.published(self.barrier.seat());
        if word > 0 {
            return Some(PublishedRound::new(word));
        }
        None
    }

    /// A helper's part in a published round: it does this work until no job is left for it. The work comes back.
    pub fn join_in<W: Work<D> + Drop, H: Threads + Wait + Sync>(
        &mut self,
        rt: &H,
        published: PublishedRound,
        work: W,
    ) -> W
        requires on { OnPublished published.jobs published.may_stop (party_view self.old.barrier) }
        requires helper { (party_view self.old.barrier).leader ≡ false }
        requires holds { (hands : _) → W.holds work hands }
        ensures member { (self.new.tables ≡ self.old.tables) × (self.new.thread ≡ self.old.thread) }
        ensures leader { (party_view self.new.barrier).leader ≡ false }
        ensures done { IsDone (party_view self.new.barrier) }
        ensures seat { IsSameSeat self.old.barrier.seat self.new.barrier.seat }
    {
        let claimer = Claimer {
            round: &self.tables.round,
            thread: self.thread,
            published,
        };
        claimer.work(rt, self.barrier.seat(), work)
    }

    /// Leaves the barrier. Where others waited for that, and the round has ended by it, it wakes them.
    pub fn leave<H: Wait>(self, rt: &H) -> Seat<D>
        ensures out { IsOut self.entry.tables.now result }
        ensures leader { result.me.0.leader ≡ (party_view self.entry.barrier).leader }
        ensures seat { IsSameSeat self.entry.barrier.seat result }
    {
        let Member {
            tables,
            barrier,
            thread: _,
        } = self;
        let departure = barrier.depart(rt);
        tables.present.go();
        if departure.has_closed {
            tables.sleep.wake_for_end(rt);
        }
        departure.seat
    }
}
