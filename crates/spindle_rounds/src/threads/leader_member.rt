//! The leader as a member of its lock's barrier: it publishes rounds, and works in them.
ghost use Rattle.std.specs.Prelude.{◌≡◌, ◌↔◌, ◌≤◌, ℕ, Bool, true, length};
ghost use Rattle.spindle_rounds.specs.Members.{LastPublished, party_view};
ghost use Rattle.spindle_rounds.specs.SlotMembers.{IsDetachedLeader};
ghost use Rattle.spindle_rounds.specs.Leftovers.{AreUnbegun, HasMoment, IsMarked, IsFoundLeft};
ghost use Rattle.spindle_rounds.specs.RoundSlots.{bare};
ghost use Rattle.spindle_rounds.specs.RoundSteps.{round_of};
ghost use Rattle.spindle_rounds.specs.RoundShown.{deeds_of};
ghost use Rattle.spindle_rounds.specs.Working.{HasKept, PlayedRoundOf};

use crate::barrier::detached_party::DetachedParty;
use crate::round::claimer::{Claimer, Work};
use crate::round::publishing::PublishedRound;
use crate::round_table::slots::{Bare, SlotContents};
use crate::threads::member::Member;
use crate::threads::publish_and_end::{end_round, publish};
use crate::threads::signals::Signals;
use std::sync::Wait;
use std::thread::Threads;

/// The membership of a lock's leader, whose thread number is 0.
#[derive(Drop)]
pub struct LeaderMember<'a, D: SlotContents> {
    /// Its membership as a thread of the lock.
    pub member: Member<'a, D>,
    ghost leads: { (party_view member.barrier).leader ≡ true },
    ghost first: { member.thread ≡ 0 },
}

impl<'a, D: SlotContents> LeaderMember<'a, D> {
    /// The membership of a party whose seat is the leader's.
    pub fn new(member: Member<'a, D>) -> LeaderMember<'a, D>
        requires leader { (party_view member.barrier).leader ≡ true }
        requires thread { member.thread ≡ 0 }
        ensures { result.member ≡ member.entry }
    {
        LeaderMember { member }
    }

    /// What the leader keeps of its own, to come back to its barrier with.
    pub fn part(self) -> DetachedParty<D>
        ensures leads { IsDetachedLeader self.entry.member.tables.now result }
        ensures seat { result.seat ≡ self.entry.member.barrier.seat }
    {
        let LeaderMember { member } = self;
        let Member {
            tables: _,
            barrier,
            thread: _,
        } = member;
        barrier.part()
    }
}

impl<'a> LeaderMember<'a, Bare> {
    /// A leader's round: it publishes the round, does this work in it, and waits until it has ended. The work comes back.
    pub fn lead<W: Work<Bare> + Drop, H: Threads + Wait + Sync>(
        &mut self,
        rt: &H,
        mut signals: Signals<'a>,
        published: PublishedRound,
        work: W,
    ) -> W
        requires counted { (2 ≤ published.jobs) × (published.jobs ≤ 4294967295) }
        requires holds { (hands : _) → W.holds work hands }
        ensures holds { (hands : _) × W.holds result hands }
        ensures keeps { HasKept (λ v w. W.keeps work v result w)
            (party_view self.old.member.barrier) (party_view self.new.member.barrier) }
        ensures played { PlayedRoundOf published.jobs published.may_stop
            (party_view self.old.member.barrier) (party_view self.new.member.barrier) }
        ensures last { LastPublished (round_of (party_view self.old.member.barrier).standing)
            published.jobs published.may_stop (party_view self.new.member.barrier) }
        ensures tables { self.new.member.tables ≡ self.old.member.tables }
    {
        let member = &mut self.member;
        let tables = member.tables;
        publish(rt, tables, &mut member.barrier, &mut signals, published);
        let claimer = Claimer {
            round: &tables.round,
            thread: 0,
            published,
        };
        let work = claimer.work(rt, member.barrier.seat(), work);
        end_round(rt, tables, &mut member.barrier);
        work
    }

    /// After a round marks the numbers that it has left, of as many as there are marks: where the leader has published so many jobs
    /// last, those that nobody has begun.
    pub fn mark_left(&mut self, marks: &mut Vec<bool>)
        requires unmarked { (k : ℕ) → IsMarked marks.old.items k → ⊥ }
        ensures count { length marks.new.items ≡ length marks.old.items }
        ensures left { let tables = self.old.member.tables.now in (k : ℕ)
            → IsMarked marks.new.items k
            ↔ IsFoundLeft (party_view self.new.member.barrier) tables.counts.threads
            (length marks.old.items) k }
        ensures unbegun { let n = length marks.old.items in (q : ℕ) (may_stop : Bool)
            → LastPublished q n may_stop (party_view self.old.member.barrier)
            → AreUnbegun bare q n (party_view self.new.member.barrier) (IsMarked marks.new.items) }
        ensures standing { (party_view self.new.member.barrier).standing
            ≡ (party_view self.old.member.barrier).standing }
        ensures deeds { deeds_of (party_view self.new.member.barrier).trail
            ≡ deeds_of (party_view self.old.member.barrier).trail }
        ensures moment { HasMoment bare (party_view self.new.member.barrier) }
        ensures tables { self.new.member.tables ≡ self.old.member.tables }
    {
        let member = &mut self.member;
        member.tables.round.mark_left(member.barrier.seat(), marks);
    }
}
