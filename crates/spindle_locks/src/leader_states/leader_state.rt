//! The state of the leader of a lock with slots: its membership, by a share of the lock's tables, so that it borrows nothing, and what
//! it keeps from round to round. So too how such a lock is made.
ghost use Rattle.std.specs.Prelude.{◌≡◌, ◌≤◌, [], IsSome};
ghost use Rattle.spindle_rounds.specs.SlotMembers.{view_in, HoldsEmpty, IsDetachedLeader};
ghost use Rattle.std.specs.Option.{ForSome};
ghost use Rattle.std.specs.Arc.{arc_value};
ghost use Rattle.spindle_rounds.specs.RoundConditions.{MayFill};
ghost use Rattle.spindle_rounds.specs.Seating.{HasSlots};

use crate::leader_states::opens_slots::{MakesSlots, OpensSlots};
use crate::prelude::*;
use crate::running::in_slots::SlotWorkspace;
use spindle_rounds::barrier::detached_party::DetachedParty;
use spindle_rounds::round_table::pieces::{PieceKind, PieceSlots};
use spindle_rounds::round_table::slots::SlotContents;
use spindle_rounds::threads::leader_member::LeaderMember;
use spindle_rounds::threads::member::Member;
use spindle_rounds::threads::sleep::Sleep;
use spindle_rounds::threads::tables::Tables;
use std::sync::Arc;

/// The state of a leader whose rounds have pieces of kind A, with a K that it keeps from one round to the next.
#[derive(Drop)]
pub struct LeaderState<A: PieceKind, K> {
    pub(crate) member: SlotMember<A>,
    pub(crate) kept: Option<K>,
}

impl<J: Job, A: PieceKind, K: Drop> OpensSlots<LeaderState<A, K>> for J {
    type Note = A::Piece;

    ghost view = { λ state. view_in state.member.party };

    ghost slot_count = { λ state. state.member.share.slots };

    fn slots(state: &LeaderState<A, K>) -> usize {
        state.member.slots()
    }

    fn sleep(state: &LeaderState<A, K>) -> &Sleep {
        &state.member.share.tables.sleep
    }

    fn leave<H: Wait>(rt: &H, state: LeaderState<A, K>) {
        state.member.leave(rt);
    }
}

impl<J: Job, A: PieceKind, K: Drop> MakesSlots<LeaderState<A, K>, PieceSlots<A>, SlotWorkspace<J>>
    for J {
    fn workspace(alloc: Global, threads: usize) -> Result<SlotWorkspace<J>, Fault> {
        let child_slots = <J::Inner as Nest>::make(alloc, threads)?;
        Ok(SlotWorkspace::new(child_slots))
    }

    fn settle(leader_seats: &mut Option<LeaderSeats<PieceSlots<A>>>) -> LeaderState<A, K> {
        let Some(leader_seats) = leader_seats.take() else {
            unreachable!()
        };
        LeaderState {
            member: SlotMember::new(leader_seats),
            kept: None,
        }
    }
}

/// A share of the tables of a lock with slots, and how many slots there are.
#[derive(Drop)]
pub struct SlotShare<D: SlotContents> {
    pub tables: Arc<Tables<D>>,
    pub slots: usize,
    ghost many: { HasSlots (arc_value tables).round.init slots },
    ghost few: { (1 ≤ slots) × (slots ≤ 4294967295) },
}

/// A leader that stands at its barrier, and has done nothing with the slots: its share of the tables, and what it keeps.
#[derive(Drop)]
pub struct LeaderSeats<D: SlotContents> {
    pub(crate) share: SlotShare<D>,
    pub(crate) party: DetachedParty<D>,
    ghost leads: { IsDetachedLeader (arc_value share.tables) party },
    ghost hand: { party.seat.me.1 ≡ [] },
    ghost board: { party.seat.me.0.board ≡ [] },
}

impl<D: SlotContents> LeaderSeats<D> {
    /// The leader with this membership.
    pub fn new(share: SlotShare<D>, leader_member: LeaderMember<'_, D>) -> LeaderSeats<D>
        requires tables { arc_value share.tables ≡ leader_member.member.tables.now }
        requires fresh { let seat = leader_member.member.barrier.seat in
            (seat.me.1 ≡ []) × (seat.me.0.board ≡ []) }
        ensures { result.share.slots ≡ share.slots }
    {
        let party = leader_member.part();
        LeaderSeats { share, party }
    }
}

/// The membership of a leader that holds all slots between its rounds.
#[derive(Drop)]
pub struct SlotMember<A: PieceKind> {
    pub(crate) share: SlotShare<PieceSlots<A>>,
    pub(crate) party: Option<DetachedParty<PieceSlots<A>>>,
    ghost there: { IsSome party },
    ghost leads: { ForSome party (λ s. IsDetachedLeader (arc_value share.tables) s) },
    ghost holds: { ForSome party (λ s. HoldsEmpty share.slots s) },
}

impl<A: PieceKind> SlotMember<A> {
    /// The membership of a leader that comes: it takes the slots.
    pub(crate) fn new(leader_seats: LeaderSeats<PieceSlots<A>>) -> SlotMember<A>
        ensures { result.share.slots ≡ leader_seats.share.slots }
    {
        let LeaderSeats { share, mut party } = leader_seats;
        share.tables.round.hold_slots(party.seat(), share.slots);
        SlotMember {
            share,
            party: Some(party),
        }
    }

    /// How many slots there are.
    pub(crate) fn slots(&self) -> usize
        ensures number { result ≡ self.now.share.slots }
        ensures range { (1 ≤ result) × (result ≤ 4294967295) }
        ensures between { MayFill (view_in self.now.party) }
    {
        self.share.slots
    }

    /// Leaves the barrier. The slots go with the membership.
    pub(crate) fn leave<H: Wait>(self, rt: &H) {
        let SlotMember { share, party } = self;
        let Some(party) = party else { unreachable!() };
        let tables: &Tables<PieceSlots<A>> = &*share.tables;
        let barrier = tables.round.resume(party);
        drop(Member::new(tables, barrier, 0).leave(rt));
    }
}

/// A lock's tables, with the number of its round table's slots.
#[derive(Drop)]
pub struct SlotTables<'t, D: SlotContents> {
    pub(crate) tables: &'t Tables<D>,
    pub(crate) slots: usize,
    ghost many: { HasSlots tables.now.round.init slots },
}
