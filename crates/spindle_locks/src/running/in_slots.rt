//! The work of a thread in a round whose pieces stand in the slots of the round table: whoever begins a number has its piece. The
//! threads share nothing else but the child slots.
ghost use Rattle.std.specs.Prelude.{◌≡◌, ◌≤◌, [], true, IsSome};
ghost use Rattle.std.specs.Option.{ForSome};
ghost use Rattle.std.proofs.Common.{refl, ◌∙◌};
ghost use denote.Param.Send.{IsSync};
ghost use Rattle.spindle_rounds.specs.Holding.{Keeps};
ghost use Rattle.spindle_rounds.specs.Working.{PlayedRound};
ghost use Rattle.spindle_rounds.specs.SlotLoops.{IsEmpty, IsPiece, Turning};
ghost use Rattle.spindle_locks.specs.SlotRounds.{LeadsAt, PlayedPieces};

use crate::leader_states::leader_state::SlotTables;
use crate::lock::workspace::TakesPart;
use crate::prelude::*;
use spindle_rounds::barrier::Barrier;
use spindle_rounds::round::claim::Claimed;
use spindle_rounds::round::claimer::{Claimer, Work};
use spindle_rounds::round::publishing::PublishedRound;
use spindle_rounds::round_table::Seat;
use spindle_rounds::round_table::pieces::{PieceKind, PieceSlots};
use spindle_rounds::threads::member::Member;
use spindle_rounds::threads::publish_and_end::{end_round, publish_held};
use spindle_rounds::threads::tables::{MemberCount, Tables};

/// Pieces that jobs of kind J run.
pub trait RunsPieces<J: Job>: PieceKind {
    /// Runs the piece of a number, which it takes, between the two calls of the gate.
    fn run_piece<G: Gate, H: Threads + Wait + Sync>(
        rt: &H,
        alloc: Global,
        runner: &mut Runner<'_, J, G>,
        number: usize,
        piece: &mut Option<Self::Piece>,
    ) -> Self::Answer
        requires sync { IsSync H.row }
        requires there { IsSome piece.old }
        ensures answers { ForSome piece.old (λ given. Self.PieceKind.answers given result) }
        ensures site { runner.new.site ≡ runner.old.site };
}

/// What runs the pieces of slots. The leader holds no other slot meanwhile.
#[derive(Drop)]
pub(crate) struct SlotWork<'r, 'a, J: Job, G: Gate> {
    pub(crate) runner: &'r mut Runner<'a, J, G>,
    pub(crate) alloc: Global,
    pub(crate) leads: bool,
}

/// A leader's round over the pieces in its slots: they are published, all threads run them, and after the round's end the leader
/// takes all slots out.
pub(crate) fn play_held<A: RunsPieces<J>, J: Job, G: Gate, H: Threads + Wait + Sync>(
    rt: &H,
    alloc: Global,
    table: &SlotTables<'_, PieceSlots<A>>,
    barrier: &mut Barrier<'_, PieceSlots<A>>,
    runner: &mut Runner<'_, J, G>,
    jobs: u64,
)
    requires leads { LeadsAt table.now.tables.now barrier.old }
    requires pieces { Turning IsEmpty IsPiece table.now.slots jobs barrier.old.seat.me.1 }
    requires counted { (2 ≤ jobs) × (jobs ≤ 4294967295) × (jobs ≤ table.now.slots) }
    ensures leads { LeadsAt table.now.tables.now barrier.new }
    ensures same { Keeps barrier.old barrier.new }
    ensures answered { PlayedPieces A.answers table.now.slots jobs
        barrier.old.seat.me barrier.new.seat.me }
    ensures played { PlayedRound jobs barrier.old.seat.me.0 barrier.new.seat.me.0 }
{
    publish_held(rt, table.tables, barrier.seat(), &mut runner.signals, jobs);
    let claimer = Claimer {
        round: &table.tables.round,
        thread: 0,
        published: PublishedRound {
            jobs,
            may_stop: false,
        },
    };
    let work = SlotWork {
        runner,
        alloc,
        leads: true,
    };
    drop(claimer.work(rt, barrier.seat(), work));
    end_round(rt, table.tables, barrier);
    table.tables.round.take_answered(barrier.seat(), jobs);
}

impl<'r, 'a, J: Job, G: Gate, A: RunsPieces<J>> Work<PieceSlots<A>> for SlotWork<'r, 'a, J, G> {
    ghost holds = { λ work hands. work.leads ≡ true → hands ≡ [] };

    ghost keeps = { λ old x new y. new.leads ≡ old.leads };

    fn run<H: Threads + Wait + Sync>(
        &mut self,
        rt: &H,
        claimer: &Claimer<'_, PieceSlots<A>>,
        seat: &mut Seat<PieceSlots<A>>,
        claimed: Claimed,
    ) -> u64 {
        let number = claimed.number() as usize;
        let mut piece = Some(claimer.round.take_piece(seat, &claimed));
        let answer = A::run_piece(rt, self.alloc, self.runner, number, &mut piece);
        claimer.round.finish(seat, claimed, answer)
    }

    ghost keeps_same = { λ work x y on same. refl };

    ghost keeps_then = { λ old then new x y z a b. b ∙ a };
}

/// What the threads of a lock with slots over jobs of kind J share beside its tables.
#[derive(Drop)]
pub struct SlotWorkspace<J: Job> {
    child_slots: <J::Inner as Nest>::ChildSlots,
}

impl<J: Job> SlotWorkspace<J> {
    /// These child slots.
    pub fn new(child_slots: <J::Inner as Nest>::ChildSlots) -> SlotWorkspace<J> {
        SlotWorkspace { child_slots }
    }
}

impl<J: Job, A: RunsPieces<J>> TakesPart<J, PieceSlots<A>> for SlotWorkspace<J> {
    fn child_slots(&self) -> &<J::Inner as Nest>::ChildSlots {
        &self.child_slots
    }

    fn members<'a>(tables: &'a Tables<PieceSlots<A>>) -> MemberCount<'a> {
        MemberCount::Present(&tables.present)
    }

    fn take_part<'a, G: Gate, H: Threads + Wait + Sync>(
        &self,
        rt: &H,
        alloc: Global,
        member: &mut Member<'a, PieceSlots<A>>,
        runner: &mut Runner<'_, J, G>,
        published: PublishedRound,
    ) {
        let work = SlotWork {
            runner,
            alloc,
            leads: false,
        };
        drop(member.join_in(rt, published, work));
    }
}
