//! The work of a thread in a round whose pieces stand in trays: it takes the piece of each number that it claims out of its tray, runs
//! it, and brings it back. The leader runs the piece whose outputs come next where it lies; alone it runs each piece so.
ghost use Rattle.std.specs.Prelude.{◌≡◌, ◌≤◌, ◌∷◌, true, MatchBool, ◌+◌, ◌<◌, [], length, vec_capacity};
ghost use Rattle.spindle_rounds.specs.Members.{LastPublished, party_view};
ghost use Rattle.spindle_rounds.specs.RoundSteps.{round_of};
ghost use Rattle.spindle_rounds.specs.Working.{PlayedRoundOf, PlayedRound};
ghost use Rattle.spindle_rounds.specs.PartyWork.{HasFinished, IsAtPublished};
ghost use Rattle.spindle_rounds.specs.RoundConditions.{MayFinish};
ghost use Rattle.spindle_rounds.specs.RoundShown.{Stopped};
ghost use Rattle.spindle_rounds.specs.RoundViews.{StopsAsBefore, stops_of};
ghost use Rattle.spindle_rounds.specs.Seating.{IsSameSeat};
ghost use Rattle.std.specs.List.{AllZip};
ghost use Rattle.std.proofs.Common.{refl, ◌∙◌};
ghost use Rattle.spindle_locks.specs.PieceRuns.{HasAnswered};

use crate::pieces::finished::Finished;
use crate::pieces::list_runs::ListRuns;
use crate::pieces::trays::Trays;
use crate::prelude::*;
use spindle_rounds::round::claim::{Claimed, Numbered};
use spindle_rounds::round::claimer::{Claimer, Work};
use spindle_rounds::round::publishing::PublishedRound;
use spindle_rounds::round_table::Seat;
use spindle_rounds::round_table::slots::Bare;
use spindle_rounds::threads::leader_member::LeaderMember;
use std::mem;

/// What runs the pieces of trays. It holds the last piece until it takes its next one.
#[derive(Drop)]
pub(crate) struct TrayWork<'t, 'r, 'a, J: Job, G: Gate> {
    pub(crate) trays: &'t Trays<J>,
    pub(crate) runner: &'r mut Runner<'a, J, G>,
    pub(crate) alloc: Global,
    pub(crate) held: Option<Finished<J>>,
}

/// Publishes a round, whose pieces stand in the trays, takes part, and waits until the round has ended.
pub(crate) fn play_in_trays<'a, J: Job, G: Gate, H: Threads + Wait + Sync>(
    rt: &H,
    alloc: Global,
    leader: &mut LeaderMember<'a, Bare>,
    trays: &Trays<J>,
    runner: &mut Runner<'a, J, G>,
    published: PublishedRound,
)
    requires counted { (2 ≤ published.jobs) × (published.jobs ≤ 4294967295) }
    ensures played { PlayedRoundOf published.jobs published.may_stop
        leader.old.member.barrier.seat.me.0 leader.new.member.barrier.seat.me.0 }
    ensures last { LastPublished (round_of (party_view leader.old.member.barrier).standing)
        published.jobs published.may_stop (party_view leader.new.member.barrier) }
    ensures tables { leader.new.member.tables ≡ leader.old.member.tables }
{
    let signals = runner.signals.another();
    let work = TrayWork {
        trays,
        runner,
        alloc,
        held: None,
    };
    let work = leader.lead(rt, signals, published, work);
    trays.bring_back(rt, published.jobs as usize, work.held);
}

impl<'t, 'r, 'a, J: Job, G: Gate> Work<Bare> for TrayWork<'t, 'r, 'a, J, G> {
    ghost holds = { λ w hands. Unit {0} };

    ghost keeps = { λ v x w y. Unit {0} };

    // The piece held before goes back, and this one is held, once it has run. Where it isn't in its tray nothing runs.
    fn run<H: Threads + Wait + Sync>(
        &mut self,
        rt: &H,
        claimer: &Claimer<'_, Bare>,
        seat: &mut Seat<Bare>,
        claimed: Claimed,
    ) -> u64 {
        let number = claimed.number() as usize;
        let pieces = claimer.published.jobs as usize;
        let held = self.held.take();
        let finished = match self.trays.exchange(rt, pieces, held, number) {
            Some(piece) => {
                let (inputs, mut outputs) = piece.into_parts();
                let (alloc, items) = (self.alloc, inputs.as_slice());
                self.runner
                    .run(rt, alloc, Some(number), items, &mut outputs);
                Finished::new(number, inputs, outputs)
            }
            None => Finished::empty(self.alloc, number),
        };
        let failed = claimer.published.may_stop && finished.has_failed();
        let before = finish(claimer, seat, claimed, &finished, failed);
        self.held = Some(finished);
        before
    }

    ghost keeps_same = { λ w x y on same. tt };

    ghost keeps_then = { λ u v w x y z a b. tt };
}

impl<J: Job> Trays<J> {
    /// Brings the last piece back, if one is held.
    pub(crate) fn bring_back<H: Wait>(&self, rt: &H, pieces: usize, held: Option<Finished<J>>) {
        if let Some(finished) = held
            && finished.number() < pieces
        {
            drop(self.put(rt, pieces, finished));
        }
    }
}

/// Finishes a number whose piece was run. Where the piece failed in a round that may stop, the round is stopped before.
pub(crate) fn finish<P: Numbered>(
    claimer: &Claimer<'_, Bare>,
    seat: &mut Seat<Bare>,
    claimed: Claimed,
    piece: &P,
    failed: bool,
) -> u64
    requires at { IsAtPublished claimer.now.round.now claimer.now.published seat.old }
    requires own { MayFinish claimed seat.old.me.0 }
    requires piece { P.number piece.now ≡ claimed }
    requires failed { failed ≡ true → claimer.now.published.may_stop ≡ true }
    ensures seat { IsSameSeat seat.old seat.new }
    ensures finished { HasFinished result seat.old.me.0 seat.new.me.0 }
    ensures stops { let v = seat.old.me.0 in let w = seat.new.me.0 in MatchBool failed
        (stops_of w.trail ≡ Stopped (round_of v.standing) claimed ∷ stops_of v.trail)
        (StopsAsBefore v w) }
{
    if failed {
        claimer.round.stop(seat, &claimed);
    }
    claimer.round.finish(seat, claimed, piece)
}

/// What runs the next piece where it lies, with the outputs of those before it, and others out of their trays.
#[derive(Drop)]
struct AheadWork<'t, 'p, 'r, 'a, J: Job, G: Gate> {
    others: TrayWork<'t, 'r, 'a, J, G>,
    pieces: &'p ListRuns<J::In>,
    next: usize,
    outputs: Vec<J::Out>,
}

/// Publishes the pieces, takes part, and waits until the round has ended. Answers how many pieces the outputs answer, from
/// the first on; what came of the others lies in the trays, if they stood there.
pub(crate) fn play_ahead<'a, J: Job, G: Gate, H: Threads + Wait + Sync>(
    rt: &H,
    alloc: Global,
    leader: &mut LeaderMember<'a, Bare>,
    trays: &Trays<J>,
    runner: &mut Runner<'a, J, G>,
    pieces: &ListRuns<J::In>,
    outputs: &mut Vec<J::Out>,
) -> usize
    requires counted { (2 ≤ pieces.now.count) × (pieces.now.count ≤ 4294967295) }
    requires empty { outputs.old.items ≡ [] }
    requires room { length pieces.now.items ≤ vec_capacity outputs.old }
    ensures answered { HasAnswered J.meets pieces.now.items pieces.now.count result outputs.new }
    ensures played { PlayedRound pieces.now.count
        leader.old.member.barrier.seat.me.0 leader.new.member.barrier.seat.me.0 }
    ensures tables { leader.new.member.tables ≡ leader.old.member.tables }
{
    let signals = runner.signals.another();
    let others = TrayWork {
        trays,
        runner,
        alloc,
        held: None,
    };
    let work = AheadWork {
        others,
        pieces,
        next: 0,
        outputs: mem::replace(outputs, Vec::new(alloc)),
    };
    let work = leader.lead(rt, signals, pieces.published(false), work);
    trays.bring_back(rt, pieces.count(), work.others.held);
    *outputs = work.outputs;
    work.next
}

/// The same where no piece stands in a tray: the leader, which is the only thread, runs them all.
pub(crate) fn play_alone<'a, J: Job, G: Gate, H: Threads + Wait + Sync>(
    rt: &H,
    alloc: Global,
    leader: &mut LeaderMember<'a, Bare>,
    trays: &Trays<J>,
    runner: &mut Runner<'a, J, G>,
    pieces: &ListRuns<J::In>,
    outputs: &mut Vec<J::Out>,
)
    requires counted { (2 ≤ pieces.now.count) × (pieces.now.count ≤ 4294967295) }
    requires empty { outputs.old.items ≡ [] }
    requires room { length pieces.now.items ≤ vec_capacity outputs.old }
    ensures answered { AllZip J.meets pieces.now.items outputs.new.items }
    ensures played { PlayedRound pieces.now.count
        leader.old.member.barrier.seat.me.0 leader.new.member.barrier.seat.me.0 }
    ensures tables { leader.new.member.tables ≡ leader.old.member.tables }
{
    let first = play_ahead(rt, alloc, leader, trays, runner, pieces, outputs);
    for number in first..pieces.count() {
        run_next(rt, alloc, runner, pieces, number, outputs);
    }
}

impl<'t, 'p, 'r, 'a, J: Job, G: Gate> Work<Bare> for AheadWork<'t, 'p, 'r, 'a, J, G> {
    ghost holds = { λ w hands. HasAnswered J.meets w.pieces.now.items w.pieces.now.count w.next w.outputs };

    ghost keeps = { λ v x w y. w.pieces ≡ v.pieces };

    // The next piece runs where it lies.
    fn run<H: Threads + Wait + Sync>(
        &mut self,
        rt: &H,
        claimer: &Claimer<'_, Bare>,
        seat: &mut Seat<Bare>,
        claimed: Claimed,
    ) -> u64 {
        let number = claimed.number() as usize;
        if number != self.next || number >= self.pieces.count() {
            return self.others.run(rt, claimer, seat, claimed);
        }
        let (alloc, runner) = (self.others.alloc, &mut *self.others.runner);
        run_next(rt, alloc, runner, self.pieces, number, &mut self.outputs);
        self.next = number + 1;
        let finished: Finished<J> = Finished::empty(alloc, number);
        claimer.round.finish(seat, claimed, &finished)
    }

    ghost keeps_same = { λ w x y on same. refl };

    ghost keeps_then = { λ u v w x y z a b. b ∙ a };
}

// Runs the piece of a number where it lies, once those before it have run.
fn run_next<J: Job, G: Gate, H: Threads + Wait + Sync>(
    rt: &H,
    alloc: Global,
    runner: &mut Runner<'_, J, G>,
    pieces: &ListRuns<J::In>,
    number: usize,
    outputs: &mut Vec<J::Out>,
)
    requires left { number < pieces.now.count }
    requires answered { HasAnswered J.meets
        pieces.now.items pieces.now.count number outputs.old }
    ensures { HasAnswered J.meets pieces.now.items pieces.now.count (number + 1) outputs.new }
{
    let items = pieces.piece(number);
    runner.run(rt, alloc, Some(number), items, outputs);
}
