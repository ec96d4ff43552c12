//! The pieces of a round that may stop where the leader alone runs them. Each has a buffer, a list for its outputs that is empty until the
//! piece has run. The buffers stay with the leader and no tray is asked, so nothing can be lost there.
ghost use Rattle.std.specs.Prelude.{◌≡◌, ◌↔◌, ◌<◌, ◌≤◌, ℕ, None, true, IfOk, IfSome, IsNone, IsTrue, OnErr, IsErrOf, length};
ghost use Rattle.std.specs.List.{AllZip, Any};
ghost use Rattle.std.proofs.Common.{ap, inl, refl, ◌∙◌};
ghost use Rattle.spindle_locks.specs.PieceRuns.{piece_at};
ghost use Rattle.spindle_locks.specs.Reports.{AreBuffers, IsNoted, IsBufferFor};
ghost use Rattle.spindle_locks.specs.Stops.{HasFailedIn, IsStoppedBy, StopsBy, stops_then};
ghost use Rattle.spindle_rounds.specs.Leftovers.{IsMarked};
ghost use Rattle.spindle_rounds.specs.Members.{LastPublished, party_view};
ghost use Rattle.spindle_rounds.specs.RoundSteps.{round_of};
ghost use Rattle.spindle_rounds.specs.Working.{PlayedRoundOf};

use crate::pieces::finished::Finished;
use crate::pieces::list_runs::ListRuns;
use crate::pieces::place::SpareLists;
use crate::pieces::tally::{Tally, has_failure};
use crate::prelude::*;
use crate::running::in_trays::finish;
use spindle_rounds::round::claim::Claimed;
use spindle_rounds::round::claimer::{Claimer, Work};
use spindle_rounds::round_table::Seat;
use spindle_rounds::round_table::slots::Bare;
use spindle_rounds::threads::leader_member::LeaderMember;
use std::mem;

/// What runs the pieces of the numbers that the leader claims, each in its buffer. It keeps the number that failed last; as many as there
/// are pieces stands for none.
#[derive(Drop)]
struct SequentialWork<'p, 'r, 'a, J: Job, G: Gate> {
    pieces: &'p ListRuns<J::In>,
    runner: &'r mut Runner<'a, J, G>,
    alloc: Global,
    buffers: Vec<Vec<J::Out>>,
    failed: usize,
}

/// Publishes the pieces for a round that may stop, runs those that it claims in their buffers, and ends the round. Answers the number of
/// the piece that failed last, or where none has, how many there are.
pub(crate) fn play_sequential<'a, J: Job, G: Gate, H: Threads + Wait + Sync>(
    rt: &H,
    alloc: Global,
    leader: &mut LeaderMember<'a, Bare>,
    runner: &mut Runner<'a, J, G>,
    pieces: &ListRuns<J::In>,
    buffers: &mut Vec<Vec<J::Out>>,
) -> usize
    requires counted { (2 ≤ pieces.now.count) × (pieces.now.count ≤ 4294967295) }
    requires fit { AreBuffers J.meets pieces.now.items pieces.now.count 0 buffers.old.items }
    ensures fit { AreBuffers J.meets pieces.now.items pieces.now.count 0 buffers.new.items }
    ensures failed { HasFailedIn J.fails 0 result buffers.new.items }
    ensures stops { IsStoppedBy pieces.now.count result
        leader.old.member.barrier.seat.me.0 leader.new.member.barrier.seat.me.0 }
    ensures played { PlayedRoundOf pieces.now.count true
        leader.old.member.barrier.seat.me.0 leader.new.member.barrier.seat.me.0 }
    ensures last { LastPublished (round_of (party_view leader.old.member.barrier).standing)
        pieces.now.count true (party_view leader.new.member.barrier) }
    ensures tables { leader.new.member.tables ≡ leader.old.member.tables }
{
    let signals = runner.signals.another();
    let work = SequentialWork {
        pieces,
        runner,
        alloc,
        buffers: mem::replace(buffers, Vec::new(alloc)),
        failed: pieces.count(),
    };
    let work = leader.lead(rt, signals, pieces.published(true), work);
    *buffers = work.buffers;
    work.failed
}

impl<'p, 'r, 'a, J: Job, G: Gate> Work<Bare> for SequentialWork<'p, 'r, 'a, J, G> {
    ghost holds = { λ w hands.
        AreBuffers J.meets w.pieces.now.items w.pieces.now.count 0 w.buffers.items
        × HasFailedIn J.fails 0 w.failed w.buffers.items };

    ghost keeps = { λ v x w y. (w.pieces ≡ v.pieces) × StopsBy v.pieces.now.count v.failed x w.failed y };

    // The piece of the number runs, and a failure stops the round.
    fn run<H: Threads + Wait + Sync>(
        &mut self,
        rt: &H,
        claimer: &Claimer<'_, Bare>,
        seat: &mut Seat<Bare>,
        claimed: Claimed,
    ) -> u64 {
        let number = claimed.number() as usize;
        let failed = self.run_piece(rt, number) && claimer.published.may_stop;
        if failed {
            self.failed = number;
        }
        let finished: Finished<J> = Finished::empty(self.alloc, number);
        finish(claimer, seat, claimed, &finished, failed)
    }

    ghost keeps_same = { λ w x y on same. (refl, (on.standing, inl (refl, same))) };

    ghost keeps_then = { λ u v w x y z a b. (
      b.0 ∙ a.0,
      stops_then u.pieces.now.count v.pieces.now.count
          u.failed v.failed w.failed x y z (ap (λ p. p.now.count) a.0) a.1 b.1,
    ) };
}

impl<'p, 'r, 'a, J: Job, G: Gate> SequentialWork<'p, 'r, 'a, J, G> {
    // Runs the piece of a number, and says whether it failed. A number of no piece runs nothing.
    fn run_piece<H: Threads + Wait + Sync>(&mut self, rt: &H, number: usize) -> bool
        requires { AreBuffers J.meets
            self.old.pieces.now.items self.old.pieces.now.count 0 self.old.buffers.items }
        ensures fit { AreBuffers J.meets
            self.new.pieces.now.items self.new.pieces.now.count 0 self.new.buffers.items }
        ensures pieces { (self.new.pieces ≡ self.old.pieces) × (self.new.failed ≡ self.old.failed) }
        ensures kept { (f : ℕ) → HasFailedIn J.fails 0 f self.old.buffers.items
            → HasFailedIn J.fails 0 f self.new.buffers.items }
        ensures failed { result ≡ true → (number < self.new.pieces.now.count)
            × HasFailedIn J.fails 0 number self.new.buffers.items }
    {
        if number >= self.pieces.count() {
            return false;
        }
        let items = self.pieces.piece(number);
        let buffer = &mut self.buffers[number];
        run_in_buffer(rt, self.alloc, self.runner, Some(number), items, buffer);
        has_failure::<J>(buffer.as_slice())
    }
}

/// A buffer for each of the pieces, a spare list where there is one.
pub(crate) fn make_buffers<J: Job>(
    alloc: Global,
    pieces: &ListRuns<J::In>,
    spares: &mut SpareLists<J::Out>,
) -> Result<Vec<Vec<J::Out>>, Fault>
    ensures fit { IfOk result (λ buffers. AreBuffers J.meets
        pieces.now.items pieces.now.count 0 buffers.items) }
    ensures memory { OnErr result (IsErrOf result Fault.Memory) }
{
    let mut buffers = Vec::with_capacity(alloc, pieces.count())?;
    for number in 0..pieces.count() {
        let mut buffer = spares.take(alloc);
        buffer.clear();
        buffer.reserve(pieces.piece(number).len())?;
        buffers.push_reserved(buffer);
    }
    Ok(buffers)
}

impl<'a, J: Job, G: Gate> Runner<'a, J, G> {
    /// Notes what came of the pieces in their buffers, of which some are marked as left. One that isn't, and that hasn't run,
    /// runs now. The buffer of the number `failed` has a failure, if there is such a buffer.
    pub(crate) fn tally_buffers<H: Threads + Wait + Sync>(
        &mut self,
        rt: &H,
        alloc: Global,
        pieces: &ListRuns<J::In>,
        mut buffers: Vec<Vec<J::Out>>,
        failed: usize,
        left: &[bool],
        tally: &mut Tally<J::Out>,
    )
        requires fit { AreBuffers J.meets pieces.now.items pieces.now.count 0 buffers.items }
        requires failed { HasFailedIn J.fails 0 failed buffers.items }
        requires unmarked { failed < pieces.now.count → IsMarked left.now failed → ⊥ }
        requires marks { length left.now ≡ pieces.now.count }
        requires fresh { IsNoted J.meets J.fails
            pieces.now.items pieces.now.count left.now 0 tally.old }
        requires whole { tally.old.lost ≡ None }
        ensures noted { IsNoted J.meets J.fails
            pieces.now.items pieces.now.count left.now pieces.now.count tally.new }
        ensures whole { tally.new.lost ≡ None }
        ensures told { failed < pieces.now.count → tally.new.failed ≡ true }
        ensures site { self.new.site ≡ self.old.site }
    {
        for number in 0..pieces.count() {
            let buffer = &mut buffers[number];
            let outputs = self.take_buffer(rt, alloc, left[number], pieces, number, buffer);
            tally.note::<J>(pieces, left, number, outputs, number == failed);
        }
    }

    // Takes the outputs of a piece that isn't left out of its buffer. Where it hasn't run, the leader runs it directly.
    fn take_buffer<H: Threads + Wait + Sync>(
        &mut self,
        rt: &H,
        alloc: Global,
        is_left: bool,
        pieces: &ListRuns<J::In>,
        number: usize,
        buffer: &mut Vec<J::Out>,
    ) -> Option<Vec<J::Out>>
        requires number { number < pieces.now.count }
        requires fits { IsBufferFor J.meets
            (piece_at pieces.now.items pieces.now.count number) buffer.old }
        ensures answers { IfSome result (λ outputs. AllZip J.meets
            (piece_at pieces.now.items pieces.now.count number) outputs.items) }
        ensures kept { Any J.fails buffer.old.items
            → IfSome result (λ outputs. Any J.fails outputs.items) }
        ensures ran { IsNone result ↔ IsTrue is_left }
        ensures site { self.new.site ≡ self.old.site }
    {
        if is_left {
            return None;
        }
        let mut outputs = mem::replace(buffer, Vec::new(alloc));
        let items = pieces.piece(number);
        run_in_buffer(rt, alloc, self, None, items, &mut outputs);
        Some(outputs)
    }
}

// Runs a piece in its buffer, unless it has run there.
#[tactic(auto, using(crate::proofs::Buffers::buffer_answers, crate::proofs::Buffers::buffer_done))]
fn run_in_buffer<J: Job, G: Gate, H: Threads + Wait + Sync>(
    rt: &H,
    alloc: Global,
    runner: &mut Runner<'_, J, G>,
    number: Option<usize>,
    items: &[J::In],
    buffer: &mut Vec<J::Out>,
)
    requires fits { IsBufferFor J.meets items.now buffer.old }
    ensures answered { AllZip J.meets items.now buffer.new.items }
    ensures kept { Any J.fails buffer.old.items → Any J.fails buffer.new.items }
    ensures site { runner.new.site ≡ runner.old.site }
{
    if !buffer.is_empty() {
        return;
    }
    runner.run(rt, alloc, number, items, buffer);
}
