//! Rounds in place: a thread updates the items of its piece, and puts back what became of them. The leader plays them by its state.
ghost use Rattle.std.specs.Prelude.{◌≡◌, ◌≤◌, ◌<◌, true, [], reverse, vec_len, vec_capacity, OnOk, OnErr, IsErrOf};
ghost use Rattle.std.specs.List.{AllZip};
ghost use Rattle.spindle_rounds.specs.Holding.{Keeps};
ghost use Rattle.spindle_rounds.specs.Working.{PlayedRound};
ghost use Rattle.spindle_locks.specs.InPlace.{IsReady};
ghost use Rattle.spindle_locks.specs.SlotRounds.{LeadsIn};
ghost use denote.Param.Send.{IsSync};
ghost use Rattle.spindle_rounds.specs.SlotMembers.{view_in};
ghost use Rattle.spindle_rounds.specs.RoundConditions.{MayFill};

use crate::job::update::Updates;
use crate::leader_states::leader_state::{LeaderState, SlotMember, SlotTables};
use crate::leader_states::opens_slots::OpensSlots;
use crate::pieces::chunk::{Chunk, Lists, Updated};
use crate::pieces::chunk_buffers::ChunkBuffers;
use crate::pieces::of_kind::ChunkOf;
use crate::pieces::slot_piece::OneOr;
use crate::prelude::*;
use crate::running::in_slots::{RunsPieces, play_held};
use spindle_rounds::barrier::Barrier;
use spindle_rounds::round_table::pieces::PieceSlots;
use spindle_rounds::threads::tables::Tables;

impl<'t, J: Updates> SlotTables<'t, PieceSlots<ChunkOf<J>>> {
    /// A leader's round in place, for which all room is ready that it needs: the items go into the slots, are updated, and come out of
    /// the slots, in order.
    pub(crate) fn update<G: Gate, H: Threads + Wait + Sync>(
        &self,
        rt: &H,
        alloc: Global,
        barrier: &mut Barrier<'_, PieceSlots<ChunkOf<J>>>,
        runner: &mut Runner<'_, J, G>,
        buffers: &mut ChunkBuffers<J::Item>,
        jobs: usize,
        items: &mut Vec<J::Item>,
    )
        requires leads { LeadsIn self.now.tables.now barrier.old }
        requires counted { (2 ≤ jobs) × (jobs ≤ 4294967295) × (jobs ≤ self.now.slots)
            × (jobs ≤ vec_len items.old) }
        requires ready { jobs < vec_len items.old → IsReady (vec_len items.old) jobs
            buffers.old.ready.items buffers.old.chunks.items (vec_capacity buffers.old.chunks) }
        ensures leads { LeadsIn self.now.tables.now barrier.new }
        ensures same { Keeps barrier.old barrier.new }
        ensures updated { AllZip J.updated items.old.items items.new.items }
        ensures played { PlayedRound jobs barrier.old.seat.me.0 barrier.new.seat.me.0 }
    {
        let round = &self.tables.round;
        self.fill_in_place(barrier.seat(), buffers, jobs, items);
        play_held(rt, alloc, self, barrier, runner, jobs as u64);
        for slot in 0..jobs {
            let answer = round.take_answer(barrier.seat(), slot);
            buffers.keep_ready(answer.unload(items));
        }
        round.turn_slots(barrier.seat(), jobs, self.slots);
    }
}

impl<J: Updates> RunsPieces<J> for ChunkOf<J> {
    fn run_piece<G: Gate, H: Threads + Wait + Sync>(
        rt: &H,
        alloc: Global,
        runner: &mut Runner<'_, J, G>,
        number: usize,
        piece: &mut Option<OneOr<J::Item, Chunk<J::Item>>>,
    ) -> OneOr<J::Item, Updated<J::Item>> {
        let Some(piece) = piece.take() else {
            unreachable!()
        };
        let number = Some(number);
        match piece {
            OneOr::One(item) => OneOr::One(update_one(rt, alloc, runner, number, item)),
            OneOr::Many(chunk) => OneOr::Many(update_chunk(rt, alloc, runner, number, chunk)),
        }
    }
}

// Updates an item, as a job of this number.
fn update_one<J: Updates, G: Gate, H: Threads + Wait + Sync>(
    rt: &H,
    alloc: Global,
    runner: &mut Runner<'_, J, G>,
    number: Option<usize>,
    item: J::Item,
) -> J::Item
    ensures updated { J.updated item result }
    ensures site { runner.new.site ≡ runner.old.site }
{
    let mut context = runner.enter(number);
    let updated = J::update(rt, alloc, &mut Some(item), &mut context);
    runner.leave(number);
    updated
}

/// Updates the items of a chunk, as a job of this number.
pub(crate) fn update_chunk<J: Updates, G: Gate, H: Threads + Wait + Sync>(
    rt: &H,
    alloc: Global,
    runner: &mut Runner<'_, J, G>,
    number: Option<usize>,
    chunk: Chunk<J::Item>,
) -> Updated<J::Item>
    ensures updated { AllZip J.updated chunk result }
    ensures site { runner.new.site ≡ runner.old.site }
{
    let mut context = runner.enter(number);
    let mut lists = chunk.into_lists();
    update_each::<J, H>(rt, alloc, &mut lists, &mut context);
    runner.leave(number);
    Updated::new(lists)
}

// Updates the items that wait, one after the other.
fn update_each<J: Updates, H: Threads + Wait + Sync>(
    rt: &H,
    alloc: Global,
    lists: &mut Lists<J::Item>,
    context: &mut JobCx<'_, J::Inner>,
)
    requires empty { lists.old.done.items ≡ [] }
    requires room { vec_len lists.old.todo ≤ vec_capacity lists.old.done }
    ensures none { lists.new.todo.items ≡ [] }
    ensures updated { AllZip J.updated (reverse lists.old.todo.items) lists.new.done.items }
{
    for _ in 0..lists.todo.len() {
        let mut item = Some(lists.todo.take_last());
        let updated = J::update(rt, alloc, &mut item, context);
        lists.done.push_reserved(updated);
    }
}

/// The state of a leader that plays rounds in place. It keeps room for chunks.
pub type PlaceLeaderState<J> = LeaderState<ChunkOf<J>, ChunkBuffers<<J as Updates>::Item>>;

/// The kinds of jobs whose leader with a state of type P plays rounds in place.
pub trait PlaysInPlace<P>: OpensSlots<P> + Updates {
    /// A round over these items in so many jobs, two at least. Memory is refused before the publish alone, and leaves the items as
    /// they were.
    fn play_in_place<'a, G: Gate, H: Threads + Wait + Sync>(
        rt: &H,
        alloc: Global,
        state: &mut P,
        runner: &mut Runner<'a, Self, G>,
        jobs: usize,
        items: &mut Vec<Self::Item>,
    ) -> Result<(), Fault>
        requires sync { IsSync H.row }
        requires jobs { (2 ≤ jobs) × (jobs ≤ vec_len items.old)
            × (jobs ≤ Self.OpensSlots.slot_count state.old) }
        ensures updated { OnOk result (AllZip Self.Updates.updated items.old.items items.new.items) }
        ensures kept { OnErr result (items.new.items ≡ items.old.items) }
        ensures memory { OnErr result (IsErrOf result Fault.Memory) }
        ensures played { OnOk result (PlayedRound jobs
            (Self.OpensSlots.view state.old) (Self.OpensSlots.view state.new)) }
        ensures left { OnErr result
            (Self.OpensSlots.view state.new ≡ Self.OpensSlots.view state.old) }
        ensures between { MayFill (Self.OpensSlots.view state.new) }
        ensures slots { Self.OpensSlots.slot_count state.new
            ≡ Self.OpensSlots.slot_count state.old };

    /// The same in one job, which the leader runs directly.
    fn play_alone<'a, G: Gate, H: Threads + Wait + Sync>(
        rt: &H,
        alloc: Global,
        state: &mut P,
        runner: &mut Runner<'a, Self, G>,
        items: &mut Vec<Self::Item>,
    ) -> Result<(), Fault>
        requires sync { IsSync H.row }
        ensures updated { OnOk result (AllZip Self.Updates.updated items.old.items items.new.items) }
        ensures kept { OnErr result (items.new.items ≡ items.old.items) }
        ensures memory { OnErr result (IsErrOf result Fault.Memory) }
        ensures view { Self.OpensSlots.view state.new ≡ Self.OpensSlots.view state.old }
        ensures slots { Self.OpensSlots.slot_count state.new
            ≡ Self.OpensSlots.slot_count state.old };
}

impl<J: Updates> PlaysInPlace<PlaceLeaderState<J>> for J {
    fn play_in_place<'a, G: Gate, H: Threads + Wait + Sync>(
        rt: &H,
        alloc: Global,
        state: &mut PlaceLeaderState<J>,
        runner: &mut Runner<'a, J, G>,
        jobs: usize,
        items: &mut Vec<J::Item>,
    ) -> Result<(), Fault> {
        let buffers = state.kept.get_or_insert_with(|| ChunkBuffers::new(alloc));
        if jobs < items.len() {
            buffers.prepare(alloc, items.len(), jobs)?;
        }
        state.member.update(rt, alloc, runner, buffers, jobs, items);
        Ok(())
    }

    fn play_alone<'a, G: Gate, H: Threads + Wait + Sync>(
        rt: &H,
        alloc: Global,
        state: &mut PlaceLeaderState<J>,
        runner: &mut Runner<'a, J, G>,
        items: &mut Vec<J::Item>,
    ) -> Result<(), Fault> {
        let buffers = state.kept.get_or_insert_with(|| ChunkBuffers::new(alloc));
        let mut buffer = buffers.take(alloc)?;
        buffer.reserve(items.len())?;
        let chunk = buffer.load(items, 0);
        let updated = update_chunk(rt, alloc, runner, None, chunk);
        buffers.keep(updated.unload(items));
        Ok(())
    }
}

impl<J: Updates> SlotMember<ChunkOf<J>> {
    // Plays a round in place at its barrier.
    fn update<G: Gate, H: Threads + Wait + Sync>(
        &mut self,
        rt: &H,
        alloc: Global,
        runner: &mut Runner<'_, J, G>,
        buffers: &mut ChunkBuffers<J::Item>,
        jobs: usize,
        items: &mut Vec<J::Item>,
    )
        requires jobs { (2 ≤ jobs) × (jobs ≤ vec_len items.old) × (jobs ≤ self.old.share.slots) }
        requires ready { jobs < vec_len items.old → IsReady (vec_len items.old) jobs
            buffers.old.ready.items buffers.old.chunks.items (vec_capacity buffers.old.chunks) }
        ensures updated { AllZip J.updated items.old.items items.new.items }
        ensures played { PlayedRound jobs (view_in self.old.party) (view_in self.new.party) }
        ensures slots { self.new.share.slots ≡ self.old.share.slots }
    {
        let Some(party) = self.party.take() else {
            unreachable!()
        };
        let tables: &Tables<PieceSlots<ChunkOf<J>>> = &*self.share.tables;
        let mut barrier = tables.round.resume(party);
        let table = SlotTables {
            tables,
            slots: self.share.slots,
        };
        table.update(rt, alloc, &mut barrier, runner, buffers, jobs, items);
        self.party = Some(barrier.part());
    }
}
