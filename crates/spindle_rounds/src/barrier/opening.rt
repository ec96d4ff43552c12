//! Opening a barrier over a fresh table, and seats for the parties that are to join.
ghost use Rattle.std.specs.Prelude.{◌≡◌, ◌<◌, ◌≤◌, [], true, IfOk, OnErr, IsErrOf};
ghost use Rattle.spindle_rounds.specs.RoundSteps.{outsider, new_view};
ghost use Rattle.spindle_rounds.specs.Seating.{HasSlots, IsSeatAt, IsSameSeat};
ghost use Rattle.spindle_rounds.specs.Words.{words_of};

use crate::barrier::BarrierInit;
use crate::barrier::word::{FIELD, MEMBER};
use crate::round_table::plays::NewSeat;
use crate::round_table::slots::{Bare, SlotContents};
use crate::round_table::{APART, BARRIER, RANGES, Seat};
use atomic_table::Table;
use spindle_parts::fault::Fault;
use std::alloc::Global;

impl BarrierInit<Bare> {
    /// A barrier without a round: nothing can be published on it.
    ///
    /// # Errors
    /// `Memory`.
    pub fn new(alloc: Global) -> Result<(BarrierInit<Bare>, Seat<Bare>), Fault>
        ensures opened { IfOk result (λ t. (t.0.threads ≡ 0)
            × IsSeatAt t.0 t.1 × (t.1.id ≡ 0)
            × (t.1.me ≡ (outsider 0 true, []))) }
        ensures memory { OnErr result (IsErrOf result Fault.Memory) }
    {
        BarrierInit::open(alloc, 0, 0)
    }
}

impl<D: SlotContents> BarrierInit<D> {
    pub(crate) fn open(
        alloc: Global,
        threads: usize,
        slots: usize,
    ) -> Result<(BarrierInit<D>, Seat<D>), Fault>
        requires few { threads ≤ 32767 }
        ensures opened { IfOk result (λ t. (t.0.threads ≡ threads)
            × IsSeatAt t.0 t.1 × (t.1.id ≡ 0) × HasSlots t.0 slots
            × (t.1.me ≡ (outsider threads true, []))) }
        ensures memory { OnErr result (IsErrOf result Fault.Memory) }
    {
        let words = Vec::from_elem(alloc, 0u64, RANGES + 2 * APART * threads)?;
        let key = threads as u64;
        match Table::new(alloc, words.as_slice(), D::vacant(alloc, slots)?, &key) {
            Ok((table, seat)) => Ok((BarrierInit { table, threads }, seat)),
            Err(_) => Err(Fault::Memory),
        }
    }

    /// A seat for another party, which is out. It may be handed to another thread.
    pub fn new_seat(&self, seat: &mut Seat<D>) -> Seat<D>
        requires seated { IsSeatAt self.now seat.old }
        ensures old { IsSameSeat seat.old seat.new
            × (seat.new.me ≡ seat.old.me) }
        ensures new { (result.table_id ≡ seat.old.table_id)
            × (result.me ≡ (new_view seat.old.me.0, [])) }
    {
        self.table.shared.split_seat::<NewSeat>(seat)
    }

    /// How many parties are members, as the word shows at this moment.
    pub fn current_num_threads(&self) -> usize
        ensures { result ≤ 32767 }
    {
        (self.table.shared.peek(BARRIER) / MEMBER % FIELD) as usize
    }

    /// What a word of the table holds at this moment, by its place in `round_table`. No party learns anything by it.
    pub fn peek(&self, word: usize) -> u64
        requires { word < words_of self.now.threads }
    {
        self.table.shared.peek(word)
    }
}
