//! The seats of a thread at the tables of its lock, the tables of a fresh lock with its leader's seats, and the seats that wait for
//! helpers to come.
ghost use Rattle.std.specs.Prelude.{◌≡◌, [], true, IfOk, OnErr, IsErrOf, ◌+◌, IfSome, All, vec_len};
ghost use Rattle.spindle_rounds.specs.Opening.{AreSeatsAt};
ghost use Rattle.spindle_rounds.specs.Members.{AreOut};
ghost use Rattle.spindle_rounds.specs.RoundSteps.{outsider};
ghost use Rattle.spindle_rounds.specs.Seating.{IsSeatAt};
ghost use Rattle.spindle_rounds.specs.SpareSeats.{AreSpareSeatsAt};

use crate::round::Round;
use crate::round_table;
use crate::round_table::slots::SlotContents;
use crate::round_table::view::View;
use crate::threads::limits::Idling;
use crate::threads::sleep::Sleep;
use crate::threads::tables::{Present, Tables, ThreadCounts};
use atomic_table::Perch;
use spindle_parts::fault::Fault;
use spindle_parts::numbers::Numbers;
use spindle_parts::requests::Requests;
use spindle_parts::requests::plays::Account;
use spindle_parts::{numbers, requests};
use std::alloc::{AllocError, Global};

/// A thread's seats at the tables of its lock.
#[derive(Drop)]
pub struct Seats<D: SlotContents> {
    /// At the round table.
    pub round: round_table::Seat<D>,
    /// At the table of thread numbers.
    pub numbers: numbers::Seat,
    /// At the ledger of requests for helpers.
    pub ledger: requests::Seat,
}

/// A thread that isn't in the lock yet: its seats at the lock's tables.
#[derive(Drop)]
pub struct HelperSeats<'a, D: SlotContents> {
    /// The tables.
    pub tables: &'a Tables<D>,
    /// Its seats there.
    pub seats: Seats<D>,
    ghost out: { AreOut tables.now seats },
}

impl<D: SlotContents> Seats<D> {
    /// One helper more, whose seats are split from the leader's.
    pub fn helper_seats<'a>(&mut self, tables: &'a Tables<D>) -> HelperSeats<'a, D>
        requires { AreSeatsAt tables.now self.old }
        ensures seats { AreSeatsAt tables.now self.new }
        ensures tables { result.tables.now ≡ tables.now }
    {
        let seats = Seats {
            round: tables.round.init().new_seat(&mut self.round),
            numbers: tables.numbers.new_seat(&mut self.numbers),
            ledger: tables.ledger.new_seat(&mut self.ledger),
        };
        HelperSeats { tables, seats }
    }
}

impl<D: SlotContents> Tables<D> {
    /// The tables of a lock with so many child slots, over rounds that were opened for it, and the leader's seats.
    pub fn new(
        alloc: Global,
        counts: ThreadCounts,
        idling: Idling,
        child_slots: usize,
        round: Round<D>,
        round_seat: round_table::Seat<D>,
    ) -> Result<(Tables<D>, Seats<D>), Fault>
        requires sized { round.init.threads ≡ counts.threads }
        requires seated { IsSeatAt round.init round_seat }
        requires outside { round_seat.me ≡ (outsider round.init.threads true, []) }
        ensures counts { IfOk result (λ t. t.0.counts ≡ counts) }
        ensures round { IfOk result (λ t. t.0.round ≡ round) }
        ensures idling { IfOk result (λ t. t.0.sleep.idling ≡ idling) }
        ensures seats { IfOk result (λ t. AreSeatsAt t.0 t.1 × (t.0.child_slots ≡ child_slots)) }
        ensures memory { OnErr result (IsErrOf result Fault.Memory) }
    {
        let (numbers, numbers_seat) = Numbers::new(alloc, counts.threads())?;
        let (ledger, ledger_seat) = Requests::new(alloc, child_slots)?;
        let tables = Tables {
            counts,
            round,
            numbers,
            ledger,
            child_slots,
            sleep: Sleep::new(idling, counts.threads() == 1),
            present: Present::new(),
        };
        let seats = Seats {
            round: round_seat,
            numbers: numbers_seat,
            ledger: ledger_seat,
        };
        Ok((tables, seats))
    }

    /// Spare seats for each helper, split from the leader's.
    pub fn spare_seats(
        &self,
        alloc: Global,
        seats: &mut Seats<D>,
    ) -> Result<Vec<SpareSeats<D>>, AllocError>
        requires { AreSeatsAt self.now seats.old }
        ensures seats { AreSeatsAt self.now seats.new }
        ensures spare_seats { IfOk result (λ spare_seats.
            All (AreSpareSeatsAt self.now) spare_seats.items) }
        ensures helpers { IfOk result (λ spare_seats. vec_len spare_seats + 1 ≡ self.now.counts.threads) }
    {
        let mut spare_seats = Vec::with_capacity(alloc, self.counts.threads())?;
        for _ in 1..self.counts.threads() {
            spare_seats.push_reserved(SpareSeats::new(self, seats));
        }
        Ok(spare_seats)
    }
}

/// What a perch's word is where no seat rests there.
const EMPTY: u64 = 0;

/// What it is where one does.
const SEATED: u64 = 2;

/// A perch for a seat of each table. Its words need no rule: where no seat rests, a helper leaves at once.
#[derive(Drop)]
pub struct SpareSeats<D: SlotContents> {
    round: Perch<D::Slot, View<D::Note>>,
    numbers: Perch<(), numbers::View>,
    ledger: Perch<(), Account>,
}

impl<D: SlotContents> SpareSeats<D> {
    // The spare seats of one helper, split from the leader's.
    fn new(tables: &Tables<D>, seats: &mut Seats<D>) -> SpareSeats<D>
        requires { AreSeatsAt tables.now seats.old }
        ensures seats { AreSeatsAt tables.now seats.new }
        ensures spare { AreSpareSeatsAt tables.now result }
    {
        let round = tables.round.init().new_seat(&mut seats.round);
        let numbers = tables.numbers.new_seat(&mut seats.numbers);
        let ledger = tables.ledger.new_seat(&mut seats.ledger);
        let spare = SpareSeats {
            round: Perch::new(&round, EMPTY),
            numbers: Perch::new(&numbers, EMPTY),
            ledger: Perch::new(&ledger, EMPTY),
        };
        spare.put(round, numbers, ledger);
        spare
    }

    // Lets the seats rest here. Where a seat rests already, the new one is dropped.
    fn put(&self, round: round_table::Seat<D>, numbers: numbers::Seat, ledger: requests::Seat)
        requires round { (round.table_id ≡ self.now.round.table_id) × (round.me ≡ (self.now.round.view, [])) }
        requires numbers { (numbers.table_id ≡ self.now.numbers.table_id) × (numbers.me ≡ (self.now.numbers.view, [])) }
        requires ledger { (ledger.table_id ≡ self.now.ledger.table_id) × (ledger.me ≡ (self.now.ledger.view, [])) }
    {
        drop(self.ledger.give(ledger, EMPTY, SEATED));
        drop(self.numbers.give(numbers, EMPTY, SEATED));
        drop(self.round.give(round, EMPTY, SEATED));
    }

    /// A helper with the seats, if they rest here.
    pub fn take<'a>(&self, tables: &'a Tables<D>) -> Option<HelperSeats<'a, D>>
        requires { AreSpareSeatsAt tables.now self.now }
        ensures { IfSome result (λ helper_seats. helper_seats.tables.now ≡ tables.now) }
    {
        let (_, round) = self.round.take(EMPTY);
        let round = round?;
        let (_, numbers) = self.numbers.take(EMPTY);
        let numbers = numbers?;
        let (_, ledger) = self.ledger.take(EMPTY);
        let ledger = ledger?;
        let seats = Seats {
            round,
            numbers,
            ledger,
        };
        Some(HelperSeats { tables, seats })
    }

    /// Fresh seats, split from those that a helper used, rest here for another.
    pub fn give(&self, tables: &Tables<D>, mut seats: Seats<D>)
        requires spare { AreSpareSeatsAt tables.now self.now }
        requires seats { AreOut tables.now seats }
    {
        let round = tables.round.init().new_seat(&mut seats.round);
        let numbers = tables.numbers.new_seat(&mut seats.numbers);
        let ledger = tables.ledger.new_seat(&mut seats.ledger);
        self.put(round, numbers, ledger);
    }
}
