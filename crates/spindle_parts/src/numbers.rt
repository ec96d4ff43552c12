//! Thread numbers of a lock. A number in use is a bit: number k has the bit `k % BITS` of the word
//! `LINE * (k / BITS)`.
//!
//! Bit 0 of word 0 is set from the start and is the leader's.
ghost use Rattle.std.specs.Prelude.{◌≡◌, ℕ, ◌%◌, ◌<◌, ◌≤◌, IfOk, OnErr, IsErrOf, []};
ghost use Rattle.atomic_table.specs.Table.{State};
ghost use Rattle.spindle_parts.specs.ThreadNumbers.{IsNumbering, NumbersDiffer, IsSeatOf, IsTake, IsExchange, IsSameSeat, leader_view, outsider_view};
ghost use Rattle.spindle_parts.specs.ThreadNumbers.{holding_after, bit_of, giving};
ghost use Rattle.spindle_parts.specs.declared.numbers.plays.Holding.TheVariants.{Nothing, Has};
ghost use Rattle.std.specs.Int.{bit_at};
ghost use Rattle.spindle_parts.specs.declared.fault.Fault.TheVariants.{Memory};

mod plays;

use crate::fault::Fault;
use crate::words::{BITS, LINE};
use atomic_table::Table;
use plays::{Another, Gives, Loads, Takes};
pub use plays::{Holding, InUse, Kind, View};
use std::alloc::Global;
use std::marker::Model;

/// A token of one thread for a numbers table.
pub type Seat = atomic_table::Seat<(), View>;

/// The numbers of a lock's threads.
#[derive(Drop)]
pub struct Numbers {
    table: Table<(), View, u64, InUse, Global>,
    threads: usize,
}

impl Model for Numbers {
    ghost use Rattle.std.specs.Prelude.{◌≡◌, ◌*◌, ◌≤◌};
    ghost use Rattle.spindle_parts.specs.ThreadNumbers.{NumberTable, word_count};
    ghost use Rattle.spindle_parts.specs.declared.words.TheConstants.{LINE};

    ghost Value = { NumberTable };

    ghost view = { λ n. record { table = n.table.shared.table_id; threads = n.threads } };

    ghost invariant = { λ n.
        (n.table.shared.table_id.words ≡ LINE * word_count n.threads)
        × (n.table.shared.key ≡ n.threads) × (1 ≤ n.threads) × (n.threads ≤ 32767) };
}

/// What came of one try for a number.
#[derive(Clone, Copy, PartialEq, Eq, Debug)]
pub enum Take {
    /// The number: no other seat has it until it is given back.
    Taken(usize),
    /// Each number below the lock's threads was read as used.
    AllInUse,
    /// Another step came between the load and the exchange.
    Again,
}

impl Numbers {
    /// The numbers of a lock of `n_threads` threads, with the leader's seat.
    pub fn new(alloc: Global, n_threads: usize) -> Result<(Numbers, Seat), Fault>
        requires { (1 ≤ n_threads) × (n_threads ≤ 32767) }
        ensures numbers { IfOk result (λ r. r.0.threads ≡ n_threads) }
        ensures seat { IfOk result (λ r. IsSeatOf r.0 r.1 × (r.1.me ≡ (leader_view, []))) }
        ensures memory { OnErr result (IsErrOf result Memory) }
    {
        let mut words = Vec::from_elem(alloc, 0u64, LINE * n_threads.div_ceil(BITS))?;
        words[0] = 1;
        let key = n_threads as u64;
        let (table, seat) = Table::of_words(alloc, words.as_slice(), &key)?;
        Ok((
            Numbers {
                table,
                threads: n_threads,
            },
            seat,
        ))
    }

    /// A seat with no number, for another thread.
    pub fn new_seat(&self, seat: &mut Seat) -> Seat
        requires { IsSeatOf self.now seat.old }
        ensures old { IsSeatOf self.now seat.new × IsSameSeat seat.old seat.new }
        ensures view { seat.new.me.0 ≡ seat.old.me.0 }
        ensures new { IsSeatOf self.now result × (result.me ≡ (outsider_view, [])) }
    {
        self.table.shared.split_seat::<Another>(seat)
    }

    /// Tries for the least number that it reads as unused, by at most one exchange.
    pub fn try_take(&self, seat: &mut Seat) -> Take
        requires seated { IsSeatOf self.now seat.old }
        requires no_number { seat.old.me.0.holding ≡ Nothing }
        ensures seat { IsSeatOf self.now seat.new × IsSameSeat seat.old seat.new }
        ensures number { seat.new.me.0.holding ≡ holding_after result }
        ensures answer { IsTake self.now.threads result seat.old.me.0 seat.new.me.0 }
    {
        for index in 0..self.threads.div_ceil(BITS) {
            let word = self.table.shared.load::<Loads>(seat, LINE * index);
            let unused = word.trailing_ones() as usize;
            let number = BITS * index + unused;
            if unused < BITS && number < self.threads {
                return self.exchange(seat, word, number);
            }
        }
        Take::AllInUse
    }

    /// The exchange of a try, for a number that was read as unused in its word.
    fn exchange(&self, seat: &mut Seat, word: u64, number: usize) -> Take
        requires seated { seat.old.table_id ≡ self.now.table }
        requires no_number { seat.old.me.0.holding ≡ Nothing }
        requires number { (number < self.now.threads) × (bit_at word (bit_of number) ≡ 0) }
        ensures seat { IsSameSeat seat.old seat.new }
        ensures answer { IsExchange number word result seat.old.me.0 seat.new.me.0 }
    {
        let bit = 1u64 << number % BITS;
        let found = self
            .table
            .shared
            .compare_exchange::<Takes>(seat, LINE * (number / BITS), word, word | bit);
        if found == word {
            Take::Taken(number)
        } else {
            Take::Again
        }
    }

    /// Gives the seat's own number back, by one step.
    pub fn give(&self, seat: &mut Seat, number: usize)
        requires seated { IsSeatOf self.now seat.old }
        requires own { seat.old.me.0.holding ≡ Has number }
        ensures seat { IsSeatOf self.now seat.new × IsSameSeat seat.old seat.new }
        ensures number { seat.new.me.0.holding ≡ Nothing }
        ensures given { (found : ℕ) × (seat.new.me.0 ≡ giving number found seat.old.me.0) }
    {
        let bit = 1u64 << number % BITS;
        self.table
            .shared
            .fetch_and::<Gives>(seat, LINE * (number / BITS), !bit);
    }
}

/// Between any two steps on a numbers table two seats that have a number have different ones, 0 is
/// the leader's alone, and each is below the threads.
pub fn numbers_differ()
    ensures { (threads : ℕ) (s : State (Unit {0}) View) → IsNumbering threads s
        → NumbersDiffer threads s.views }
{}
