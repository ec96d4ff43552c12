//! The ledger of helper requests: how many helpers the nested locks of a lock still ask for, where
//! their places are, and the two flags that the lock's helpers read.
//!
//! | word | holds | changed by |
//! |---|---|---|
//! | `REQUESTS` | requests | `ask`, `subtract` |
//! | `EXIT` | 1 once exit is announced, else 0 | `announce_exit` |
//! | `REST` | 1 while rest is announced, else 0 | `announce_rest` |
//! | `PLACES + LINE * i` | the unfilled places of child slot i | `install`, `try_take_place`, `close` |
//!
//! The module `words` has these names. Each seat has a credit,
//! which contracts alone see: the requests that it has to place or to take back. Between any two
//! steps requests are the unfilled places and the credits of all seats together, modulo 2^64 since
//! a word wraps, and exactly while these are fewer than 2^64.
ghost use Rattle.std.specs.Prelude.{◌≡◌, ◌≢◌, ℕ, ◌+◌, ◌*◌, ◌^◌, ◌<◌, ◌≤◌, [], IfOk, OnErr, IsErrOf, if◌then◌else◌};
ghost use Rattle.spindle_parts.specs.Ledger.{place_word, IsFlag, standing, Balanced, BooksBalance, IsExact};
ghost use Rattle.spindle_parts.specs.declared.requests.plays.Account.{Account};
ghost use Rattle.atomic_table.specs.Table.{State};
ghost use Rattle.spindle_parts.specs.LedgerSteps.{TookBy, blank, loading, announcing, asking, subtracting, installing, taking, missing, closing};

use crate::fault::Fault;
use crate::words::{EXIT, LINE, PLACES, REQUESTS, REST};
use atomic_table::Table;
use plays::{Account, Announces, Another, Asks, Closes, Installs, Ledger, Loads, Subtracts, Takes};
use std::alloc::Global;

pub mod plays;

/// A seat at the ledger, for one thread at a time.
pub type Seat = atomic_table::Seat<(), Account>;

/// The requests, the places of the child slots, and the flags of one lock
/// (spindle's `children_thread_requests`, `announce_exit` and `announce_rest`).
#[derive(Drop)]
pub struct Requests {
    table: Table<(), Account, u64, Ledger, Global>,
    ghost sized: { table.shared.table_id.words ≡ place_word table.shared.key },
    ghost small: { table.shared.key < 2 ^ 60 },
}

/// What an attempt to take a place found.
#[derive(Clone, Copy, Debug, PartialEq, Eq)]
pub enum TakePlace {
    /// The place is the caller's.
    Taken,
    /// No place was unfilled.
    None,
    /// Another step came between.
    Again,
}

impl Requests {
    ghost use Rattle.spindle_parts.specs.LedgerSeats.{child_slot_count, IsSeatOf, IsSameSeat};

    /// A ledger with nothing asked for and no place open. As a fresh lock has it, rest is announced
    /// and exit isn't. The seat is the leader's. `Memory` where there is no room for the words.
    pub fn new(alloc: Global, slots: usize) -> Result<(Requests, Seat), Fault>
        ensures seat { IfOk result (λ r. IsSeatOf r.0 r.1 × (r.1.id ≡ 0) × (r.1.me ≡ (blank, []))) }
        ensures slots { IfOk result (λ r. child_slot_count r.0 ≡ slots) }
        ensures memory { OnErr result (IsErrOf result Fault.Memory) }
    {
        // Where the count is capped no allocator has room for it.
        let count = slots.saturating_mul(LINE).saturating_add(PLACES);
        let mut words = Vec::from_elem(alloc, 0u64, count)?;
        words[REST] = 1;
        let key = slots as u64;
        let (table, seat) = Table::of_words(alloc, words.as_slice(), &key)?;
        Ok((Requests { table }, seat))
    }

    /// A seat for another thread, with no credit.
    pub fn new_seat(&self, seat: &mut Seat) -> Seat
        requires { IsSeatOf self.now seat.old }
        ensures old { IsSameSeat seat.old seat.new × (seat.new.me ≡ seat.old.me) }
        ensures new { IsSeatOf self.now result × (result.me ≡ (blank, [])) }
    {
        self.table.shared.split_seat::<Another>(seat)
    }

    /// Asks for `n` helpers more. The seat answers for them: it may `install` them as places, or
    /// `subtract` them again.
    pub fn ask(&self, seat: &mut Seat, n: usize)
        requires { IsSeatOf self.now seat.old }
        ensures seat { IsSameSeat seat.old seat.new }
        ensures step { (found : ℕ) × (seat.new.me.0 ≡ asking n found seat.old.me.0) }
    {
        let words = &self.table.shared;
        words.fetch_add::<Asks>(seat, REQUESTS, n as u64);
    }

    /// Takes `n` requests back that the seat answers for: it asked for them, or took or closed
    /// their places.
    pub fn subtract(&self, seat: &mut Seat, n: usize)
        requires seat { IsSeatOf self.now seat.old }
        requires credit { n ≤ seat.old.me.0.credit }
        ensures seat { IsSameSeat seat.old seat.new }
        ensures step { (found : ℕ) × (seat.new.me.0 ≡ subtracting n found seat.old.me.0) }
    {
        let words = &self.table.shared;
        words.fetch_sub::<Subtracts>(seat, REQUESTS, n as u64);
    }

    /// Opens `n` places at the slot, for requests that the seat answers for.
    pub fn install(&self, seat: &mut Seat, slot: usize, n: usize)
        requires seat { IsSeatOf self.now seat.old }
        requires slot { slot < child_slot_count self.now }
        requires credit { n ≤ seat.old.me.0.credit }
        ensures seat { IsSameSeat seat.old seat.new }
        ensures step { (found : ℕ)
            × (seat.new.me.0 ≡ installing (place_word slot) n found seat.old.me.0) }
    {
        let words = &self.table.shared;
        words.fetch_add::<Installs>(seat, PLACES + LINE * slot, n as u64);
    }

    /// Tries once to fill a place of the slot. Who took one answers for its request.
    pub fn try_take_place(&self, seat: &mut Seat, slot: usize) -> TakePlace
        requires seat { IsSeatOf self.now seat.old }
        requires slot { slot < child_slot_count self.now }
        ensures seat { IsSameSeat seat.old seat.new }
        ensures step { TookBy (place_word slot) result seat.old.me.0 seat.new.me.0 }
    {
        let unfilled = self.load(seat, PLACES + LINE * slot);
        if unfilled == 0 {
            return TakePlace::None;
        }
        if self.exchange_place(seat, slot, unfilled) == unfilled {
            TakePlace::Taken
        } else {
            TakePlace::Again
        }
    }

    /// Takes all unfilled places out of the slot, and says how many they were. The seat answers for
    /// their requests.
    pub fn close(&self, seat: &mut Seat, slot: usize) -> usize
        requires seat { IsSeatOf self.now seat.old }
        requires slot { slot < child_slot_count self.now }
        ensures seat { IsSameSeat seat.old seat.new }
        ensures step { seat.new.me.0 ≡ closing (place_word slot) result seat.old.me.0 }
    {
        let words = &self.table.shared;
        words.swap::<Closes>(seat, PLACES + LINE * slot, 0) as usize
    }

    /// How many helpers are asked for: unfilled places and credits together.
    pub fn requests(&self, seat: &mut Seat) -> u64
        requires { IsSeatOf self.now seat.old }
        ensures seat { IsSameSeat seat.old seat.new }
        ensures step { seat.new.me.0 ≡ loading REQUESTS result seat.old.me.0 }
    {
        self.load(seat, REQUESTS)
    }

    /// Says whether the helpers are to end.
    pub fn announce_exit(&self, seat: &mut Seat, exit: bool)
        requires { IsSeatOf self.now seat.old }
        ensures seat { IsSameSeat seat.old seat.new }
        ensures step { seat.new.me.0 ≡ announcing EXIT (if exit then 1 else 0) seat.old.me.0 }
    {
        self.store_flag(seat, EXIT, exit);
    }

    /// Says whether idle helpers are to rest at once.
    pub fn announce_rest(&self, seat: &mut Seat, rest: bool)
        requires { IsSeatOf self.now seat.old }
        ensures seat { IsSameSeat seat.old seat.new }
        ensures step { seat.new.me.0 ≡ announcing REST (if rest then 1 else 0) seat.old.me.0 }
    {
        self.store_flag(seat, REST, rest);
    }

    /// Whether the helpers are to end.
    pub fn exit_announced(&self, seat: &mut Seat) -> bool
        requires { IsSeatOf self.now seat.old }
        ensures seat { IsSameSeat seat.old seat.new }
        ensures step { seat.new.me.0 ≡ loading EXIT (if result then 1 else 0) seat.old.me.0 }
    {
        self.load(seat, EXIT) == 1
    }

    /// Whether idle helpers are to rest at once.
    pub fn rest_announced(&self, seat: &mut Seat) -> bool
        requires { IsSeatOf self.now seat.old }
        ensures seat { IsSameSeat seat.old seat.new }
        ensures step { seat.new.me.0 ≡ loading REST (if result then 1 else 0) seat.old.me.0 }
    {
        self.load(seat, REST) == 1
    }

    fn load(&self, seat: &mut Seat, word: usize) -> u64
        requires seat { IsSeatOf self.now seat.old }
        requires word { word < place_word (child_slot_count self.now) }
        ensures seat { IsSameSeat seat.old seat.new }
        ensures step { seat.new.me.0 ≡ loading word result seat.old.me.0 }
        ensures flag { IsFlag word → result ≤ 1 }
    {
        self.table.shared.load::<Loads>(seat, word)
    }

    fn store_flag(&self, seat: &mut Seat, word: usize, flag: bool)
        requires seat { IsSeatOf self.now seat.old }
        requires word { IsFlag word }
        ensures seat { IsSameSeat seat.old seat.new }
        ensures step { seat.new.me.0 ≡ announcing word (if flag then 1 else 0) seat.old.me.0 }
    {
        self.table
            .shared
            .store::<Announces>(seat, word, flag as u64);
    }

    /// Lowers the slot's places by 1 if they are `unfilled`, and says what they were.
    fn exchange_place(&self, seat: &mut Seat, slot: usize, unfilled: u64) -> u64
        requires seat { IsSeatOf self.now seat.old }
        requires slot { slot < child_slot_count self.now }
        requires positive { 0 < unfilled }
        ensures seat { IsSameSeat seat.old seat.new }
        ensures hit { result ≡ unfilled
            → seat.new.me.0 ≡ taking (place_word slot) result seat.old.me.0 }
        ensures miss { result ≢ unfilled
            → seat.new.me.0 ≡ missing (place_word slot) result seat.old.me.0 }
    {
        let words = &self.table.shared;
        words.compare_exchange::<Takes>(seat, PLACES + LINE * slot, unfilled, unfilled - 1)
    }
}

/// Between any two steps on a ledger requests are the unfilled places and the credits of all seats,
/// as the words count.
pub fn books_balance()
    ensures { (slots : ℕ) (s : State (Unit {0}) Account) → Balanced slots s → BooksBalance slots s }
{}

/// While fewer than 2^64 requests stand, the words show requests and unfilled places as they are.
pub fn exact_while_few()
    ensures { (slots : ℕ) (s : State (Unit {0}) Account) → Balanced slots s
        → standing slots s.views < 2 ^ 64 → IsExact slots s }
{}
