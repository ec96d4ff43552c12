//! What a lock's threads announce to each other: that all rest until the next round, that the helpers end, and how many helpers nested
//! locks ask for.
//!
//! A nested lock asks the lock that it is opened in for helpers, and for places at a child slot. Each stage of that is a value of its
//! own, so a seat which answers for requests can't be used for anything else.
ghost use Rattle.std.specs.Prelude.{◌≡◌, ◌<◌, ◌+◌, [], true, false, ℕ};
ghost use Rattle.spindle_parts.specs.LedgerSeats.{IsSeatOf, child_slot_count, IsSameSeat};
ghost use Rattle.spindle_parts.specs.LedgerSteps.{blank, subtracting, installing, closing};
ghost use Rattle.spindle_parts.specs.declared.words.TheConstants.{REQUESTS};
ghost use Rattle.spindle_rounds.specs.Signals.{Read, ReadExit, ReadRest, AnnouncedExit, AnnouncedRest, EndedRest, TookPlace};
ghost use Rattle.spindle_parts.specs.Ledger.{place_word};

use crate::round_table::slots::SlotContents;
use crate::threads::tables::Tables;
use spindle_parts::requests::{Requests, Seat, TakePlace};

/// A thread's access to the signals of its lock. It answers for no request between two calls.
#[derive(Drop)]
pub struct Signals<'a> {
    ledger: &'a Requests,
    seat: Seat,
    child_slots: usize,
    ghost seated: { IsSeatOf ledger.now seat },
    ghost counted: { child_slot_count ledger.now ≡ child_slots },
    ghost no_credit: { seat.me.0.credit ≡ 0 },
}

impl<'a> Signals<'a> {
    ghost use Rattle.spindle_rounds.specs.Accounts.{account_of, IsSameThread};

    /// The signals, by a seat of their ledger, which has so many child slots.
    pub fn new(ledger: &'a Requests, seat: Seat, child_slots: usize) -> Signals<'a>
        requires seated { IsSeatOf ledger.now seat }
        requires counted { child_slot_count ledger.now ≡ child_slots }
        requires no_credit { seat.me.0.credit ≡ 0 }
        ensures { result.seat ≡ seat }
    {
        Signals {
            ledger,
            seat,
            child_slots,
        }
    }

    /// The same for another thread.
    pub fn another(&mut self) -> Signals<'a>
        ensures old { self.new.seat.me ≡ self.old.seat.me }
        ensures new { result.seat.me ≡ (blank, []) }
    {
        let seat = self.ledger.new_seat(&mut self.seat);
        Signals {
            ledger: self.ledger,
            seat,
            child_slots: self.child_slots,
        }
    }

    /// How many child slots there are.
    pub fn child_slots(&self) -> usize
        ensures { result ≡ self.now.child_slots }
    {
        self.child_slots
    }

    /// How many helpers nested locks ask for.
    pub fn requests(&mut self) -> u64
        ensures read { Read REQUESTS result (account_of self.old) (account_of self.new) }
        ensures same { IsSameThread self.old self.new }
    {
        self.ledger.requests(&mut self.seat)
    }

    /// The same where the thread looks at all; where it doesn't, it sees none.
    pub fn requests_if(&mut self, looks: bool) -> u64
        ensures read { looks ≡ true → Read REQUESTS result (account_of self.old) (account_of self.new) }
        ensures unread { looks ≡ false → (result ≡ 0) × (account_of self.new ≡ account_of self.old) }
        ensures same { IsSameThread self.old self.new }
    {
        if looks { self.requests() } else { 0 }
    }

    /// Tries once to take a place of the slot, and lowers requests by it.
    pub fn takes_place(&mut self, slot: usize) -> bool
        requires slot { slot < self.old.child_slots }
        ensures took { TookPlace slot result (account_of self.old) (account_of self.new) }
        ensures same { IsSameThread self.old self.new }
    {
        match self.ledger.try_take_place(&mut self.seat, slot) {
            TakePlace::Taken => {
                self.ledger.subtract(&mut self.seat, 1);
                true
            }
            _ => false,
        }
    }

    /// Asks for a helper for each thread but the leader of the lock with these tables, by a seat that answers for them.
    pub fn ask<D: SlotContents>(&mut self, tables: &Tables<D>) -> HelperRequest<'a>
        ensures old { self.new.seat.me ≡ self.old.seat.me }
        ensures same { IsSameThread self.old self.new }
        ensures child_slots { result.child_slots ≡ self.old.child_slots }
        ensures helpers { 1 + result.helpers ≡ tables.now.counts.threads }
    {
        let seat = self.ledger.new_seat(&mut self.seat);
        HelperRequest::new(
            self.ledger,
            seat,
            self.child_slots,
            tables.counts.threads() - 1,
        )
    }

    /// Whether the helpers are to end.
    pub fn is_exit_announced(&mut self) -> bool
        ensures read { ReadExit result (account_of self.old) (account_of self.new) }
    {
        self.ledger.exit_announced(&mut self.seat)
    }

    /// Tells the helpers to end.
    pub fn announce_exit(&mut self)
        ensures told { AnnouncedExit (account_of self.old) (account_of self.new) }
    {
        self.ledger.announce_exit(&mut self.seat, true);
    }

    /// Whether idle threads are to sleep at once.
    pub fn is_rest_announced(&mut self) -> bool
        ensures read { ReadRest result (account_of self.old) (account_of self.new) }
    {
        self.ledger.rest_announced(&mut self.seat)
    }

    /// Tells idle threads to sleep at once until the next round.
    pub fn announce_rest(&mut self)
        ensures told { AnnouncedRest (account_of self.old) (account_of self.new) }
    {
        self.ledger.announce_rest(&mut self.seat, true);
    }

    /// A round is about to come: idle threads make their turns again.
    pub fn end_rest(&mut self)
        ensures ended { EndedRest (account_of self.old) (account_of self.new) }
    {
        if self.ledger.rest_announced(&mut self.seat) {
            self.ledger.announce_rest(&mut self.seat, false);
        }
    }
}

/// Helpers that were asked for, and for whom no slot has places yet. It can't be dropped: what was asked for is offered or taken
/// back.
pub struct HelperRequest<'a> {
    ledger: &'a Requests,
    seat: Seat,
    child_slots: usize,
    helpers: usize,
    ghost seated: { IsSeatOf ledger.now seat },
    ghost counted: { child_slot_count ledger.now ≡ child_slots },
    ghost credit: { seat.me.0.credit ≡ helpers },
}

/// Helpers that were asked for, with places at a slot for those that haven't come yet. It can't be dropped, but closed.
pub struct OpenPlaces<'a> {
    ledger: &'a Requests,
    seat: Seat,
    slot: usize,
    ghost seated: { IsSeatOf ledger.now seat },
    ghost placed: { slot < child_slot_count ledger.now },
    ghost no_credit: { seat.me.0.credit ≡ 0 },
}

impl<'a> HelperRequest<'a> {
    /// Asks for so many helpers.
    pub fn new(
        ledger: &'a Requests,
        mut seat: Seat,
        child_slots: usize,
        helpers: usize,
    ) -> HelperRequest<'a>
        requires seated { IsSeatOf ledger.now seat }
        requires counted { child_slot_count ledger.now ≡ child_slots }
        requires no_credit { seat.me.0.credit ≡ 0 }
        ensures child_slots { result.child_slots ≡ child_slots }
        ensures helpers { result.helpers ≡ helpers }
    {
        ledger.ask(&mut seat, helpers);
        HelperRequest {
            ledger,
            seat,
            child_slots,
            helpers,
        }
    }

    /// How many child slots there are.
    pub fn child_slots(&self) -> usize
        ensures { result ≡ self.now.child_slots }
    {
        self.child_slots
    }

    /// Opens the places at the slot.
    pub fn install(self, slot: usize) -> OpenPlaces<'a>
        requires slot { slot < self.child_slots }
        ensures slot { result.slot ≡ slot }
        ensures same { IsSameSeat self.entry.seat result.seat }
        ensures step { (found : ℕ) × (result.seat.me.0
            ≡ installing (place_word slot) self.entry.helpers found self.entry.seat.me.0) }
    {
        let HelperRequest {
            ledger,
            mut seat,
            child_slots: _,
            helpers,
        } = self;
        ledger.install(&mut seat, slot, helpers);
        OpenPlaces { ledger, seat, slot }
    }

    /// Takes the requests back. The seat answers for none any more.
    pub fn withdraw(self) -> Seat
        ensures same { IsSameSeat self.entry.seat result }
        ensures step { (found : ℕ) × (result.me.0
            ≡ subtracting self.entry.helpers found self.entry.seat.me.0) }
        ensures settled { result.me.0.credit ≡ 0 }
    {
        let HelperRequest {
            ledger,
            mut seat,
            child_slots: _,
            helpers,
        } = self;
        ledger.subtract(&mut seat, helpers);
        seat
    }
}

impl<'a> OpenPlaces<'a> {
    /// Closes the places: requests fall by those that nobody took. The seat answers for none any more.
    pub fn close(self) -> Seat
        ensures same { IsSameSeat self.entry.seat result }
        ensures step { (unfilled : ℕ) × (found : ℕ) × (result.me.0
            ≡ subtracting unfilled found (closing (place_word self.entry.slot) unfilled self.entry.seat.me.0)) }
        ensures settled { result.me.0.credit ≡ 0 }
    {
        let OpenPlaces {
            ledger,
            mut seat,
            slot,
        } = self;
        let unfilled = ledger.close(&mut seat, slot);
        ledger.subtract(&mut seat, unfilled);
        seat
    }
}
