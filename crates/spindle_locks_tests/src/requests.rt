//! The ledger of helper requests.
//!
//! Each call says which step it made, and the rule of the ledger that its books balance. These rows show what no clause says: what
//! the calls find where one thread steps, which flags a fresh ledger has, and that memory is refused only where it was.
ghost use Rattle.std.specs.Prelude.{◌≡◌, ◌<◌};
ghost use Rattle.spindle_parts.specs.LedgerSeats.{child_slot_count, IsSeatOf};

use crate::checks::{holds, is};
use spindle_parts::fault::Fault;
use spindle_parts::requests::{Requests, Seat, TakePlace};
use std::process::Abort;

/// Asks for three requests, which are places of slot 0 then.
fn open_three(rt: &impl Abort, books: &Requests, seat: &mut Seat)
    requires { IsSeatOf books.now seat.old × (0 < child_slot_count books.now) }
    ensures { IsSeatOf books.now seat.new }
{
    books.ask(seat, 3);
    is(rt, books.requests(seat), 3);
    books.install(seat, 0, 3);
    is(rt, books.requests(seat), 3);
}

/// Takes a place of the slot, and its request back: so many are left.
fn take_one(rt: &impl Abort, books: &Requests, seat: &mut Seat, slot: usize, left: u64)
    requires { IsSeatOf books.now seat.old × (slot < child_slot_count books.now) }
    ensures { IsSeatOf books.now seat.new }
{
    let answer = books.try_take_place(seat, slot);
    is(rt, answer, TakePlace::Taken);
    if answer == TakePlace::Taken {
        books.subtract(seat, 1);
    }
    is(rt, books.requests(seat), left);
}

/// Closes slot 0, which has all requests that are left, so many, and takes them back.
fn close_last(rt: &impl Abort, books: &Requests, seat: &mut Seat, want: usize)
    requires { IsSeatOf books.now seat.old × (0 < child_slot_count books.now) }
{
    let left = books.close(seat, 0);
    is(rt, left, want);
    is(rt, books.requests(seat), want as u64);
    books.subtract(seat, left);
    is(rt, books.requests(seat), 0);
}

#[test]
fn one_of_three_places_is_taken(rt: HostRuntime) -> Result<(), Fault> {
    let (books, mut leader) = Requests::new(rt.alloc(), 1)?;
    let mut helper = books.new_seat(&mut leader);
    open_three(&rt, &books, &mut leader);
    take_one(&rt, &books, &mut helper, 0, 2);
    close_last(&rt, &books, &mut leader, 2);
    Ok(())
}

#[test]
fn one_seat_serves_two_slots(rt: HostRuntime) -> Result<(), Fault> {
    let (books, mut seat) = Requests::new(rt.alloc(), 2)?;
    open_three(&rt, &books, &mut seat);
    books.ask(&mut seat, 1);
    books.install(&mut seat, 1, 1);
    is(&rt, books.requests(&mut seat), 4);
    take_one(&rt, &books, &mut seat, 1, 3);
    is(&rt, books.try_take_place(&mut seat, 1), TakePlace::None);
    is(&rt, books.close(&mut seat, 1), 0);
    close_last(&rt, &books, &mut seat, 3);
    Ok(())
}

#[test]
fn who_finds_no_slot_takes_its_requests_back(rt: HostRuntime) -> Result<(), Fault> {
    let (books, mut seat) = Requests::new(rt.alloc(), 0)?;
    books.ask(&mut seat, 3);
    is(&rt, books.requests(&mut seat), 3);
    books.subtract(&mut seat, 3);
    is(&rt, books.requests(&mut seat), 0);
    Ok(())
}

/// The flags must be these: whether exit is announced, and whether rest is.
fn has_flags(rt: &impl Abort, books: &Requests, seat: &mut Seat, exit: bool, rest: bool)
    requires { IsSeatOf books.now seat.old }
    ensures { IsSeatOf books.now seat.new }
{
    is(rt, books.exit_announced(seat), exit);
    is(rt, books.rest_announced(seat), rest);
}

/// Stores the flags, which must be as stored then.
fn announce(rt: &impl Abort, books: &Requests, seat: &mut Seat, exit: bool, rest: bool)
    requires { IsSeatOf books.now seat.old }
    ensures { IsSeatOf books.now seat.new }
{
    books.announce_exit(seat, exit);
    books.announce_rest(seat, rest);
    has_flags(rt, books, seat, exit, rest);
}

#[test]
fn flags_are_as_last_stored(rt: HostRuntime) -> Result<(), Fault> {
    let (books, mut seat) = Requests::new(rt.alloc(), 3)?;
    has_flags(&rt, &books, &mut seat, false, true);
    announce(&rt, &books, &mut seat, true, true);
    announce(&rt, &books, &mut seat, true, false);
    announce(&rt, &books, &mut seat, false, true);
    is(&rt, books.requests(&mut seat), 0);
    Ok(())
}

#[test]
fn refused_ledgers_are_answered(rt: HostRuntime) {
    for slots in [0, 1, 32767, 1 << 57, 1 << 60, usize::MAX / 8, usize::MAX] {
        match Requests::new(rt.alloc(), slots) {
            Ok((books, mut seat)) => {
                books.ask(&mut seat, 1);
                is(&rt, (books.requests(&mut seat), slots < 1 << 57), (1, true));
            }
            Err(fault) => holds(&rt, matches!(fault, Fault::Memory)),
        }
    }
}
