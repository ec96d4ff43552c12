//! Thread numbers.
//!
//! `try_take` says which words it read, and the rule of the table that no two seats have one number. These rows show what no clause
//! says: that a take wins where nobody else steps, and that memory is refused only where it was.
ghost use Rattle.std.specs.Prelude.{◌≡◌};
ghost use Rattle.spindle_parts.specs.ThreadNumbers.{IsSeatOf};

use crate::checks::{holds, is};
use spindle_parts::fault::Fault;
use spindle_parts::numbers::{Numbers, Seat, Take};
use std::process::Abort;

#[test]
fn the_least_unused_number_is_taken(rt: HostRuntime) -> Result<(), Fault> {
    let (numbers, mut leader) = Numbers::new(rt.alloc(), 3)?;
    let mut first = numbers.new_seat(&mut leader);
    let mut second = numbers.new_seat(&mut leader);
    let mut third = numbers.new_seat(&mut leader);
    let taken = numbers.try_take(&mut first);
    is(&rt, taken, Take::Taken(1));
    is(&rt, numbers.try_take(&mut second), Take::Taken(2));
    is(&rt, numbers.try_take(&mut third), Take::AllInUse);
    if let Take::Taken(number) = taken {
        numbers.give(&mut first, number);
        is(&rt, numbers.try_take(&mut first), Take::Taken(1));
    }
    Ok(())
}

/// What a new seat is answered that takes a number.
fn taken(numbers: &Numbers, leader: &mut Seat) -> Take
    requires { IsSeatOf numbers.now leader.old }
    ensures { IsSeatOf numbers.now leader.new }
{
    let mut seat = numbers.new_seat(leader);
    numbers.try_take(&mut seat)
}

#[test]
fn refused_numbers_are_answered(rt: HostRuntime) {
    for (threads, first) in [
        (1, Take::AllInUse),
        (33, Take::Taken(1)),
        (32767, Take::Taken(1)),
    ] {
        match Numbers::new(rt.alloc(), threads) {
            Ok((numbers, mut leader)) => is(&rt, taken(&numbers, &mut leader), first),
            Err(fault) => holds(&rt, matches!(fault, Fault::Memory)),
        }
    }
}
