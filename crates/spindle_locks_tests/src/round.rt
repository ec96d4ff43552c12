//! Rounds played by one thread, with the words of the table beside them.
//!
//! Each call of `Round` says which step it made of the words that it found. These rows show what no clause says: what the calls find
//! where nobody else steps, and that the machine answers alike.
ghost use Rattle.std.specs.Prelude.{◌≤◌};
ghost use Rattle.spindle_rounds.specs.RoundConditions.{MayClaim};
ghost use Rattle.spindle_rounds.specs.Seating.{IsSeatAt, IsSameSeat};

use self::play::{enter, lead, own, rest, steal, steal_and_stop, word};
use crate::checks::{holds, is};
use spindle_parts::fault::Fault;
use spindle_rounds::round::Round;
use spindle_rounds::round::stopping::PutBack;
use spindle_rounds::round_table::pieces::{PieceKind, PieceSlots};
use spindle_rounds::round_table::slots::Bare;
use spindle_rounds::round_table::{APART, PUBLISHED, RANGES, REMAINDER, STOPPED, Seat};
use std::test::Fail;

mod coming_and_going;
mod lines;
mod play;
mod scripts;
mod stages;

/// The ranges of ten jobs on four threads, of two jobs each.
const RANGES_OF_TEN: (u64, u64, u64, u64) = (
    0x0000000200000000,
    0x0000000400000002,
    0x0000000600000004,
    0x0000000800000006,
);

/// Claims and finishes the first number left of the remainder three times.
fn three_rest(round: &Round<Bare>, seat: &mut Seat<Bare>) -> (Option<u64>, Option<u64>, Option<u64>)
    requires seated { IsSeatAt round.now.init seat.old }
    requires free { MayClaim seat.old.me.0 }
    ensures seat { IsSameSeat seat.old seat.new }
    ensures free { MayClaim seat.new.me.0 }
{
    (rest(round, seat), rest(round, seat), rest(round, seat))
}

#[test]
fn a_round_of_ten_jobs_on_four_threads(rt: HostRuntime) -> Result<(), Fail> {
    let (round, seat) = Round::new(rt.alloc(), 4)?;
    let mut leader = enter(&rt, &round, seat, 0);
    let seat = leader.seat();
    lead(&round, seat, 10);
    is(&rt, word(&round, PUBLISHED), 10 + 4294967296);
    let ranges = (
        word(&round, RANGES),
        word(&round, RANGES + APART),
        word(&round, RANGES + 2 * APART),
        word(&round, RANGES + 3 * APART),
    );
    is(&rt, ranges, RANGES_OF_TEN);
    is(&rt, word(&round, REMAINDER), 2);
    let claimed = (own(&round, seat, 0), own(&round, seat, 1));
    is(&rt, claimed, (Some(0), Some(2)));
    // A thief takes the last number of the longest range.
    is(&rt, steal(&round, seat), Some((5, 0)));
    is(&rt, word(&round, RANGES + 2 * APART), 0x0000000500000004);
    let claimed = (own(&round, seat, 1), own(&round, seat, 1));
    is(&rt, claimed, (Some(3), None));
    let claimed = (own(&round, seat, 0), own(&round, seat, 2));
    is(&rt, claimed, (Some(1), Some(4)));
    is(&rt, own(&round, seat, 3), Some(6));
    // And the only number.
    is(&rt, steal(&round, seat), Some((7, 0)));
    is(&rt, word(&round, RANGES + 3 * APART), 0x0000000700000007);
    is(&rt, three_rest(&round, seat), (Some(8), Some(9), None));
    Ok(())
}

#[test]
fn fewer_jobs_than_threads_are_all_in_the_remainder(rt: HostRuntime) -> Result<(), Fail> {
    let (round, seat) = Round::new(rt.alloc(), 4)?;
    let mut leader = enter(&rt, &round, seat, 0);
    let seat = leader.seat();
    lead(&round, seat, 3);
    is(
        &rt,
        (own(&round, seat, 0), own(&round, seat, 3)),
        (None, None),
    );
    is(&rt, steal(&round, seat), None);
    is(&rt, three_rest(&round, seat), (Some(0), Some(1), Some(2)));
    is(&rt, rest(&round, seat), None);
    Ok(())
}

#[test]
fn a_thief_takes_the_last_half(rt: HostRuntime) -> Result<(), Fail> {
    let (round, seat) = Round::new(rt.alloc(), 1)?;
    let mut leader = enter(&rt, &round, seat, 0);
    let seat = leader.seat();
    lead(&round, seat, 5);
    is(&rt, word(&round, RANGES), 0x0000000500000000);
    is(&rt, steal(&round, seat), Some((3, 1)));
    is(&rt, word(&round, RANGES), 0x0000000300000000);
    Ok(())
}

#[test]
fn a_share_goes_back_into_an_empty_range(rt: HostRuntime) -> Result<(), Fail> {
    let (round, seat) = Round::new(rt.alloc(), 2)?;
    let mut leader = enter(&rt, &round, seat, 0);
    let seat = leader.seat();
    lead(&round, seat, 8);
    is(&rt, word(&round, PUBLISHED), 8 + 4294967296);
    let claimed = (own(&round, seat, 0), own(&round, seat, 0));
    is(&rt, claimed, (Some(0), Some(1)));
    let claimed = (own(&round, seat, 0), own(&round, seat, 0));
    is(&rt, claimed, (Some(2), Some(3)));
    is(
        &rt,
        steal_and_stop(&rt, &round, seat),
        Some((PutBack::Occupied, PutBack::Put, true)),
    );
    is(&rt, word(&round, STOPPED), 1);
    let left = (
        round.left(seat, 0),
        round.left(seat, 1),
        round.left(seat, 2),
    );
    is(&rt, left, (0x0000000800000007, 0x0000000600000004, 0));
    Ok(())
}

#[test]
fn refused_round_is_no_table(rt: HostRuntime) {
    for threads in [1, 4, 32767] {
        match Round::new(rt.alloc(), threads) {
            Ok((round, _seat)) => is(&rt, round.init().current_num_threads(), 0),
            Err(fault) => holds(&rt, matches!(fault, Fault::Memory)),
        }
    }
}

/// Pieces that are numbers, each answered by twice the number.
struct Twice;

impl PieceKind for Twice {
    ghost use Rattle.std.specs.Prelude.{◌≡◌, ◌*◌};

    type Piece = u32;

    type Answer = u64;

    ghost answers = { λ x y. y ≡ x * 2 };
}

#[test]
fn refused_slots_are_no_table(rt: HostRuntime) {
    for slots in [1, 11, 1000] {
        match Round::<PieceSlots<Twice>>::with_slots(rt.alloc(), 3, slots) {
            Ok((round, _seat)) => is(&rt, round.init().current_num_threads(), 0),
            Err(fault) => holds(&rt, matches!(fault, Fault::Memory)),
        }
    }
}
