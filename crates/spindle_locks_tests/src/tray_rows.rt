//! What a leader gathers, or tells of a round that may stop, where a piece is missing, a stranger stands in its place, or marks and places
//! disagree: played on the trays by one thread, since no round of a lock loses a piece.
//!
//! Clauses say of `gather` and of each tray what is lost. The rows show it at pieces: the least number of all trays is lost that is marked
//! as left and ran, or isn't and didn't, or was skipped where none failed; trays give a piece once, and keep no item.
ghost use Rattle.std.specs.Prelude.{◌≡◌, ◌∷◌, [], IfOk, length, vec_len};
ghost use Rattle.spindle_locks.specs.Rounds.{items_of};

use crate::checks::{are, holds, is};
use crate::finished::{only, squared};
use crate::jobs::Square;
use crate::trying::{Item, Trying, these_ran};
use spindle_locks::pieces::finished::Finished;
use spindle_locks::pieces::gathering::gather;
use spindle_locks::pieces::list_runs::ListRuns;
use spindle_locks::pieces::place::SpareLists;
use spindle_locks::pieces::report::Report;
use spindle_locks::pieces::tally::Tally;
use spindle_locks::pieces::trays::Trays;
use spindle_locks::prelude::*;
use spindle_parts::cut::Piece;
use spindle_parts::lists::SharedList;
use std::process::Abort;
use std::test::Fail;

// The pieces [1] and [2].
fn two_pieces(alloc: Global) -> Result<Vec<Piece<usize>>, AllocError>
    ensures items { IfOk result (λ pieces. items_of pieces.items ≡ 1 ∷ 2 ∷ []) }
    ensures count { IfOk result (λ pieces. length pieces.items ≡ 2) }
{
    let mut pieces = Vec::with_capacity(alloc, 2)?;
    let items = only(alloc, 1)?;
    pieces.push_reserved(Piece { number: 0, items });
    let items = only(alloc, 2)?;
    pieces.push_reserved(Piece { number: 1, items });
    Ok(pieces)
}

// Two places, each with a squared number as the piece of a number, or the second without one.
fn two_places(
    alloc: Global,
    first: (usize, usize),
    second: Option<(usize, usize)>,
) -> Result<Vec<Option<Finished<Square>>>, Fail>
    ensures { IfOk result (λ places. vec_len places ≡ 2) }
{
    let mut places = Vec::with_capacity(alloc, 2)?;
    places.push_reserved(Some(squared(alloc, first.0, first.1)?));
    let second = match second {
        Some(second) => Some(squared(alloc, second.0, second.1)?),
        None => None,
    };
    places.push_reserved(second);
    Ok(places)
}

#[test]
fn the_first_place_without_its_piece_is_lost(rt: HostRuntime) -> Result<(), Fail> {
    let alloc = rt.alloc();
    for (first, second, lost) in [
        ((0, 1), Some((1, 2)), None),
        ((0, 1), None, Some(1)),
        ((1, 2), Some((0, 1)), Some(0)),
        ((0, 1), Some((1, 3)), Some(1)),
    ] {
        let handed = two_pieces(alloc)?;
        let mut places = two_places(alloc, first, second)?;
        let mut room = Vec::with_capacity(alloc, 2)?;
        let found = gather::<Square>(&handed, &mut places, &mut room).err();
        is(&rt, found, lost);
        if lost.is_none() {
            are(&rt, room.as_slice(), &[1, 4]);
        }
    }
    Ok(())
}

// The piece of a number, which ran with this item.
fn run_with(alloc: Global, number: usize, item: Item) -> Result<Finished<Trying>, Fail> {
    let inputs = SharedList::from_vec(alloc, vec![in alloc; item]?)?.run(0, 1)?;
    let outputs = vec![in alloc; item]?;
    Ok(Finished::new(number, inputs, outputs))
}

// Pieces that are brought back, each as the piece of a number with an item.
type Back = &'static [(usize, u32)];

// Brings such pieces back to the trays, which give each of five pieces once. A piece of another number is only made.
fn bring_back<H: Wait + Abort>(
    rt: &H,
    alloc: Global,
    trays: &Trays<Trying>,
    fails: bool,
    back: Back,
) -> Result<(), Fail> {
    for (number, item) in back {
        if *number < 5 {
            holds(rt, trays.take(rt, 5, *number).is_some());
            holds(rt, trays.take(rt, 5, *number).is_none());
        }
        let finished = run_with(alloc, *number, (*item, fails && *item == 0))?;
        if finished.number() < 5 {
            holds(rt, trays.put(rt, 5, finished).is_ok());
        }
    }
    Ok(())
}

// What is lost of five pieces of which these were brought back, and their outputs. Two trays hold them: 0, 1 and 4 stand in the first, 2
// and 3 in the second.
fn gathered<H: Wait + Abort>(
    rt: &H,
    alloc: Global,
    back: Back,
) -> Result<(Option<usize>, Vec<Item>), Fail> {
    let items = vec![in alloc; (0, false), (1, false), (2, false), (3, false), (4, false)]?;
    let items = SharedList::from_vec(alloc, items)?;
    let kept = items.clone()?;
    let len = items.len();
    let pieces = ListRuns::new(items, 5);
    let trays = Trays::<Trying>::new(alloc, 2)?;
    trays.hand_out(rt, alloc, &pieces, &mut SpareLists::none(alloc))?;
    bring_back(rt, alloc, &trays, false, back)?;
    let mut outputs = Vec::with_capacity(alloc, len)?;
    let lost = trays.gather(rt, &pieces, &mut outputs).err();
    drop(pieces);
    holds(rt, kept.try_into_vec().is_ok());
    Ok((lost, outputs))
}

const ALL: Back = &[(0, 0), (1, 1), (2, 2), (3, 3), (4, 4)];

const BUT_0: Back = &[(1, 1), (2, 2), (3, 3), (4, 4)];

const BUT_1: Back = &[(0, 0), (2, 2), (3, 3), (4, 4)];

const BUT_2: Back = &[(0, 0), (1, 1), (3, 3), (4, 4)];

const BUT_3: Back = &[(0, 0), (1, 1), (2, 2), (4, 4)];

const BUT_4: Back = &[(0, 0), (1, 1), (2, 2), (3, 3)];

const BUT_1_3: Back = &[(0, 0), (2, 2), (4, 4)];

const BUT_2_4: Back = &[(3, 3), (1, 1), (0, 0)];

// The third has another item.
const STRANGER: Back = &[(0, 0), (1, 1), (2, 1), (3, 3), (4, 4)];

// Pieces that are brought back, and the number that is lost: all in two orders, all but one, all but several, strangers.
const GATHERED: &[(Back, Option<usize>)] = &[
    (ALL, None),
    (&[(4, 4), (2, 2), (3, 3), (1, 1), (0, 0)], None),
    (BUT_0, Some(0)),
    (BUT_1, Some(1)),
    (BUT_2, Some(2)),
    (BUT_3, Some(3)),
    (BUT_4, Some(4)),
    (BUT_2_4, Some(2)),
    (&[], Some(0)),
    (STRANGER, Some(2)),
    (&[(0, 0), (1, 1), (2, 2), (3, 3), (4, 0)], Some(4)),
    (&[(0, 0), (1, 0), (3, 3), (4, 4)], Some(1)),
    (&[(0, 0), (1, 1), (3, 9), (4, 4)], Some(2)),
    (&[(0, 0), (1, 1), (2, 2), (3, 9), (4, 9)], Some(3)),
];

#[test]
fn the_least_missing_piece_of_trays_is_lost(rt: HostRuntime) -> Result<(), Fail> {
    for (back, wanted) in GATHERED {
        let (lost, outputs) = gathered(&rt, rt.alloc(), back)?;
        is(&rt, lost, *wanted);
        if lost.is_none() {
            let items = [(0, false), (1, false), (2, false), (3, false), (4, false)];
            are(&rt, &outputs, &items);
        }
    }
    Ok(())
}

// What is told of the pieces of the items 0 to 4, of which the first fails or none, where these were brought back, and these are marked
// as left.
fn tallied<H: Wait + Abort>(
    rt: &H,
    alloc: Global,
    fails: bool,
    back: Back,
    left: &[bool],
) -> Result<Result<Report<Item>, usize>, Fail>
    requires { length left.now ≡ 5 }
{
    let items = vec![in alloc; (0, fails), (1, false), (2, false), (3, false), (4, false)]?;
    let pieces = ListRuns::new(SharedList::from_vec(alloc, items)?, 5);
    let trays = Trays::<Trying>::new(alloc, 2)?;
    trays.hand_out(rt, alloc, &pieces, &mut SpareLists::none(alloc))?;
    bring_back(rt, alloc, &trays, fails, back)?;
    let mut tally = Tally::new::<Trying>(alloc, &pieces, Vec::new(alloc))?;
    trays.tally(rt, &pieces, left, &mut tally);
    for number in 0..5 {
        holds(rt, trays.take(rt, 5, number).is_none());
    }
    Ok(tally.finish::<Trying>(&pieces, left))
}

type Numbers = &'static [usize];

// Whether the first item fails, the pieces that are brought back, and the marks; the pieces that ran and those that were skipped, or
// else the number that is lost.
type Row = (bool, Back, [bool; 5], Numbers, Numbers, Option<usize>);

const NONE: [bool; 5] = [false; 5];

const ONE: [bool; 5] = [false, true, false, false, false];

const TWO: [bool; 5] = [false, false, true, false, false];

const FOUR: [bool; 5] = [false, false, false, false, true];

const TWO_FOUR: [bool; 5] = [false, false, true, false, true];

const TALLIED: &[Row] = &[
    // Pieces that are back ran, and marked ones were skipped.
    (false, ALL, NONE, &[0, 1, 2, 3, 4], &[], None),
    (true, ALL, NONE, &[0, 1, 2, 3, 4], &[], None),
    (true, BUT_2_4, TWO_FOUR, &[0, 1, 3], &[2, 4], None),
    // A piece that is neither back nor marked is lost,
    (false, BUT_0, NONE, &[], &[], Some(0)),
    (false, BUT_1, NONE, &[], &[], Some(1)),
    (false, BUT_2, NONE, &[], &[], Some(2)),
    (false, BUT_3, NONE, &[], &[], Some(3)),
    (false, BUT_4, NONE, &[], &[], Some(4)),
    (true, BUT_0, NONE, &[], &[], Some(0)),
    (true, BUT_2, NONE, &[], &[], Some(2)),
    (true, BUT_4, NONE, &[], &[], Some(4)),
    // and a marked one that ran.
    (false, ALL, TWO, &[], &[], Some(2)),
    (true, ALL, TWO, &[], &[], Some(2)),
    (true, ALL, FOUR, &[], &[], Some(4)),
    // A piece with other inputs didn't run.
    (true, STRANGER, NONE, &[], &[], Some(2)),
    (true, STRANGER, TWO, &[0, 1, 3, 4], &[2], None),
    // Where none failed a skipped piece is lost.
    (false, BUT_2_4, TWO_FOUR, &[], &[], Some(2)),
    // The least of several is lost.
    (true, BUT_3, ONE, &[], &[], Some(1)),
    (true, BUT_3, FOUR, &[], &[], Some(3)),
    (false, BUT_1_3, ONE, &[], &[], Some(1)),
    (true, BUT_1_3, ONE, &[], &[], Some(3)),
    (false, BUT_2_4, FOUR, &[], &[], Some(2)),
];

#[test]
fn each_piece_ran_or_was_skipped_or_is_lost(rt: HostRuntime) -> Result<(), Fail> {
    for row in TALLIED {
        play_tallied(&rt, rt.alloc(), *row)?;
    }
    Ok(())
}

fn play_tallied<H: Wait + Abort>(rt: &H, alloc: Global, row: Row) -> Result<(), Fail> {
    let (fails, back, left, ran, skipped, lost) = row;
    match tallied(rt, alloc, fails, back, &left)? {
        Ok(report) => {
            these_ran(rt, &report, ran);
            are(rt, &report.skipped, skipped);
            is(rt, lost, None);
        }
        Err(number) => is(rt, lost, Some(number)),
    }
    Ok(())
}
