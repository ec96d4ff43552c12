//! Locks in place of `nested`: their jobs open locks of their own for a series of rounds, and other jobs run there.
ghost use Rattle.std.specs.Prelude.{◌≡◌};
ghost use denote.Param.Send.{IsSync};

use crate::kinds::add_one;
use crate::series::{Done, Placed, Places, Plays, items};
use crate::timing::{Bench, Machine, Shape, Times, in_place, shaped};
use spindle::prelude::*;

/// The parts of each list: a job of an inner round has one.
const PARTS: usize = 4;

/// The rounds of each inner lock.
const ROUNDS: u64 = 16;

/// A part of a list. In place it is moved as one pointer, where a list is moved as three words and more.
type Part = Box<[u64; 64]>;

/// Adds one to each number of a part.
struct AddOneToPart;

impl Update for AddOneToPart {
    type Item = Part;

    type Inner = End;

    ghost updated = { λ _ _. Unit {0} };

    fn run<H: Threads + Wait + Sync>(_: &H, _: Global, mut part: Part, _: &mut JobCx<End>) -> Part {
        add_one(&mut *part);
        part
    }
}

impl Placed for InPlace<AddOneToPart> {
    fn item(alloc: Global, _: usize, _: usize, rounds: u64) -> Result<Part, Fault> {
        Ok(Box::new(alloc, [rounds; 64])?)
    }
}

/// Opens a lock of half as many threads as its own lock has, and plays a series of so many rounds there.
struct InRounds;

impl Update for InRounds {
    type Item = Vec<Part>;

    type Inner = UnderInPlace<AddOneToPart>;

    ghost updated = { λ _ _. Unit {0} };

    // What is refused is seen by what stands in the parts.
    fn run<H: Threads + Wait + Sync>(
        rt: &H,
        alloc: Global,
        items: Vec<Part>,
        cx: &mut JobCx<UnderInPlace<AddOneToPart>>,
    ) -> Vec<Part> {
        let threads = (cx.max_num_threads() / 2).max(1);
        let shape = shaped(PARTS, 0, 0);
        let mut series = Places::<InPlace<AddOneToPart>> { shape, items };
        let _played = LockOf::<InPlace<AddOneToPart>>::nested_with_slots_in_place(
            rt,
            alloc,
            cx,
            threads,
            PARTS,
            |leader| -> Done
                requires { IsSync H.row }
            { leader.play_all(rt, alloc, &mut series, ROUNDS) },
        );
        series.items
    }
}

impl Placed for InPlace<InRounds> {
    // Where the lists of a shape have no numbers, each has as many parts as a round has jobs.
    fn item(alloc: Global, number: usize, size: usize, rounds: u64) -> Result<Self::Item, Fault> {
        let parts = PARTS + number.saturating_mul(size) % 6;
        items::<InPlace<AddOneToPart>>(alloc, parts, size, rounds.saturating_mul(ROUNDS))
    }
}

/// Plays in a lock in place whose jobs open locks in place. Its kind is named here alone, since that is dear to prove.
pub fn in_nested<H: Machine>(bench: &Bench<H>, shape: Shape) -> Times {
    in_place::<InPlace<InRounds>, H>(bench, shape)
}
