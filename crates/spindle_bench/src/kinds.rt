//! The kinds of jobs of the shapes, but of `nested`: each over lists and in place; and what their values ought to be.
ghost use Rattle.std.specs.Prelude.{◌≡◌};

use crate::series::{Input, Listed, Placed};
use spindle::prelude::*;
use std::marker::PhantomData;

/// A list with room for so many numbers, 32 MiB, has pages of its own whatever was let go before, since the C library maps it, and its
/// first number stands 16 bytes behind their beginning. Room that isn't used takes no memory.
const OWN_PAGES: usize = 4194304;

impl Input for u64 {
    fn input(_: Global, number: usize, size: usize) -> Result<u64, Fault> {
        Ok(number.saturating_add(size) as u64)
    }
}

/// Numbers.
type List = SharedList<u64>;

impl Input for List {
    fn input(alloc: Global, number: usize, size: usize) -> Result<List, Fault> {
        Ok(SharedList::from_vec(alloc, list(alloc, number, size, 0)?)?)
    }
}

/// What jobs of a shape do. The number of a job and the numbers of its list, where it has one, tell its values after each round.
pub trait Task {
    /// What a job over lists is given.
    type In: Input;

    /// What it answers.
    type Out: PartialEq + Drop;

    /// What is changed in place.
    type Item: PartialEq + Drop;

    /// A job over lists.
    fn answer(alloc: Global, input: &Self::In) -> Self::Out;

    /// A job in place.
    fn update(item: Self::Item) -> Self::Item;

    /// What it answers after so many rounds.
    fn output(alloc: Global, number: usize, size: usize, rounds: u64) -> Result<Self::Out, Fault>;

    /// What the jobs of the next round are given, after this in the first and these answers: the same, where they aren't given those.
    fn next(_: Global, first: &Vec<Self::In>, _: Vec<Self::Out>) -> Result<Vec<Self::In>, Fault> {
        Ok(first.clone()?)
    }

    /// Its item after so many rounds, before the first after 0.
    fn item(alloc: Global, number: usize, size: usize, rounds: u64) -> Result<Self::Item, Fault>;
}

/// The kind of job that does this.
pub struct Does<T>(PhantomData<T>);

impl<T: Task> Job for Does<T> {
    type In = T::In;

    type Out = T::Out;

    type Inner = End;

    ghost meets = { λ _ _. Unit {0} };

    fn run<H: Threads + Wait + Sync>(_: &H, heap: Global, x: &T::In, _: &mut JobCx<End>) -> T::Out {
        T::answer(heap, x)
    }

    ghost equal_is_same = { T.In.equal_is_same };
}

impl<T: Task> Update for Does<T> {
    type Item = T::Item;

    type Inner = End;

    ghost updated = { λ _ _. Unit {0} };

    fn run<H: Threads + Wait + Sync>(_: &H, _: Global, x: T::Item, _: &mut JobCx<End>) -> T::Item {
        T::update(x)
    }
}

impl<T: Task> Listed for Does<T> {
    fn output(alloc: Global, number: usize, size: usize, rounds: u64) -> Result<T::Out, Fault> {
        T::output(alloc, number, size, rounds)
    }

    fn next(alloc: Global, first: &Vec<T::In>, all: Vec<T::Out>) -> Result<Vec<T::In>, Fault> {
        T::next(alloc, first, all)
    }
}

impl<T: Task> Placed for InPlace<Does<T>> {
    fn item(alloc: Global, number: usize, size: usize, rounds: u64) -> Result<T::Item, Fault> {
        T::item(alloc, number, size, rounds)
    }
}

/// Does nothing; in place its number stays.
pub struct Nothing;

impl Task for Nothing {
    type In = u64;

    type Out = ();

    type Item = u64;

    fn answer(_: Global, _number: &u64) {}

    fn update(number: u64) -> u64 {
        number
    }

    fn output(_: Global, _: usize, _: usize, _: u64) -> Result<(), Fault> {
        Ok(())
    }

    fn item(_: Global, number: usize, _: usize, _: u64) -> Result<u64, Fault> {
        Ok(number as u64)
    }
}

/// 26 turns of a xorshift generator from the number and one more: about 50 ns in which no step overlaps another.
pub fn stirred(number: u64) -> u64 {
    let mut x = number.wrapping_add(1);
    for _ in 0..26 {
        x ^= x << 13;
        x ^= x >> 7;
        x ^= x << 17;
    }
    x
}

/// Stirs its number by dependent arithmetic; in place it writes down beside it what comes out.
pub struct Stir;

impl Task for Stir {
    type In = u64;

    type Out = u64;

    type Item = (u64, u64);

    fn answer(_: Global, number: &u64) -> u64 {
        stirred(*number)
    }

    fn update(pair: (u64, u64)) -> (u64, u64) {
        (pair.0, stirred(pair.0))
    }

    fn output(_: Global, number: usize, _: usize, _: u64) -> Result<u64, Fault> {
        Ok(stirred(number as u64))
    }

    fn item(_: Global, number: usize, _: usize, rounds: u64) -> Result<(u64, u64), Fault> {
        let number = number as u64;
        Ok((number, stirred(number).wrapping_mul(rounds.min(1))))
    }
}

/// Answers a list of each number and one more; in place it adds one to each, by whole cache lines.
pub struct AddOne;

/// Adds one to each number; the sum wraps.
pub fn add_one(numbers: &mut [u64]) {
    for x in numbers {
        *x = x.wrapping_add(1);
    }
}

// The numbers of a job's list after so many rounds that add one.
fn list(alloc: Global, number: usize, size: usize, rounds: u64) -> Result<Vec<u64>, Fault> {
    let from = (size.saturating_mul(number) as u64).saturating_add(rounds);
    Ok((from..from.saturating_add(size as u64)).collect(alloc)?)
}

impl Task for AddOne {
    type In = List;

    type Out = Result<List, Fault>;

    type Item = Vec<u64>;

    fn answer(alloc: Global, numbers: &List) -> Result<List, Fault> {
        let sums = numbers.as_slice().iter().map(|x| x.wrapping_add(1));
        Ok(SharedList::from_vec(alloc, sums.collect(alloc)?)?)
    }

    fn update(mut numbers: Vec<u64>) -> Vec<u64> {
        // So many stand between a place 16 bytes behind the beginning of a cache line and the next line.
        let first = numbers.len().min(6);
        let (before, lines) = numbers.as_mut_slice().split_at_mut(first);
        add_one(before);
        add_one(lines);
        numbers
    }

    fn item(alloc: Global, number: usize, size: usize, rounds: u64) -> Result<Vec<u64>, Fault> {
        let mut numbers = Vec::with_capacity(alloc, OWN_PAGES)?;
        numbers.extend_from_slice(list(alloc, number, size, rounds)?.as_slice())?;
        Ok(numbers)
    }

    fn output(alloc: Global, number: usize, size: usize, rounds: u64) -> Result<Self::Out, Fault> {
        Ok(Ok(SharedList::from_vec(alloc, list(alloc, number, size, rounds)?)?))
    }

    fn next(alloc: Global, _: &Vec<List>, sums: Vec<Self::Out>) -> Result<Vec<List>, Fault> {
        let mut next = Vec::with_capacity(alloc, sums.len())?;
        for list in sums {
            next.push(list?)?;
        }
        Ok(next)
    }
}

/// Answers the squares of a list; in place it writes them into another.
pub struct Square;

impl Task for Square {
    type In = List;

    type Out = Result<Vec<u64>, Fault>;

    type Item = (List, Vec<u64>);

    fn answer(alloc: Global, numbers: &List) -> Result<Vec<u64>, Fault> {
        let squares = numbers.as_slice().iter().map(|x| x.wrapping_mul(*x));
        Ok(squares.collect(alloc)?)
    }

    fn update(mut item: Self::Item) -> Self::Item {
        let (numbers, squares) = (item.0.as_slice(), item.1.as_mut_slice());
        for at in 0..numbers.len().min(squares.len()) {
            squares[at] = numbers[at].wrapping_mul(numbers[at]);
        }
        item
    }

    fn item(alloc: Global, number: usize, size: usize, rounds: u64) -> Result<Self::Item, Fault> {
        let numbers = List::input(alloc, number, size)?;
        let squares = match rounds {
            0 => vec![in alloc; 0u64; size]?,
            _ => Square::answer(alloc, &numbers)?,
        };
        Ok((numbers, squares))
    }

    fn output(alloc: Global, number: usize, size: usize, _: u64) -> Result<Self::Out, Fault> {
        Ok(Square::answer(alloc, &List::input(alloc, number, size)?))
    }
}
