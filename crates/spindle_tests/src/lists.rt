//! Clones of one shared list, for rounds that may be refused: whether one is kept shows once the list is to come out of its
//! `SharedList`.
ghost use Rattle.std.specs.Prelude.{◌≡◌};
ghost use Rattle.std.proofs.Common.{rules};

use spindle::prelude::*;

/// Answers how long a list is. No length is a failure.
pub struct Length;

impl Job for Length {
    type In = SharedList<usize>;

    type Out = usize;

    type Inner = End;

    ghost use Rattle.std.specs.Prelude.{length};

    ghost meets = { λ list n. n ≡ length list };

    ghost fails = { λ n. n ≡ 0 };

    fn run<H: Threads + Wait + Sync>(
        _rt: &H,
        _alloc: Global,
        input: &SharedList<usize>,
        _cx: &mut JobCx<End>,
    ) -> usize {
        input.len()
    }

    fn failed(length: &usize) -> bool {
        Self::is_failure(length)
    }

    ghost equal_is_same = { Prim.search rules };
}

impl TellsFailures for Length {
    fn is_failure(length: &usize) -> bool {
        *length == 0
    }
}

/// A list of three numbers.
pub fn three_numbers(alloc: Global) -> Result<SharedList<usize>, Fault> {
    let numbers = vec![in alloc; 5, 6, 7]?;
    Ok(SharedList::from_vec(alloc, numbers)?)
}

/// Seven clones of a list; where one is to fail, the third is an empty list in its place.
pub fn seven_clones(
    alloc: Global,
    list: &SharedList<usize>,
    fails: bool,
) -> Result<Vec<SharedList<usize>>, Fault> {
    let mut items = Vec::with_capacity(alloc, 7)?;
    for number in 0..7 {
        let is_empty = fails && number == 2;
        items.push(if is_empty {
            SharedList::from_vec(alloc, Vec::new(alloc))?
        } else {
            list.clone()?
        })?;
    }
    Ok(items)
}

/// Whether the three numbers come out of their list, of which no clone is left.
pub fn are_three_numbers(list: SharedList<usize>) -> bool {
    match list.try_into_vec() {
        Ok(numbers) => numbers.as_slice() == [5, 6, 7].as_slice(),
        Err(_) => false,
    }
}
