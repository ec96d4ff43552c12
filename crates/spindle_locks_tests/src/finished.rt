//! A piece as a thread leaves it that has run it.
ghost use Rattle.std.specs.Prelude.{◌≡◌, ◌∷◌, [], IfOk};

use crate::jobs::Square;
use spindle_locks::pieces::finished::Finished;
use spindle_locks::prelude::*;
use spindle_parts::lists::SharedList;
use std::test::Fail;

/// A list of one item.
pub fn only<T: Drop>(alloc: Global, item: T) -> Result<Vec<T>, AllocError>
    ensures { IfOk result (λ list. list.items ≡ item ∷ []) }
{
    let mut list = Vec::with_capacity(alloc, 1)?;
    list.push_reserved(item);
    Ok(list)
}

/// A piece of one number, squared.
pub fn squared(alloc: Global, number: usize, input: usize) -> Result<Finished<Square>, Fail> {
    let square = input as u128 * input as u128;
    let inputs = SharedList::from_vec(alloc, only(alloc, input)?)?.run(0, 1)?;
    let outputs = only(alloc, square)?;
    Ok(Finished::new(number, inputs, outputs))
}
