//! Rounds of seven items in a test that may be refused memory.

use spindle::prelude::*;

/// The items of a round; where memory for them is refused once, it is asked for again.
pub fn seven_items(alloc: Global) -> Result<Vec<usize>, Fault> {
    match vec![in alloc; 0, 1, 2, 3, 4, 5, 6] {
        Ok(items) => Ok(items),
        Err(_) => Ok(vec![in alloc; 0, 1, 2, 3, 4, 5, 6]?),
    }
}

/// Whether these are the squares of the numbers from 0 to 6.
pub fn are_seven_squares(squares: &[u128]) -> bool {
    squares == [0, 1, 4, 9, 16, 25, 36].as_slice()
}
