//! Rows of which items each job of a round has, with trays, with slots and in place.
//!
//! No clause of a round says how it is cut, nor that an item is run once, by a job that has begun and isn't done.

use crate::checks::holds;
use crate::marks::{Marks, Noted, Noting, Taking, noted_items};
use crate::rounds::{rounds_in, rounds_in_place};
use spindle::prelude::*;
use std::process::Abort;
use std::sync::Arc;

/// Notes that its item is run, which stays as it is.
pub struct NotingHere;

impl Update for NotingHere {
    type Item = Noted;

    type Inner = End;

    ghost updated = { λ _ _. Unit {0} };

    fn run<H: Threads + Wait + Sync>(
        _rt: &H,
        _alloc: Global,
        item: Noted,
        _cx: &mut JobCx<End>,
    ) -> Noted {
        item.note();
        item
    }
}

// Jobs, and the number of the job that has each of the items. A list of n items for j jobs is cut into the least of both numbers of
// pieces; the first n modulo that many are longer by one than the others.
const ROWS: &[(usize, &'static [usize])] = &[
    (4, &[0, 0, 0, 1, 1, 1, 2, 2, 3, 3]),
    (7, &[0, 0, 1, 1, 2, 2, 3, 4, 5, 6]),
    (3, &[0, 0, 0, 1, 1, 2, 2]),
    (2, &[0, 0, 0, 1, 1]),
    (8, &[0, 1, 2]),
    (1, &[0, 0, 0, 0, 0, 0, 0, 0, 0]),
    (5, &[0, 0, 1, 1, 2, 2, 3, 3, 4, 4]),
    (6, &[0]),
];

// Plays 25 rounds over as many items, of so many jobs, in a lock in place, with slots, or with trays where it is to have none.
fn play<H: Threads + Wait + Abort + Sync>(
    rt: &H,
    alloc: Global,
    threads: usize,
    lock: (bool, usize, usize),
    wanted: &[usize],
) -> Result<(), Fault> {
    let (is_in_place, slots, jobs) = (lock.0, lock.1.min(10), lock.2.max(1));
    let marks = Arc::new(alloc, Marks::new(alloc, wanted.len())?)?;
    let pool = Pool::new(threads.max(1), Limits::new(), Taking { marks: &*marks });
    let mut items = noted_items(alloc, &marks, wanted.len())?;
    if is_in_place {
        let slots = slots.max(1);
        rounds_in_place::<InPlace<NotingHere>, _, H>(
            rt, alloc, &pool, slots, jobs, 25, &mut items,
        )?;
    } else {
        rounds_in::<Noting, _, H>(rt, alloc, &pool, 4, slots, jobs, 25, &items)?;
    }
    holds(rt, marks.are(wanted, 25));
    Ok(())
}

// With slots and in place rounds have as many jobs as slots, though eleven are asked for.
#[test]
fn each_job_has_the_items_of_its_piece(rt: HostRuntime) -> Result<(), Fault> {
    for row in ROWS {
        let (jobs, wanted) = *row;
        for threads in [1, 4] {
            for lock in [(false, 0, jobs), (false, jobs, 11), (true, jobs, 11)] {
                play(&rt, rt.alloc(), threads, lock, wanted)?;
            }
        }
    }
    Ok(())
}
