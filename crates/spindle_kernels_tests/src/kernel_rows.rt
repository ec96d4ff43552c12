//! Rows of calls over whole lists by a kernel, in a lock for one list and by a leader, and what a refused allocation leaves of them.
//!
//! No clause says that a refused call has run no job, how many jobs one has, that nothing takes no memory, or that memory which is there is
//! used.
ghost use Rattle.std.specs.Prelude.{◌≡◌, ◌+◌, min};

use crate::checks::{are, holds, is};
use crate::leaders::{Led, LedBy, Runs, in_place};
use spindle::prelude::*;
use spindle_locks_tests::jobs::{Calls, Counting};

// A number, but no more than one that is borrowed.
#[derive(Drop)]
struct AtMost<'a> {
    most: &'a u32,
}

impl<'a> Kernel for AtMost<'a> {
    type In = u32;

    type Out = u32;

    ghost computes = { λ kernel x y. y ≡ min x kernel.most.now };

    fn compute(&self, x: &u32) -> u32 {
        (*x).min(*self.most)
    }
}

/// Eleven numbers; where memory for them is refused once, it is asked for again.
pub fn eleven_numbers(alloc: Global) -> Result<Vec<u32>, Fault> {
    let numbers = [3, 1, 4, 1, 5, 9, 2, 6, 5, 3, u32::MAX];
    match Vec::from_array(alloc, numbers) {
        Ok(list) => Ok(list),
        Err(_) => Ok(Vec::from_array(alloc, numbers)?),
    }
}

// Each of them, but 7 at most.
const LEAST: [u32; 11] = [3, 1, 4, 1, 5, 7, 2, 6, 5, 3, 7];

#[test]
fn refused_map_has_run_no_job(rt: HostRuntime) -> Result<(), Fault> {
    let alloc = rt.alloc();
    let calls = Calls::new();
    let pool = Pool::new(4, Limits::new(), Counting { calls: &calls });
    let kernel = AtMost { most: &7 };
    let least = match map(&rt, alloc, &pool, &kernel, eleven_numbers(alloc)?) {
        Ok(least) => least,
        Err(fault) => {
            holds(&rt, matches!(fault, Fault::Memory));
            is(&rt, calls.in_all(), (0, 0));
            map(&rt, alloc, &pool, &kernel, eleven_numbers(alloc)?)?
        }
    };
    are(&rt, &least, &LEAST);
    is(&rt, calls.in_all(), (11, 11));
    let none = map(&rt, alloc, &pool, &kernel, Vec::new(alloc))?;
    is(&rt, (none.capacity(), calls.in_all()), (0, (11, 11)));
    Ok(())
}

#[test]
fn refused_map_into_pieces_has_run_no_job(rt: HostRuntime) -> Result<(), Fault> {
    let alloc = rt.alloc();
    let calls = Calls::new();
    let pool = Pool::new(1, Limits::new(), Counting { calls: &calls });
    let kernel = AtMost { most: &7 };
    let mut pieces = Vec::new(alloc);
    if let Err(fault) = map_into(
        &rt,
        alloc,
        &pool,
        &kernel,
        eleven_numbers(alloc)?,
        &mut pieces,
    ) {
        holds(&rt, matches!(fault, Fault::Memory));
        is(&rt, (pieces.len(), calls.in_all()), (0, (0, 0)));
        map_into(
            &rt,
            alloc,
            &pool,
            &kernel,
            eleven_numbers(alloc)?,
            &mut pieces,
        )?;
    }
    is(&rt, (pieces.len(), calls.in_all()), (4, (4, 4)));
    holds(&rt, pieces.iter().flatten().eq(&LEAST));
    Ok(())
}

// Lowers a number to a bound.
#[derive(Drop)]
struct Bound {
    most: u32,
}

impl Change for Bound {
    type Item = u32;

    ghost changes = { λ kernel old new. new ≡ min old kernel.most };

    fn change(&self, number: &mut u32) {
        *number = (*number).min(self.most);
    }
}

// The eleven numbers, none above 5.
const BOUNDED: [u32; 11] = [3, 1, 4, 1, 5, 5, 2, 5, 5, 3, 5];

#[test]
fn refused_update_has_run_no_job(rt: HostRuntime) -> Result<(), Fault> {
    let alloc = rt.alloc();
    let calls = Calls::new();
    let pool = Pool::new(4, Limits::new(), Counting { calls: &calls });
    let kernel = Bound { most: 5 };
    let list = match update(&rt, alloc, &pool, &kernel, eleven_numbers(alloc)?) {
        Ok(list) => list,
        Err(fault) => {
            holds(&rt, matches!(fault, Fault::Memory));
            is(&rt, calls.in_all(), (0, 0));
            update(&rt, alloc, &pool, &kernel, eleven_numbers(alloc)?)?
        }
    };
    are(&rt, &list, &BOUNDED);
    is(&rt, calls.in_all(), (11, 11));
    Ok(())
}

/// Adds the numbers of a pair.
#[derive(Drop)]
pub struct Sum;

impl Kernel for Sum {
    type In = (u32, u32);

    type Out = u64;

    ghost computes = { λ kernel pair sum. sum ≡ pair.0 + pair.1 };

    fn compute(&self, pair: &(u32, u32)) -> u64 {
        u64::from(pair.0) + u64::from(pair.1)
    }
}

#[test]
fn pairs_go_as_far_as_both_lists(rt: HostRuntime) -> Result<(), Fault> {
    let alloc = rt.alloc();
    let pool = Pool::new(4, Limits::new(), NoGate);
    let all = [103, 101, 104, 101, 105, 109, 102, 106, 105, 103, 4294967395];
    for count in [0, 3, 11, 12] {
        let second = vec![in alloc; 100; count]?;
        let sums = map_pairs(&rt, alloc, &pool, &Sum, eleven_numbers(alloc)?, second)?;
        are(&rt, &sums, &all[..count.min(11)]);
    }
    Ok(())
}

impl Led for UpdatesOf<Bound> {
    type Task = ();

    type Answer = ();

    fn lead<H: Runs>(rt: &H, alloc: Global, leader: &mut LedBy<Self>, _: &()) -> Result<(), Fault> {
        let kernel = Shared::new(alloc, Bound { most: 5 })?;
        let once = leader.update(rt, alloc, &kernel, eleven_numbers(alloc)?)?;
        are(rt, &leader.update(rt, alloc, &kernel, once)?, &BOUNDED);
        Ok(())
    }
}

#[test]
fn a_leader_updates_a_list_again(rt: HostRuntime) -> Result<(), Fault> {
    in_place::<UpdatesOf<Bound>, _>(&rt, rt.alloc(), 5, &())
}
