//! Rows of passes over lists: by a kernel, in a lock for one list and by a leader, and by a kind of job whose strips have notes of
//! its own. No clause says that a refused call has run no job, how many jobs one has, or that memory which is there is used.
ghost use Rattle.std.specs.Prelude.{◌≡◌, ◌==◌, min};

use crate::checks::{are, is};
use crate::leaders::{Led, LedBy, Runs, in_place};
use spindle::prelude::*;
use spindle_locks_tests::jobs::{Calls, Counting};

// Each value becomes the least of itself and its neighbours, until none changes.
#[derive(Drop)]
struct Least;

impl Stencil for Least {
    type Value = u32;

    ghost becomes = { λ kernel before here behind. min before (min here behind) };

    ghost settles = { λ kernel old new. old == new };

    fn value(&self, before: u32, here: u32, behind: u32) -> u32 {
        before.min(here.min(behind))
    }

    fn has_settled(&self, old: u32, new: u32) -> bool {
        old == new
    }
}

// Eight numbers; where memory for them is refused once, it is asked for again.
fn eight_numbers(alloc: Global) -> Result<Vec<u32>, Fault> {
    let numbers = [3, 1, 4, 1, 5, 9, 2, 6];
    match Vec::from_array(alloc, numbers) {
        Ok(list) => Ok(list),
        Err(_) => Ok(Vec::from_array(alloc, numbers)?),
    }
}

#[test]
fn refused_passes_have_run_no_job(rt: HostRuntime) -> Result<(), Fault> {
    let alloc = rt.alloc();
    let calls = Calls::new();
    let pool = Pool::new(4, Limits::new(), Counting { calls: &calls });
    let passes = match passes_until(&rt, alloc, &pool, &Least, eight_numbers(alloc)?, 9, 9) {
        Ok(passes) => passes,
        Err(fault) => {
            is(&rt, fault, Fault::Memory);
            is(&rt, calls.in_all(), (0, 0));
            passes_until(&rt, alloc, &pool, &Least, eight_numbers(alloc)?, 9, 9)?
        }
    };
    are(&rt, &passes.values, &[1; 8]);
    is(
        &rt,
        (passes.count, passes.settled, calls.in_all()),
        (5, true, (40, 40)),
    );
    // An empty list that took memory would be refused it once.
    let none = passes_until(&rt, alloc, &pool, &Least, Vec::new(alloc), 0, 9)?;
    is(
        &rt,
        (none.values.capacity(), none.count, none.settled),
        (0, 1, true),
    );
    Ok(())
}

impl Led for PassesOf<Least> {
    type Task = ();

    type Answer = ();

    fn lead<H: Runs>(rt: &H, alloc: Global, leader: &mut LedBy<Self>, _: &()) -> Result<(), Fault> {
        let kernel = Shared::new(alloc, Least)?;
        let once = leader.passes_until(rt, alloc, &kernel, eight_numbers(alloc)?, 9, 1)?;
        let passes = leader.passes_until(rt, alloc, &kernel, once.values, 0, 9)?;
        are(rt, &passes.values, &[0; 8]);
        is(rt, (passes.count, passes.settled), (5, true));
        Ok(())
    }
}

#[test]
fn a_leader_passes_over_a_list_again(rt: HostRuntime) -> Result<(), Fault> {
    in_place::<PassesOf<Least>, _>(&rt, rt.alloc(), 5, &())
}

// Lowers the first value of a strip to the one before it, and notes what the strip's first value was.
struct LowerFirst;

impl Update for LowerFirst {
    type Item = Strip<u32, u32>;

    type Inner = End;

    ghost updated = { λ old new. new.before ≡ old.before };

    fn run<H: Threads + Wait + Sync>(
        _rt: &H,
        _alloc: Global,
        mut strip: Strip<u32, u32>,
        _cx: &mut JobCx<End>,
    ) -> Strip<u32, u32> {
        let before = strip.before;
        for first in strip.items.iter_mut().take(1) {
            strip.note = *first;
            *first = before.min(*first);
        }
        strip
    }
}

impl Led for InPlace<LowerFirst> {
    type Task = ();

    type Answer = ();

    fn lead<H: Runs>(rt: &H, alloc: Global, leader: &mut LedBy<Self>, _: &()) -> Result<(), Fault> {
        let list = SharedList::from_vec(alloc, eight_numbers(alloc)?)?;
        let mut strips = list.strips(alloc, 3, 7, 0)?;
        leader.pass(rt, alloc, &mut strips, 2)?;
        let mut found = Vec::new(alloc);
        for strip in &strips {
            found.push((strip.before, strip.note, strip.behind))?;
        }
        are(rt, &found, &[(2, 3, 1), (4, 1, 2), (9, 2, 2)]);
        are(
            rt,
            &joined_strips(alloc, strips)?,
            &[2, 1, 4, 1, 5, 9, 2, 6],
        );
        Ok(())
    }
}

#[test]
fn a_pass_tells_each_strip_its_neighbours_first(rt: HostRuntime) -> Result<(), Fault> {
    in_place::<InPlace<LowerFirst>, _>(&rt, rt.alloc(), 3, &())
}
