//! Rows of a problem that is divided, by a leader too, and what a refused allocation leaves of it: the same call with memory answers in
//! full.
ghost use Rattle.std.specs.Prelude.{◌≡◌};

use crate::checks::{holds, is};
use crate::leaders::{Led, LedBy, Runs, in_place};
use spindle::kernels::{Again, Dividing};
use spindle::prelude::*;

// Walks from one number to another, by halves where it is longer than this.
#[derive(Drop)]
struct Walk {
    longest: u32,
}

impl Division for Walk {
    type Problem = (u32, u32);

    // Where it began, where it ended, and whether each second half began where the first one ended.
    type Answer = (u32, u32, bool);

    ghost solves = { λ walk ends answer. (answer.0 ≡ ends.0) × (answer.1 ≡ ends.1) };

    ghost splits = { λ walk ends first second.
        (first.0 ≡ ends.0) × (first.1 ≡ second.0) × (second.1 ≡ ends.1) };

    fn split(&self, ends: (u32, u32)) -> Split<(u32, u32)> {
        let (from, to) = ends;
        if to <= from || to - from <= self.longest || to - from < 2 {
            return Split::Whole(ends);
        }
        let middle = from + (to - from) / 2;
        Split::Parts((from, middle), (middle, to))
    }

    fn solve(&self, ends: (u32, u32)) -> (u32, u32, bool) {
        (ends.0, ends.1, true)
    }

    fn join(&self, first: (u32, u32, bool), second: (u32, u32, bool)) -> (u32, u32, bool) {
        (
            first.0,
            second.1,
            first.2 & second.2 & (first.1 == second.0),
        )
    }
}

#[test]
fn refused_division_is_answered_when_asked_again(rt: HostRuntime) -> Result<(), Fault> {
    let alloc = rt.alloc();
    let pool = Pool::new(4, Limits::new(), NoGate);
    let walk = Walk { longest: 10 };
    let walked = match divide(&rt, alloc, &pool, &walk, (0, 1000)) {
        Ok(walked) => walked,
        Err(fault) => {
            holds(&rt, matches!(fault, Fault::Memory));
            divide(&rt, alloc, &pool, &walk, (0, 1000))?
        }
    };
    is(&rt, walked, (0, 1000, true));
    is(
        &rt,
        divide(&rt, alloc, &pool, &walk, (0, 10))?,
        (0, 10, true),
    );
    Ok(())
}

// The checker takes no name of a kernel here.
impl<K: Division + Again> Led for InPlace<Dividing<K>>
where
    K::Problem: Copy,
{
    type Task = (K, K::Problem);

    type Answer = K::Answer;

    fn lead<H: Runs>(
        rt: &H,
        alloc: Global,
        leader: &mut LedBy<Self>,
        task: &(K, K::Problem),
    ) -> Result<K::Answer, Fault> {
        leader.divide(rt, alloc, &task.0, task.1)
    }
}

#[test]
fn a_leader_divides(rt: HostRuntime) -> Result<(), Fault> {
    let alloc = rt.alloc();
    let task = (Shared::new(alloc, Walk { longest: 10 })?, (0, 1000));
    let walked = in_place::<DivisionsOf<Walk>, _>(&rt, alloc, 5, &task)?;
    is(&rt, walked, (0, 1000, true));
    Ok(())
}
