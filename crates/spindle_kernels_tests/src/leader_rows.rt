//! Rows of leaders that go over pairs round after round.
//!
//! No clause says that memory which is there is used, nor how many pieces there are.
ghost use Rattle.std.specs.Prelude.{◌≡◌};

use crate::checks::{are, holds, is};
use crate::kernel_rows::Sum;
use crate::leaders::{Led, LedBy, Runs, in_place};
use crate::list_rows::LastSecond;
use spindle::kernels::{Again, Mapping, Source};
use spindle::prelude::*;

// A list, and what the lists of pieces become that have served before. The kernel has no name here, for the checker's sake.
impl<K: Kernel + Again, S: Source<Item = K::In>> Led for InPlace<Mapping<K, S>> {
    type Task = (K, S);

    type Answer = (Vec<K::Out>, Vec<Vec<K::Out>>);

    fn lead<H: Runs>(
        rt: &H,
        alloc: Global,
        leader: &mut LedBy<Self>,
        task: &(K, S),
    ) -> Result<(Vec<K::Out>, Vec<Vec<K::Out>>), Fault> {
        let mut pieces = Vec::new(alloc);
        leader.map_into(rt, alloc, &task.0, &task.1, &mut pieces)?;
        leader.map_into(rt, alloc, &task.0, &task.1, &mut pieces)?;
        Ok((leader.map(rt, alloc, &task.0, &task.1)?, pieces))
    }
}

// Two totals.
impl Led for PairTotalsOf<u32, u32, LastSecond> {
    type Task = PairRun<u32, u32>;

    type Answer = (u32, u32);

    fn lead<H: Runs>(
        rt: &H,
        alloc: Global,
        leader: &mut LedBy<Self>,
        pairs: &PairRun<u32, u32>,
    ) -> Result<(u32, u32), Fault> {
        let one = leader.reduce(rt, alloc, pairs)?;
        Ok((one, leader.reduce(rt, alloc, pairs)?))
    }
}

// Five pairs.
fn five_pairs(alloc: Global) -> Result<PairRun<u32, u32>, Fault> {
    let first = SharedList::from_vec(alloc, vec![in alloc; 3, 1, 4, 1, 5, 9]?)?;
    let second = SharedList::from_vec(alloc, vec![in alloc; 100, 200, 300, 400, 500]?)?;
    Ok(PairRun::new(&first, &second)?)
}

#[test]
fn a_leader_makes_totals_of_pairs_again(rt: HostRuntime) -> Result<(), Fault> {
    let pairs = five_pairs(rt.alloc())?;
    let totals = in_place::<PairTotalsOf<u32, u32, LastSecond>, _>(&rt, rt.alloc(), 5, &pairs)?;
    is(&rt, totals, (500, 500));
    Ok(())
}

#[test]
fn a_leader_maps_pairs_again(rt: HostRuntime) -> Result<(), Fault> {
    let task = (Shared::new(rt.alloc(), Sum)?, five_pairs(rt.alloc())?);
    let (sums, pieces) = in_place::<PairMapsOf<u32, u32, Sum>, _>(&rt, rt.alloc(), 5, &task)?;
    let wanted = [103, 201, 304, 401, 505];
    are(&rt, &sums, &wanted);
    is(&rt, pieces.len(), 5);
    holds(&rt, pieces.iter().flatten().eq(&wanted));
    Ok(())
}
