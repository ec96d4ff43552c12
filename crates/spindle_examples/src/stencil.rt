//! A three-point stencil of many passes, in place. The values stand in strips, whose lists stay for all passes: a pass is one
//! round, whose jobs change them where they stand. A job reads its own strip alone, since between two passes the leader tells
//! each strip the value before it and the one behind it.
ghost use Rattle.std.specs.Prelude.{◌≡◌, ◌<◌, ◌+◌, ◌*◌, ◌/◌, get_or, IfOk};
ghost use Rattle.spindle.specs.Strips.{items_of};
ghost use Rattle.spindle_examples.specs.Stencil.{smooth_times, smooth_between, IsSmoothed};

use spindle::prelude::*;

/// One pass over a strip.
pub struct Smooth;

impl Update for Smooth {
    type Item = Strip<u32>;

    type Inner = End;

    ghost updated = { IsSmoothed };

    fn run<H: Threads + Wait + Sync>(
        _rt: &H,
        _alloc: Global,
        mut strip: Strip<u32>,
        _cx: &mut JobCx<End>,
    ) -> Strip<u32> {
        smooth_values(strip.items.as_mut_slice(), strip.before, strip.behind);
        strip
    }
}

// One pass over values that stand between two others.
fn smooth_values(values: &mut [u32], mut before: u32, behind: u32)
    ensures { values.new ≡ smooth_between before values.old behind }
{
    for at in 0..values.len() {
        let here = values[at];
        let next = value_at(values, at + 1, behind);
        values[at] = mean(before, here, next);
        before = here;
    }
}

// The value at a place, or what stands behind all where there is none.
fn value_at(values: &[u32], at: usize, behind: u32) -> u32
    ensures { result ≡ get_or values.now at behind }
{
    values.get(at).copied().unwrap_or(behind)
}

// The mean of a value, twice, and of its two neighbours.
fn mean(before: u32, here: u32, behind: u32) -> u32
    ensures { result ≡ (before + 2 * here + behind) / 4 }
{
    let sum = u64::from(before) + 2 * u64::from(here) + u64::from(behind);
    (sum / 4) as u32
}

// So many passes.
fn passes<G: Gate, H: Threads + Wait + Sync>(
    rt: &H,
    alloc: Global,
    leader: &mut PlaceLeader<Smooth, G>,
    mut strips: Vec<Strip<u32>>,
    count: usize,
) -> Result<Vec<Strip<u32>>, Fault>
    ensures { IfOk result (λ new.
        items_of new.items ≡ smooth_times count (items_of strips.items)) }
{
    for _pass in 0..count {
        leader.pass(rt, alloc, &mut strips, 0)?;
    }
    Ok(strips)
}

/// The values after so many passes, each a round in place over so many strips.
pub fn smoothed<G: Gate + Sync, H: Threads + Wait + Sync>(
    rt: &H,
    alloc: Global,
    pool: &Pool<G>,
    pieces: usize,
    values: Vec<u32>,
    count: usize,
) -> Result<Vec<u32>, Fault>
    requires { 0 < pieces }
    ensures { IfOk result (λ new. new.items ≡ smooth_times count values.items) }
{
    let strips = SharedList::from_vec(alloc, values)?.strips(alloc, pieces, 0, ())?;
    let strips = LockOf::<InPlace<Smooth>>::with_slots_in_place(
        rt,
        alloc,
        pool,
        pool.max_num_threads(),
        strips.len().max(1).min(4294967295),
        |leader| { passes(rt, alloc, leader, strips, count) },
    )??;
    Ok(joined_strips(alloc, strips)?)
}
