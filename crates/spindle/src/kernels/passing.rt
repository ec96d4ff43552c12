//! Strips over which a kernel passes. A pass is one round. Before it the leader tells each strip what stands around it; a job notes
//! whether the values of its strip have settled.
ghost use Rattle.std.specs.Prelude.{◌≡◌, ◌<◌, ◌++◌, IfOk, OnOk, OnErr, IsErrOf, All, map, get_or};
ghost use Rattle.std.specs.Cmp.Lexicographic.{pointwise};
ghost use denote.Param.Send.{IsSync};
ghost use Rattle.spindle_parts.specs.Strips.{items_of};
ghost use Rattle.spindle.specs.Passes.{passed, all_settled, HavePassed, IsNotedBy, IsPassedOver};
ghost use Rattle.spindle.specs.SlotLeaders.{threads_of, lock_slots};

use crate::kernels::held::Again;
use crate::prelude::*;
use spindle_parts::cut::{Piece, cut};
use std::marker::PhantomData;

/// What stands at a strip: the kernel of its passes, and whether all its values have settled in the last one.
#[derive(Drop)]
pub struct Note<K> {
    pub(crate) kernel: K,
    pub(crate) settled: bool,
}

/// The kind of job that passes over strips.
pub struct Passing<K> {
    kind: PhantomData<K>,
}

impl<K: Stencil + Drop> Update for Passing<K> {
    type Item = Strip<K::Value, Note<K>>;

    type Inner = End;

    ghost updated = { IsPassedOver K.becomes K.settles };

    fn run<H: Threads + Wait + Sync>(
        _rt: &H,
        _alloc: Global,
        strip: Strip<K::Value, Note<K>>,
        _cx: &mut JobCx<End>,
    ) -> Strip<K::Value, Note<K>> {
        let Strip {
            mut items,
            before,
            behind,
            note,
        } = strip;
        let Note { kernel, .. } = note;
        let settled = pass_over::<K>(&kernel, items.as_mut_slice(), before, behind);
        let note = Note { kernel, settled };
        Strip {
            items,
            before,
            behind,
            note,
        }
    }
}

// One pass over values that stand between two others: whether all have settled.
fn pass_over<K: Stencil>(
    kernel: &K,
    values: &mut [K::Value],
    mut before: K::Value,
    behind: K::Value,
) -> bool
    ensures values { values.new ≡ passed (K.becomes kernel.now) before values.old behind }
    ensures settled { result ≡ pointwise (K.settles kernel.now) values.old values.new }
{
    let mut settled = true;
    for at in 0..values.len() {
        let here = values[at];
        let next = value_at(values, at + 1, behind);
        let new = kernel.value(before, here, next);
        settled = settled & kernel.has_settled(here, new);
        values[at] = new;
        before = here;
    }
    settled
}

// The value at a place, or what stands behind all where there is none.
fn value_at<V: Copy + Drop>(values: &[V], at: usize, behind: V) -> V
    ensures { result ≡ get_or values.now at behind }
{
    values.get(at).copied().unwrap_or(behind)
}

// Whether the values of all strips have settled.
fn have_settled<V, K>(strips: &[Strip<V, Note<K>>]) -> bool
    ensures { result ≡ all_settled strips.now }
{
    let mut settled = true;
    for strip in strips {
        settled = settled & strip.note.settled;
    }
    settled
}

// The pieces as strips, each with the kernel.
pub(crate) fn strips_of<K: Again, V: Copy + Drop>(
    alloc: Global,
    kernel: &K,
    pieces: Vec<Piece<V>>,
    edge: V,
) -> Result<Vec<Strip<V, Note<K>>>, AllocError>
    ensures items { IfOk result (λ strips.
        map (λ strip. strip.items.items) strips.items
        ≡ map (λ piece. piece.items.items) pieces.items) }
    ensures kernel { IfOk result (λ strips. All (IsNotedBy kernel.now) strips.items) }
{
    let mut strips = Vec::with_capacity(alloc, pieces.len())?;
    for piece in pieces {
        let Piece { items, .. } = piece;
        let kernel = kernel.again()?;
        let note = Note {
            kernel,
            settled: false,
        };
        strips.push_reserved(Strip {
            items,
            before: edge,
            behind: edge,
            note,
        });
    }
    Ok(strips)
}

// Moves the items of all strips to the end of the list, one behind the other.
pub(crate) fn append_strips<V: Drop, N: Drop>(
    strips: Vec<Strip<V, N>>,
    list: &mut Vec<V>,
) -> Result<(), AllocError>
    ensures { OnOk result (list.new.items ≡ list.old.items ++ items_of strips.items) }
{
    for strip in strips {
        let Strip { mut items, .. } = strip;
        list.append(&mut items)?;
    }
    Ok(())
}

// Passes over the strips until all values have settled, so many at most: how many there were, and whether the values have settled.
pub(crate) fn play_passes<K: Stencil + Drop, G: Gate, H: Threads + Wait + Sync>(
    rt: &H,
    alloc: Global,
    leader: &mut PlaceLeader<'_, Passing<K>, G>,
    strips: &mut Vec<Strip<K::Value, Note<K>>>,
    edge: K::Value,
    most: usize,
) -> Result<(usize, bool), Fault>
    requires { IsSync H.row }
    ensures passed { IfOk result (λ ended. (kernel : K) → All (IsNotedBy kernel) strips.old.items
        → HavePassed (K.becomes kernel) (K.settles kernel) edge most
        (items_of strips.old.items) ended.0 ended.1 (items_of strips.new.items)) }
    ensures memory { OnErr result (IsErrOf result Fault.Memory) }
    ensures lock { threads_of leader.new ≡ threads_of leader.old }
    ensures slots { lock_slots leader.new ≡ lock_slots leader.old }
{
    for count in 0..most {
        leader.pass(rt, alloc, strips, edge)?;
        if have_settled(strips.as_slice()) {
            return Ok((count + 1, true));
        }
    }
    Ok((most, false))
}
