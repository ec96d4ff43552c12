//! Strips of a list that is worked in place: each owns a run of the items, and keeps the item before it and the one behind it, which
//! whoever holds all strips tells it. So one strip of a stencil is worked without its neighbours. What it makes known of itself is its
//! note.
ghost use Rattle.std.specs.Prelude.{◌≡◌, ◌<◌, All, IfOk, OnErr, IsErrOf, drop, get_or, length, map};
ghost use Rattle.spindle_parts.specs.Pieces.{cut_lengths};
ghost use Rattle.spindle_parts.specs.Strips.{items_of, first_of, last_of, told};

use crate::fault::Fault;
use crate::lists::shared::SharedList;
use std::alloc::{AllocError, Global};

/// A run of a list's items, with the item that stands before it and the one behind it, and a note: what a job has for its leader, as
/// whether an item changed.
#[derive(Drop)]
pub struct Strip<T, N = ()> {
    /// The items of the run.
    pub items: Vec<T>,
    /// The item before them, as the strip was told last.
    pub before: T,
    /// The item behind them, as the strip was told last.
    pub behind: T,
    /// The note.
    pub note: N,
}

impl<T: Copy + Drop> SharedList<T> {
    /// Copies the list into so many strips, or into as many as it has items where these are fewer, as long as `share_out_evenly` makes
    /// its runs. Each is told that `edge` stands before it and behind it, and has this note.
    pub fn strips<N: Copy + Drop>(
        &self,
        alloc: Global,
        pieces: usize,
        edge: T,
        note: N,
    ) -> Result<Vec<Strip<T, N>>, Fault>
        requires { 0 < length self.now → 0 < pieces }
        ensures joined { IfOk result (λ strips. items_of strips.items ≡ self.now) }
        ensures lengths { IfOk result (λ strips.
            map (λ strip. length strip.items.items) strips.items ≡ cut_lengths (length self.now) pieces) }
        ensures edges { IfOk result (λ strips.
            All (λ strip. (strip.before ≡ edge) × (strip.behind ≡ edge)) strips.items) }
        ensures notes { IfOk result (λ strips. All (λ strip. strip.note ≡ note) strips.items) }
        ensures memory { OnErr result (IsErrOf result Fault.Memory) }
    {
        let runs = self.share_out_evenly(alloc, pieces)?;
        let mut strips = Vec::with_capacity(alloc, runs.len())?;
        for run in runs {
            strips.push(Strip {
                items: copied(alloc, run.as_slice())?,
                before: edge,
                behind: edge,
                note,
            })?;
        }
        Ok(strips)
    }
}

// A copy of the items.
fn copied<T: Copy>(alloc: Global, items: &[T]) -> Result<Vec<T>, AllocError>
    ensures { IfOk result (λ copy. copy.items ≡ items.now) }
{
    let mut copy = Vec::with_capacity(alloc, items.len())?;
    for item in items {
        copy.push(*item)?;
    }
    Ok(copy)
}

/// Tells each strip the item that stands before it and the one behind it now. Before the first item and behind the last stands `edge`.
pub fn tell_neighbours<T: Copy + Drop, N: Drop>(strips: &mut [Strip<T, N>], edge: T)
    ensures { strips.new ≡ told edge strips.old edge }
{
    let mut before = edge;
    for at in 0..strips.len() {
        let behind = first_item(strips, at + 1, edge);
        strips[at].tell(before, behind);
        before = last_item(strips[at].items.as_slice(), before);
    }
}

impl<T: Drop, N: Drop> Strip<T, N> {
    // Tells the strip what stands before it and behind it.
    fn tell(&mut self, before: T, behind: T)
        ensures { self.new
            ≡ record { items = self.old.items; before = before; behind = behind; note = self.old.note } }
    {
        self.before = before;
        self.behind = behind;
    }
}

// The first item of the strips from one on, or what stands behind all where there is none.
fn first_item<T: Copy, N>(strips: &[Strip<T, N>], from: usize, behind: T) -> T
    ensures { result ≡ first_of (items_of (drop from strips.now)) behind }
{
    for at in from..strips.len() {
        if let Some(first) = strips[at].items.first() {
            return *first;
        }
    }
    behind
}

// The last item, or what stands before where there is none.
fn last_item<T: Copy + Drop>(items: &[T], before: T) -> T
    ensures { result ≡ last_of before items.now }
{
    item_at(items, items.len().saturating_sub(1), before)
}

// The item at a place, or the other one where there is none.
fn item_at<T: Copy + Drop>(items: &[T], at: usize, other: T) -> T
    ensures { result ≡ get_or items.now at other }
{
    items.get(at).copied().unwrap_or(other)
}

/// The items of all strips, one behind the other.
pub fn joined_strips<T: Drop, N: Drop>(
    alloc: Global,
    strips: Vec<Strip<T, N>>,
) -> Result<Vec<T>, AllocError>
    ensures { IfOk result (λ items. items.items ≡ items_of strips.items) }
{
    let mut items = Vec::new(alloc);
    for mut strip in strips {
        items.append(&mut strip.items)?;
    }
    Ok(items)
}
