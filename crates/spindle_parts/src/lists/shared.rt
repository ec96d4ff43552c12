//! Lists as a job's inputs: a list that clones share, and runs of one.
//!
//! A leader compares the inputs of a round afterwards, and a job's inputs have the law that equal inputs are the same
//! value. A plain `Vec` can't have that law, since contracts see its capacity, and its clone copies each item. A
//! `SharedList` is seen as the list of its items alone, and its clones share them. A round's own items are such a list.
ghost use Rattle.std.specs.Prelude.{◌≡◌, List, true, IfOk, IfErr, IsOk, length, map, IsTrue, ◌↔◌, [], ◌≤◌, OnErr, IsErrOf, slice_range};
ghost use Rattle.std.specs.Cmp.Lexicographic.{pointwise, lists_equiv, lists_per};
ghost use Rattle.spindle_parts.specs.Same.{equal_lists_are_same};
ghost use Rattle.spindle_parts.specs.Pieces.{joined, total};

use crate::fault::Fault;
use crate::lists::same::EqualIsSame;
use std::alloc::{AllocError, AllocFailed, Global};
use std::marker::Model;
use std::sync::Arc;

/// A list of items that its clones share.
#[derive(Drop)]
pub struct SharedList<T> {
    items: Arc<Vec<T>>,
}

impl<T> Model for SharedList<T> {
    ghost use Rattle.std.specs.Prelude.{List};
    ghost use Rattle.std.specs.Arc.{arc_value};

    ghost Value = { List T };

    ghost view = { λ list. (arc_value list.items).items };
}

impl<T> SharedList<T> {
    /// The list of a vector's items, which aren't moved. Refused memory hands the vector back.
    pub fn from_vec(alloc: Global, items: Vec<T>) -> Result<SharedList<T>, AllocFailed<Vec<T>>>
        ensures items { IfOk result (λ list. list ≡ items.items) }
        ensures value_returned { IfErr result (λ refused. refused.value ≡ items) }
    {
        let items = Arc::new(alloc, items)?;
        Ok(SharedList { items })
    }

    /// The vector of the items, without memory, where no clone and no run of the list is left; else the list.
    pub fn try_into_vec(self) -> Result<Vec<T>, SharedList<T>>
        ensures items { IfOk result (λ items. items.items ≡ self) }
        ensures value_returned { IfErr result (λ list. list ≡ self) }
    {
        match Arc::try_unwrap(self.items) {
            Ok(items) => Ok(items),
            Err(items) => Err(SharedList { items }),
        }
    }

    /// Each of the items with a clone of this list: so jobs are lent what all of them read, and nothing is copied.
    pub fn lent_to<X: Drop>(
        &self,
        alloc: Global,
        items: Vec<X>,
    ) -> Result<Vec<(X, SharedList<T>)>, AllocError>
    where
        T: Drop,
        ensures { IfOk result (λ lent. lent.items ≡ map (λ item. (item, self.now)) items.items) }
    {
        let mut lent = Vec::with_capacity(alloc, items.len())?;
        for item in items {
            lent.push((item, self.clone()?))?;
        }
        Ok(lent)
    }

    /// The items.
    pub fn as_slice(&self) -> &[T]
        ensures { result.now ≡ self.now }
    {
        (*self.items).as_slice()
    }

    /// How many items there are.
    pub fn len(&self) -> usize
        ensures { result ≡ length self.now }
    {
        self.as_slice().len()
    }

    /// Whether there are no items.
    pub fn is_empty(&self) -> bool
        ensures { IsTrue result ↔ (self.now ≡ []) }
    {
        self.as_slice().is_empty()
    }
}

impl<T: Drop> Clone for SharedList<T> {
    ghost is_clone = { λ list clone. clone ≡ list };

    fn clone(&self) -> Result<SharedList<T>, AllocError> {
        let items = self.items.clone()?;
        Ok(SharedList { items })
    }
}

impl<T: PartialEq> PartialEq for SharedList<T> {
    ghost eq = { pointwise T.eq };

    ghost laws = { lists_per T.laws };

    fn eq(&self, other: &SharedList<T>) -> bool {
        are_equal(self.as_slice(), other.as_slice())
    }
}

impl<T: Eq> Eq for SharedList<T> {
    ghost laws = { lists_equiv T.Eq.laws };
}

impl<T: EqualIsSame> EqualIsSame for SharedList<T> {
    ghost equal_is_same = { equal_lists_are_same T.eq T.equal_is_same };
}

/// Whether the slices are equal item by item. Reads all items, so that the loop becomes vector code.
#[inline(never)]
pub fn are_equal<T: PartialEq>(a: &[T], b: &[T]) -> bool
    ensures { result ≡ pointwise T.eq a.now b.now }
{
    if a.len() != b.len() {
        return false;
    }
    let mut equal = true;
    for i in 0..a.len() {
        equal = equal & (a[i] == b[i]);
    }
    equal
}

/// The items of a shared list from one place up to another, the end not included.
#[derive(Drop)]
pub struct ListRun<T> {
    list: SharedList<T>,
    from: usize,
    to: usize,
}

impl<T> Model for ListRun<T> {
    ghost use Rattle.std.specs.Prelude.{List, slice_range, ◌≤◌, length};

    ghost Value = { List T };

    ghost view = { λ run. slice_range run.list run.from run.to };

    ghost invariant = { λ run. (run.from ≤ run.to) × (run.to ≤ length run.list) };
}

impl<T> ListRun<T> {
    /// The items.
    pub fn as_slice(&self) -> &[T]
        ensures { result.now ≡ self.now }
    {
        &self.list.as_slice()[self.from..self.to]
    }

    /// How many items there are.
    pub fn len(&self) -> usize
        ensures { result ≡ length self.now }
    {
        self.as_slice().len()
    }

    /// Whether there are no items.
    pub fn is_empty(&self) -> bool
        ensures { IsTrue result ↔ (self.now ≡ []) }
    {
        self.as_slice().is_empty()
    }
}

impl<T: Drop> SharedList<T> {
    /// The items from one place up to another, the end not included.
    pub fn run(&self, from: usize, to: usize) -> Result<ListRun<T>, AllocError>
        requires in_order { from ≤ to }
        requires in_list { to ≤ length self.now }
        ensures { IfOk result (λ run. run ≡ slice_range self.now from to) }
    {
        let list = self.clone()?;
        Ok(ListRun { list, from, to })
    }

    /// Cuts the list into runs of these lengths, in order. No item is moved or cloned.
    pub fn share_out(&self, alloc: Global, lengths: &[usize]) -> Result<Vec<ListRun<T>>, Fault>
        requires whole { total lengths.now ≡ length self.now }
        ensures joined { IfOk result (λ runs. joined runs.items ≡ self.now) }
        ensures lengths { IfOk result (λ runs. map (λ run. length run) runs.items ≡ lengths.now) }
        ensures memory { OnErr result (IsErrOf result Fault.Memory) }
    {
        self.run(0, self.len())?.share_out(alloc, lengths)
    }
}

impl<T: Drop> ListRun<T> {
    /// The items from one place of the run up to another, the end not included.
    pub fn run(&self, from: usize, to: usize) -> Result<ListRun<T>, AllocError>
        requires in_order { from ≤ to }
        requires in_run { to ≤ length self.now }
        ensures { IfOk result (λ run. run ≡ slice_range self.now from to) }
    {
        let to = self.to - (self.len() - to);
        self.list.run(self.from + from, to)
    }

    /// Cuts the run into runs of these lengths, in order. No item is moved or cloned.
    pub fn share_out(&self, alloc: Global, lengths: &[usize]) -> Result<Vec<ListRun<T>>, Fault>
        requires whole { total lengths.now ≡ length self.now }
        ensures joined { IfOk result (λ runs. joined runs.items ≡ self.now) }
        ensures lengths { IfOk result (λ runs. map (λ run. length run) runs.items ≡ lengths.now) }
        ensures memory { OnErr result (IsErrOf result Fault.Memory) }
    {
        let len = self.len();
        let mut runs = Vec::with_capacity(alloc, lengths.len())?;
        let mut from = 0;
        for length in lengths {
            let to = from + (*length).min(len - from);
            runs.push_reserved(self.run(from, to)?);
            from = to;
        }
        Ok(runs)
    }
}

impl<T: Drop> Clone for ListRun<T> {
    ghost is_clone = { λ run clone. clone ≡ run };

    fn clone(&self) -> Result<ListRun<T>, AllocError> {
        self.list.run(self.from, self.to)
    }
}

impl<T: PartialEq> PartialEq for ListRun<T> {
    ghost eq = { pointwise T.eq };

    ghost laws = { lists_per T.laws };

    fn eq(&self, other: &ListRun<T>) -> bool {
        are_equal(self.as_slice(), other.as_slice())
    }
}

impl<T: Eq> Eq for ListRun<T> {
    ghost laws = { lists_equiv T.Eq.laws };
}

impl<T: EqualIsSame> EqualIsSame for ListRun<T> {
    ghost equal_is_same = { equal_lists_are_same T.eq T.equal_is_same };
}
