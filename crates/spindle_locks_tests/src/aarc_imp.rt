//! Child slots.
//!
//! Clauses say that what a slot shows or hands out meets its tag, and that nobody writes while a guard is out. These rows show what no
//! clause says: what an empty slot and a full one answer, that each value is handed out once and dropped once, and that a clear answers
//! once the slot is empty.
ghost use Rattle.std.specs.Prelude.{◌≡◌, ◌≤◌, IfSome};

mod turns;

use crate::checks::{holds, is};
use spindle_parts::aarc_imp::{AtomicArc, Fits};
use std::alloc::{AllocError, Global};
use std::process::Abort;
use std::sync::Wait;
use std::sync::atomic::{AtomicU64, Ordering};

/// How many words a child has, so that to move one takes a while.
const WEIGHT: usize = 64;

/// A child that counts how often each number was dropped.
struct Child<'a> {
    number: usize,
    drops: &'a [AtomicU64],
    weight: [u64; WEIGHT],
}

impl<'a> Drop for Child<'a> {
    fn drop(self) {
        let Self {
            number,
            drops,
            weight: _,
        } = self;
        if let Some(count) = drops.get(number) {
            count.fetch_add(1, Ordering::SeqCst);
        }
    }
}

impl<'a> Fits for Child<'a> {
    type Tag = usize;

    ghost fits = { λ most child. child.number ≤ most };
}

impl<'a> Child<'a> {
    fn new(number: usize, drops: &'a [AtomicU64]) -> Child<'a>
        ensures { result.number ≡ number }
    {
        Child {
            number,
            drops,
            weight: [7; WEIGHT],
        }
    }
}

/// So many counts, each zero.
fn zeros(alloc: Global, count: usize) -> Result<Vec<AtomicU64>, AllocError> {
    let mut counts = Vec::with_capacity(alloc, count)?;
    for _ in 0..count {
        counts.push(AtomicU64::new(0))?;
    }
    Ok(counts)
}

/// How often the number was dropped.
fn drops_of(drops: &[AtomicU64], number: usize) -> u64 {
    match drops.get(number) {
        Some(count) => count.load(Ordering::SeqCst),
        None => 0,
    }
}

/// What a slot shows fits its tag.
fn seen(slot: &AtomicArc<Child<'_>>) -> Option<usize>
    ensures { IfSome result (λ number. number ≤ slot.now) }
{
    let guard = slot.load()?;
    let number = guard.get().number;
    guard.leave();
    Some(number)
}

/// What a slot hands out fits its tag.
fn cleared<R: Wait>(rt: &R, slot: &AtomicArc<Child<'_>>) -> Option<usize>
    ensures { IfSome result (λ number. number ≤ slot.now) }
{
    let child = slot.clear(rt)?;
    Some(child.number)
}

/// Whether the slot takes a child of number 0.
fn takes<'a>(slot: &AtomicArc<Child<'a>>, drops: &'a [AtomicU64]) -> bool {
    slot.compare_exchange_null(Child::new(0, drops)).is_ok()
}

/// The slot is empty, and answers so.
fn is_empty<R: Wait + Abort>(rt: &R, slot: &AtomicArc<Child<'_>>) {
    is(rt, (slot.is_null(), slot.is_free()), (true, true));
    is(rt, (seen(slot), cleared(rt, slot)), (None, None));
}

/// The slot has child 0, and hands back another.
fn is_full<'a>(rt: &impl Abort, slot: &AtomicArc<Child<'a>>, drops: &'a [AtomicU64])
    requires { slot.now ≡ 1 }
{
    is(rt, (slot.is_null(), slot.is_free()), (false, false));
    is(rt, seen(slot), Some(0));
    let Err(back) = slot.compare_exchange_null(Child::new(1, drops)) else {
        rt.panic("a full slot has taken a child")
    };
    is(rt, (back.number, drops_of(drops, 0)), (1, 0));
}

#[test]
fn a_slot_shows_and_hands_out_what_was_put_in(rt: HostRuntime) {
    let drops = [AtomicU64::new(0), AtomicU64::new(0)];
    let slot = AtomicArc::null(&1);
    is_empty(&rt, &slot);
    holds(&rt, takes(&slot, &drops));
    is_full(&rt, &slot, &drops);
    is(&rt, cleared(&rt, &slot), Some(0));
    is(&rt, drops_of(&drops, 0), 1);
    is_empty(&rt, &slot);
    holds(&rt, takes(&slot, &drops));
    drop(slot);
    is(&rt, drops_of(&drops, 0), 2);
}
