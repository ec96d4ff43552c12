//! A child slot: a value in place that threads look at under guards, and that is handed out once no guard is out.
//!
//! The slot's word is `FREE` where it is empty and no thread uses it. It is `PRESENT` where a value stands, `MARKED` where
//! that value is being cleared, so that no new guard comes, each with `ONE_READER` more for each guard that is out, and
//! `TAKEN` while one thread writes the value or takes it. The slot has cache lines of its own.
ghost use Rattle.std.specs.Prelude.{◌≡◌, ◌%◌, ◌<◌, ◌+◌, Option, Some, IsSomeAnd, IsSome, IfSome, IfOk, IfErr, ◌↔◌, IsTrue};
ghost use Rattle.counted_slot.specs.Counting.{readers};
ghost use Rattle.spindle_parts.specs.ChildSlot.{WrittenAlone, IsClearing};

use crate::pauses::Pauses;
pub use counted_slot::Fits;
use counted_slot::{Claim, Counted, FREE, MARKED, MOST_READERS, ONE_READER, PRESENT, TAKEN};
use crossbeam_utils::CachePadded;
use std::marker::Model;
use std::sync::Wait;

/// A slot for a value, named after spindle's slot for an `Arc`. Each value that ever stands there meets `T::fits` at the
/// slot's tag, which is fixed when the slot is made. In a clause the slot is its tag.
#[derive(Drop)]
pub struct AtomicArc<T: Fits> {
    slot: CachePadded<Counted<Option<T>>>,
}

impl<T: Fits> Model for AtomicArc<T> {
    ghost use Rattle.crossbeam_utils.specs.Padded.{padded_value};

    ghost Value = { T.Tag };

    ghost coded = { T.Tag.code };

    ghost view = { λ a. padded_value a.slot };
}

/// The right to look at a slot's value, which stays until the guard has left. A guard that is dropped leaves.
pub struct Guard<'a, T: Fits> {
    claim: Claim<'a, Option<T>>,
}

impl<'a, T: Fits> Model for Guard<'a, T> {
    ghost use Rattle.std.specs.Prelude.{◌≡◌, IsSome};
    ghost use Rattle.spindle_parts.specs.ChildSlot.{Sight, sight_code, shown_value};

    ghost Value = { Sight T.Tag T };

    ghost coded = { sight_code T.Tag.code T.code };

    ghost view = { λ g. record { tag = g.claim.tag; value = shown_value g.claim.value } };

    ghost invariant = { λ g. (g.claim.right ≡ 1) × IsSome (shown_value g.claim.value) };
}

impl<T: Fits> AtomicArc<T> {
    /// An empty slot for values that fit the tag.
    pub fn null(tag: &T::Tag) -> AtomicArc<T>
        ensures { result ≡ tag.now }
    {
        AtomicArc {
            slot: CachePadded::new(Counted::new(None, tag)),
        }
    }

    /// Whether no value stands that a new guard could come to. True of an empty slot that no other thread is using.
    pub fn is_null(&self) -> bool {
        !is_present(self.slot.load())
    }

    /// Whether the slot is empty and no thread uses it.
    pub fn is_free(&self) -> bool {
        is_free(self.slot.load())
    }

    /// A guard of the value. There is none where no value stands, where it is being cleared, where another step came
    /// between, and where 2^30 - 1 guards are out.
    pub fn load(&self) -> Option<Guard<'_, T>>
        ensures { IfSome result (λ guard. guard.tag ≡ self.now) }
    {
        let word = self.slot.load();
        if !admits(word) {
            return None;
        }
        let (found, claim) = self.slot.turn(word, word + ONE_READER);
        if found != word {
            claim.done();
            return None;
        }
        if claim.get().is_none() {
            claim.leave();
            return None;
        }
        Some(Guard { claim })
    }

    /// Puts the value in, if the slot is free and no other step comes between. Else the value comes back.
    pub fn compare_exchange_null(&self, value: T) -> Result<(), T>
    where
        T: Drop,
        requires { T.fits self.now value }
        ensures { IfErr result (λ back. back ≡ value) }
    {
        let (found, claim) = self.slot.turn(FREE, TAKEN);
        if found != FREE {
            claim.done();
            return Err(value);
        }
        // A free slot is empty, so there is nothing that comes out.
        let _nothing = claim.put(Some(value), PRESENT);
        Ok(())
    }

    /// Takes the value out once no guard is out, and keeps new guards away meanwhile. An empty slot has none.
    pub fn clear<R: Wait>(&self, rt: &R) -> Option<T>
        ensures { IfSome result (T.fits self.now) }
    {
        let mut pauses = Pauses::new();
        for _ in rt.forever() {
            let word = self.slot.load();
            match clearing_of(word) {
                Clearing::Empty => return None,
                Clearing::Take => {
                    if let Ok(value) = self.take(word) {
                        return value;
                    }
                }
                Clearing::Mark => self.mark(word),
                Clearing::Wait => {}
            }
            pauses.pause();
        }
        unreachable!()
    }

    /// Takes the value out, if the word is still this one, with no guard out.
    fn take(&self, word: u64) -> Result<Option<T>, ()>
        requires { (word % 4 < 3) × (readers word ≡ 0) }
        ensures { IfOk result (λ taken. IfSome taken (T.fits self.now)) }
    {
        let (found, claim) = self.slot.turn(word, TAKEN);
        if found == word {
            return Ok(claim.put(None, FREE));
        }
        claim.done();
        Err(())
    }

    /// Marks the value as being cleared, if the word is still this one.
    fn mark(&self, word: u64)
        requires { word % 4 ≡ 1 }
    {
        let (_, claim) = self.slot.turn(word, word - PRESENT + MARKED);
        claim.done();
    }
}

impl<'a, T: Fits> Guard<'a, T> {
    /// The value, which stays in the slot while the guard is out.
    pub fn get(&self) -> &T
        ensures value { self.now.value ≡ Some result.now }
        ensures fits { T.fits self.now.tag result.now }
    {
        match self.claim.get() {
            Some(value) => value,
            None => unreachable!(),
        }
    }

    /// Gives the guard back.
    pub fn leave(self) {
        drop(self);
    }
}

impl<'a, T: Fits> Drop for Guard<'a, T> {
    fn drop(self) {
        let Self { claim } = self;
        claim.leave();
    }
}

/// A value is written or handed out only while no guard is out, by one thread at a time.
///
/// It is told of each change of a slot's word that these calls can make: of `turn` of `counted_slot`, by which a call gains
/// the right to look or to write, and without which it has none.
pub fn written_alone()
    ensures { WrittenAlone }
{}

// What a clear does next, by the word that it read.
enum Clearing {
    /// Nothing stands, so there is nothing to hand out.
    Empty,
    /// The value stands and no guard is out: it is taken.
    Take,
    /// Guards are out, and new ones may still come: they are kept away.
    Mark,
    /// Another thread has the value, or marked guards are out.
    Wait,
}

// The state of a word.
fn state_of(word: u64) -> u64
    ensures { result ≡ word % 4 }
{
    word % 4
}

// How many guards are out.
fn reader_count(word: u64) -> u64
    ensures { result ≡ readers word }
{
    word % 0x1_0000_0000 / ONE_READER
}

// Whether the slot is empty and nobody uses it.
fn is_free(word: u64) -> bool
    ensures { IsTrue result ↔ (word ≡ FREE) }
{
    word == FREE
}

// Whether a value stands that isn't being cleared.
fn is_present(word: u64) -> bool
    ensures { IsTrue result ↔ (word % 4 ≡ PRESENT) }
{
    state_of(word) == PRESENT
}

// Whether a guard may come: a value stands, and one guard more can be counted.
fn admits(word: u64) -> bool
    ensures { IsTrue result ↔ ((word % 4 ≡ PRESENT) × (readers word < MOST_READERS)) }
{
    is_present(word) && reader_count(word) < MOST_READERS
}

// What a clear does at a word.
fn clearing_of(word: u64) -> Clearing
    ensures { IsClearing word result }
{
    if is_free(word) {
        Clearing::Empty
    } else if state_of(word) == TAKEN {
        Clearing::Wait
    } else if reader_count(word) == 0 {
        Clearing::Take
    } else if is_present(word) {
        Clearing::Mark
    } else {
        Clearing::Wait
    }
}
