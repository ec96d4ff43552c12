//! What the slots of a round table hold, as a parameter: nothing, or the pieces of a round.
ghost use Rattle.std.specs.Prelude.{◌≡◌, IfOk, length};
ghost use Rattle.spindle_rounds.specs.RoundSlots.{Discipline, Lawful, bare, bare_lawful};

use std::alloc::{AllocError, Global};

/// What a table's slots hold, and what a seat notes of the slot of its claim.
///
/// The discipline says what holds of the slots beside the state of the round and what the seats know: which slot a
/// number gives when it begins, what its end gives back, and what may be published.
pub trait SlotContents {
    /// What stands in one slot.
    type Slot: Drop;

    /// What a seat notes of the slot of its claim.
    type Note;

    ghost discipline: { Discipline Self.Slot Self.Note };

    /// As many slots as a table may open with.
    fn vacant(alloc: Global, slots: usize) -> Result<Vec<Self::Slot>, AllocError>
        ensures starts { IfOk result (λ v. discipline.starts v.items) }
        ensures many { IfOk result (λ v. length v.items ≡ slots) };

    ghost lawful: { Lawful discipline };
}

/// A table without slots.
pub struct Bare;

impl SlotContents for Bare {
    type Slot = ();

    type Note = ();

    ghost discipline = { bare };

    fn vacant(alloc: Global, slots: usize) -> Result<Vec<()>, AllocError> {
        Vec::from_elem(alloc, (), slots)
    }

    ghost lawful = { bare_lawful };
}
