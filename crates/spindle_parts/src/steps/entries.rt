//! The parties' entries, and the list of those that saw the round's stop.
//!
//! The list and the entries' marks are a sparse set: a party stands in it where the list has the party at its mark. So it is
//! emptied at a round's end without a look at any entry.
ghost use Rattle.std.specs.Prelude.{◌≡◌, ℕ, true, ◌==◌, IfSome, OnOk, OnErr, Some, None, vec_capacity};
ghost use Rattle.std.specs.List.{list_any};
ghost use Rattle.std.specs.Ordering.{nat_cmp};
ghost use Rattle.std.specs.BTreeMap.{get};
ghost use Rattle.spindle_parts.specs.State.{put};
ghost use Rattle.spindle_parts.specs.Entries.{Writes, Seats, KeepsSeats, KeepsKnown};
ghost use Rattle.spindle_parts.specs.Entries.{IsKnown, IsMarked};

use crate::steps::registers::Entry;
use std::alloc::AllocError;
use std::collections::BTreeMap;

/// The entries of all parties that ever came, by party.
pub type Entries = BTreeMap<u32, Entry>;

/// Gives a party that has an entry that sense.
pub fn set_sense(entries: &mut Entries, party: u32, sense: Option<bool>)
    ensures written { IfSome (get nat_cmp entries.old party)
        (λ e. Writes entries.old entries.new party (record e { sense = sense })) }
    ensures known { KeepsKnown entries.old entries.new }
{
    if let Some(entry) = entries.get_mut(&party) {
        entry.sense = sense;
    }
}

/// Gives a party that has an entry that job, or none.
pub fn set_running(entries: &mut Entries, party: u32, running: Option<u32>)
    ensures written { IfSome (get nat_cmp entries.old party)
        (λ e. Writes entries.old entries.new party (record e { running = running })) }
    ensures known { KeepsKnown entries.old entries.new }
{
    if let Some(entry) = entries.get_mut(&party) {
        entry.running = running;
    }
}

/// Gives a party that has an entry that mark.
pub fn set_mark(entries: &mut Entries, party: u32, mark: usize)
    ensures written { IfSome (get nat_cmp entries.old party)
        (λ e. Writes entries.old entries.new party (record e { mark = mark })) }
    ensures known { KeepsKnown entries.old entries.new }
{
    if let Some(entry) = entries.get_mut(&party) {
        entry.mark = mark;
    }
}

/// Makes the party a member with that sense. Its first entry alone takes memory, and comes with room for
/// it in the list of those that saw a stop.
pub fn admit(
    entries: &mut Entries,
    saw: &mut Vec<u32>,
    party: u32,
    sense: bool,
) -> Result<(), AllocError>
    requires { IsMarked entries.old saw.old.items (vec_capacity saw.old) }
    ensures saw { saw.new.items ≡ saw.old.items }
    ensures marks { IsMarked entries.new saw.new.items (vec_capacity saw.new) }
    ensures ok { OnOk result (Seats entries.old entries.new party (Some sense)) }
    ensures err { OnErr result (entries.new.entries ≡ entries.old.entries) }
    ensures first { OnErr result (get nat_cmp entries.old party ≡ None) }
    ensures known { KeepsKnown entries.old entries.new }
{
    if entries.contains_key(&party) {
        set_sense(entries, party, Some(sense));
        return Ok(());
    }
    saw.reserve(entries.len() + 1 - saw.len())?;
    let entry = Entry {
        sense: Some(sense),
        running: None,
        mark: usize::MAX,
    };
    entries.insert(party, entry)?;
    Ok(())
}

/// Whether the party stands in the list of those that saw the stop.
pub fn has_seen(entries: &Entries, saw: &Vec<u32>, party: u32) -> bool
    requires { IsMarked entries.now saw.now.items (vec_capacity saw.now) }
    ensures { result ≡ list_any (λ q. party == q) saw.now.items }
{
    match entries.get(&party) {
        None => false,
        Some(entry) => entry.mark < saw.len() && saw[entry.mark] == party,
    }
}

/// Puts a party that has an entry into the list of those that saw the stop.
pub fn note(entries: &mut Entries, saw: &mut Vec<u32>, party: u32)
    requires marks { IsMarked entries.old saw.old.items (vec_capacity saw.old) }
    requires known { IsKnown entries.old party }
    ensures marks { IsMarked entries.new saw.new.items (vec_capacity saw.new) }
    ensures seen { (q : ℕ) → list_any (λ p. q == p) saw.new.items
        ≡ put (λ q. list_any (λ p. q == p) saw.old.items) party true q }
    ensures seats { KeepsSeats entries.old entries.new }
    ensures known { KeepsKnown entries.old entries.new }
{
    if has_seen(entries, saw, party) {
        return;
    }
    let mark = saw.len();
    saw.push_reserved(party);
    set_mark(entries, party, mark);
}
