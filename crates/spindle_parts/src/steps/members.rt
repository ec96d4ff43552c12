//! The steps by which a party comes, and by which it goes without waiting for the round's end.
ghost use Rattle.std.specs.Prelude.{◌≡◌, ◌==◌, ◌&&◌, true, is_some, None, Err};
ghost use Rattle.std.specs.Ordering.{nat_cmp};
ghost use Rattle.std.specs.BTreeMap.{get};
ghost use Rattle.spindle_parts.specs.Entries.{KeepsKnown};
ghost use Rattle.spindle_parts.specs.Registers.{shown, IsReached, IsTidy};
ghost use Rattle.spindle_parts.specs.Serving.{Serves, granted_by};
ghost use Rattle.spindle_parts.specs.declared.steps.Step.{Step};

use crate::steps::Why;
use crate::steps::entries::{admit, set_sense};
use crate::steps::registers::Registers;

/// The most members that the word can count.
pub const MOST_MEMBERS: u32 = 32767;

impl Registers {
    /// Makes the party a member that is in, while there is no closer. A party's first join takes memory, and
    /// no other step does.
    pub fn join(&mut self, party: u32) -> Result<(), Why>
        requires tidy { IsTidy self.old }
        ensures served { let granted = granted_by result in
            Serves self.old granted (Step.Join party) self.new result }
        ensures known { KeepsKnown self.old.entries self.new.entries }
        ensures first { result ≡ Err Why.Memory → get nat_cmp self.old.entries party ≡ None }
        ensures tidy { IsTidy self.new }
    {
        if !self.is_out(party) {
            return Err(Why::Member);
        }
        if self.members == MOST_MEMBERS {
            return Err(Why::Full);
        }
        if self.closer.is_some() {
            return Err(Why::Closing);
        }
        if admit(&mut self.entries, &mut self.saw, party, self.sense).is_err() {
            return Err(Why::Memory);
        }
        self.inside += 1;
        self.members += 1;
        Ok(())
    }

    /// A member that is in leaves. The last of those who are in becomes the closer; a sole member ends the round.
    pub fn exit(&mut self, party: u32) -> Result<(), Why>
        requires reached { IsReached (shown self.old) }
        requires tidy { IsTidy self.old }
        ensures served { Serves self.old true (Step.Exit party) self.new result }
        ensures known { KeepsKnown self.old.entries self.new.entries }
        ensures tidy { IsTidy self.new }
    {
        if !self.is_inside(party) {
            return Err(Why::NotIn);
        }
        if self.running(party).is_some() {
            return Err(Why::Holding);
        }
        if self.must_stay(party) {
            return Err(Why::Leader);
        }
        set_sense(&mut self.entries, party, None);
        self.inside -= 1;
        self.members -= 1;
        if self.members == 0 {
            self.turn();
        } else {
            self.close(party);
        }
        Ok(())
    }

    /// The leader of a published round stays.
    pub fn must_stay(&self, party: u32) -> bool
        ensures { result ≡ ((party == 0) && is_some self.now.published) }
    {
        party == 0 && self.published.is_some()
    }
}
