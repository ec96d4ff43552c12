//! The steps of those who have arrived: the last arrival makes the closer, who waits may leave, and
//! the closer ends the round.
ghost use Rattle.std.specs.Prelude.{◌≡◌, true, false, not, ◌==◌, if◌then◌else◌, [], Some, None};
ghost use Rattle.std.specs.Prelude.{vec_capacity};
ghost use Rattle.spindle_parts.specs.Entries.{KeepsKnown};
ghost use Rattle.spindle_parts.specs.Registers.{shown, IsReached, IsTidy};
ghost use Rattle.spindle_parts.specs.Serving.{Serves};
ghost use Rattle.spindle_parts.specs.declared.steps.Step.{Step};

use crate::steps::Why;
use crate::steps::entries::set_sense;
use crate::steps::registers::Registers;

impl Registers {
    /// A member arrives; the last of those who are in becomes the closer.
    pub fn arrive(&mut self, party: u32) -> Result<(), Why>
        requires reached { IsReached (shown self.old) }
        requires tidy { IsTidy self.old }
        ensures served { Serves self.old true (Step.Arrive party) self.new result }
        ensures known { KeepsKnown self.old.entries self.new.entries }
        ensures tidy { IsTidy self.new }
    {
        if !self.is_inside(party) {
            return Err(Why::NotIn);
        }
        if self.running(party).is_some() {
            return Err(Why::Holding);
        }
        if self.published.is_some() && !self.stopped && self.left > 0 {
            return Err(Why::Left);
        }
        set_sense(&mut self.entries, party, Some(!self.sense));
        self.inside -= 1;
        self.close(party);
        Ok(())
    }

    /// A member that has arrived leaves, while there is no closer.
    pub fn leave(&mut self, party: u32) -> Result<(), Why>
        requires reached { IsReached (shown self.old) }
        requires tidy { IsTidy self.old }
        ensures served { Serves self.old true (Step.Leave party) self.new result }
        ensures known { KeepsKnown self.old.entries self.new.entries }
        ensures tidy { IsTidy self.new }
    {
        if !self.is_waiting(party) {
            return Err(Why::NotWaiting);
        }
        if self.closer.is_some() {
            return Err(Why::Closing);
        }
        if self.must_stay(party) {
            return Err(Why::Leader);
        }
        set_sense(&mut self.entries, party, None);
        self.members -= 1;
        Ok(())
    }

    /// The closer takes back what is published.
    pub fn clear(&mut self, party: u32) -> Result<(), Why>
        requires tidy { IsTidy self.old }
        ensures served { Serves self.old true (Step.Clear party) self.new result }
        ensures known { KeepsKnown self.old.entries self.new.entries }
        ensures tidy { IsTidy self.new }
    {
        if !self.is_closer(party) {
            return Err(Why::NotCloser);
        }
        self.published = None;
        Ok(())
    }

    /// The closer ends a round in which nothing is published any more.
    pub fn end(&mut self, party: u32) -> Result<(), Why>
        requires reached { IsReached (shown self.old) }
        requires tidy { IsTidy self.old }
        ensures served { Serves self.old true (Step.End party) self.new result }
        ensures known { KeepsKnown self.old.entries self.new.entries }
        ensures tidy { IsTidy self.new }
    {
        if !self.is_closer(party) {
            return Err(Why::NotCloser);
        }
        if self.published.is_some() {
            return Err(Why::Published);
        }
        self.turn();
        Ok(())
    }

    /// Where nobody is in, the party is the closer.
    pub fn close(&mut self, party: u32)
        ensures { let closer = if self.old.inside == 0 then Some party else self.old.closer in
            self.new ≡ record self.old { closer = closer } }
    {
        if self.inside == 0 {
            self.closer = Some(party);
        }
    }

    /// Ends the round: the sense flips, by which every member is in.
    pub fn turn(&mut self)
        ensures saw { self.new.saw.items ≡ [] }
        ensures room { vec_capacity self.new.saw ≡ vec_capacity self.old.saw }
        ensures turned { self.new ≡ record self.old {
          saw = self.new.saw;
          sense = not self.old.sense;
          inside = self.old.members;
          closer = None;
          stoppable = false;
          stopped = false;
        } }
    {
        self.saw.clear();
        self.sense = !self.sense;
        self.inside = self.members;
        self.closer = None;
        self.stoppable = false;
        self.stopped = false;
    }
}
