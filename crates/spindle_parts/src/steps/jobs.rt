//! The steps by which a round's jobs are published, begun, finished and stopped.
ghost use Rattle.std.specs.Prelude.{◌≡◌, ◌≤◌, true, Some, IfOk, replicate, length};
ghost use Rattle.spindle_parts.specs.Machine.{publish_tests, publishing, claim_tests};
ghost use Rattle.spindle_parts.specs.Machine.{claimed, rested};
ghost use Rattle.spindle_parts.specs.Entries.{KeepsKnown};
ghost use Rattle.spindle_parts.specs.Registers.{shown, IsReached, IsTidy};
ghost use Rattle.spindle_parts.specs.Serving.{Passes, Judges, Serves};
ghost use Rattle.spindle_parts.specs.declared.steps.Step.{Step};

use crate::steps::Why;
use crate::steps::entries::{has_seen, note, set_running};
use crate::steps::registers::Registers;

impl Registers {
    /// The leader publishes a round of so many jobs, two at least: an equal number to each counter, the others as the remainder.
    pub fn publish(&mut self, party: u32, count: u32, stoppable: bool) -> Result<(), Why>
        requires reached { IsReached (shown self.old) }
        requires tidy { IsTidy self.old }
        ensures served { let m = shown self.old in Judges (publish_tests m party count)
            self.old (publishing m count stoppable) self.new result }
        ensures known { KeepsKnown self.old.entries self.new.entries }
        ensures range { IfOk result (λ _. count ≤ 4294967295) }
        ensures tidy { IsTidy self.new }
    {
        if party != 0 {
            return Err(Why::NotLeader);
        }
        if !self.is_inside(party) {
            return Err(Why::NotIn);
        }
        if self.published.is_some() {
            return Err(Why::Published);
        }
        if count < 2 {
            return Err(Why::Count);
        }
        let threads = self.counters.len() as u32;
        fill(&mut self.counters, count / threads);
        self.remainder = count % threads;
        self.left = count;
        self.finished = 0;
        self.published = Some(count);
        self.stoppable = stoppable;
        Ok(())
    }

    /// How many jobs are published, for a party that may begin one of them.
    fn claimable(&self, party: u32) -> Result<u32, Why>
        requires { IsTidy self.now }
        ensures tests { Passes (claim_tests (shown self.now) party) result }
        ensures published { IfOk result (λ n. self.now.published ≡ Some n) }
    {
        if !self.is_inside(party) {
            return Err(Why::NotIn);
        }
        let Some(count) = self.published else {
            return Err(Why::NotPublished);
        };
        if self.running(party).is_some() {
            return Err(Why::Holding);
        }
        if has_seen(&self.entries, &self.saw, party) {
            return Err(Why::Stopped);
        }
        Ok(count)
    }

    /// Begins the next job of a thread's counter, and answers its number.
    pub fn claim(&mut self, party: u32, thread: u32) -> Result<u32, Why>
        requires reached { IsReached (shown self.old) }
        requires tidy { IsTidy self.old }
        ensures served { let step = Step.Claim party thread in
            Serves self.old true step self.new result }
        ensures known { KeepsKnown self.old.entries self.new.entries }
        ensures number { IfOk result (λ k. k ≡ claimed (shown self.old) thread) }
        ensures tidy { IsTidy self.new }
    {
        let count = self.claimable(party)?;
        let threads = self.counters.len() as u32;
        if thread >= threads {
            return Err(Why::Range);
        }
        let value = self.counters[thread as usize];
        if value == 0 {
            return Err(Why::Empty);
        }
        let own = count / threads;
        let number = own * thread + own - value;
        self.counters[thread as usize] = value - 1;
        self.left -= 1;
        set_running(&mut self.entries, party, Some(number));
        Ok(number)
    }

    /// Begins the next job of the remainder, and answers its number.
    pub fn rest(&mut self, party: u32) -> Result<u32, Why>
        requires reached { IsReached (shown self.old) }
        requires tidy { IsTidy self.old }
        ensures served { Serves self.old true (Step.Rest party) self.new result }
        ensures known { KeepsKnown self.old.entries self.new.entries }
        ensures number { IfOk result (λ k. k ≡ rested (shown self.old)) }
        ensures tidy { IsTidy self.new }
    {
        let count = self.claimable(party)?;
        if self.remainder == 0 {
            return Err(Why::Empty);
        }
        let number = count - self.remainder;
        self.remainder -= 1;
        self.left -= 1;
        set_running(&mut self.entries, party, Some(number));
        Ok(number)
    }

    /// Finishes the job that the party runs.
    pub fn finish(&mut self, party: u32) -> Result<(), Why>
        requires reached { IsReached (shown self.old) }
        requires tidy { IsTidy self.old }
        ensures served { Serves self.old true (Step.Finish party) self.new result }
        ensures known { KeepsKnown self.old.entries self.new.entries }
        ensures tidy { IsTidy self.new }
    {
        if self.running(party).is_none() {
            return Err(Why::Idle);
        }
        self.finished += 1;
        set_running(&mut self.entries, party, None);
        Ok(())
    }

    /// A party that runs a job stops a round that may stop, and has seen that.
    pub fn stop(&mut self, party: u32) -> Result<(), Why>
        requires tidy { IsTidy self.old }
        ensures served { Serves self.old true (Step.Stop party) self.new result }
        ensures known { KeepsKnown self.old.entries self.new.entries }
        ensures tidy { IsTidy self.new }
    {
        if self.running(party).is_none() {
            return Err(Why::Idle);
        }
        if !self.stoppable {
            return Err(Why::Fixed);
        }
        self.stopped = true;
        note(&mut self.entries, &mut self.saw, party);
        Ok(())
    }

    /// A member that is in sees that the round was stopped.
    pub fn see(&mut self, party: u32) -> Result<(), Why>
        requires tidy { IsTidy self.old }
        ensures served { Serves self.old true (Step.See party) self.new result }
        ensures known { KeepsKnown self.old.entries self.new.entries }
        ensures tidy { IsTidy self.new }
    {
        if !self.is_inside(party) {
            return Err(Why::NotIn);
        }
        if self.published.is_none() {
            return Err(Why::NotPublished);
        }
        if !self.stopped {
            return Err(Why::Going);
        }
        note(&mut self.entries, &mut self.saw, party);
        Ok(())
    }
}

/// Gives every counter that value.
fn fill(counters: &mut Vec<u32>, value: u32)
    ensures { counters.new.items ≡ replicate (length counters.old.items) value }
{
    counters.as_mut_slice().fill(value);
}
