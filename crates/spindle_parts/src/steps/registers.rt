//! What the machine keeps: an entry for each party that ever came, the word's fields, and the jobs of the round.
ghost use Rattle.std.specs.Prelude.{◌≡◌, ◌≤◌, IfOk};
ghost use Rattle.std.specs.Ordering.{nat_cmp};
ghost use Rattle.std.specs.BTreeMap.{get};
ghost use Rattle.spindle_parts.specs.Machine.{initial, word, status};
ghost use Rattle.spindle_parts.specs.Machine.{is_out, is_inside, is_waiting, is_party};
ghost use Rattle.spindle_parts.specs.Entries.{sense_of};
ghost use Rattle.spindle_parts.specs.Registers.{shown, IsTidy};

use std::alloc::{AllocError, Global};
use std::collections::BTreeMap;

/// What is kept of a party.
#[derive(Clone, Copy)]
pub struct Entry {
    /// A member's own sense: the word's where it hasn't arrived, the other one until the round that it arrived in has ended.
    pub sense: Option<bool>,
    /// The job that the party runs.
    pub running: Option<u32>,
    /// The party's place in the list of those that saw the stop, if it stands there.
    pub mark: usize,
}

/// The machine's registers. The round's end touches no entry: an entry's sense tells whether its party has arrived, and its
/// mark counts only where the list of those that saw the stop has the party at it.
#[derive(Drop)]
pub struct Registers {
    /// What is kept of each party that ever came.
    pub entries: BTreeMap<u32, Entry>,
    /// The parties that have seen the round's stop, each once.
    pub saw: Vec<u32>,
    /// How many of its own jobs each thread has left.
    pub counters: Vec<u32>,
    /// How many of the jobs that no thread owns are left.
    pub remainder: u32,
    /// The sum of the counters and the remainder.
    pub left: u32,
    /// How many jobs of the round have finished.
    pub finished: u32,
    /// The number of jobs published, until the closer takes it back.
    pub published: Option<u32>,
    /// Whether the published round may stop.
    pub stoppable: bool,
    /// Whether the round was stopped.
    pub stopped: bool,
    /// The members that haven't arrived.
    pub inside: u32,
    /// All members, those that have arrived among them.
    pub members: u32,
    /// Whether the number of ended rounds is odd.
    pub sense: bool,
    /// The party that has to end the round.
    pub closer: Option<u32>,
}

impl Registers {
    /// The registers of a fresh machine with so many counters: no party, no job, round 0.
    pub fn new(alloc: Global, threads: usize) -> Result<Registers, AllocError>
        ensures fresh { IfOk result (λ r. shown r ≡ initial threads) }
        ensures tidy { IfOk result IsTidy }
    {
        let counters = vec![in alloc; 0; threads]?;
        Ok(Registers {
            entries: BTreeMap::new(alloc),
            saw: Vec::new(alloc),
            counters,
            remainder: 0,
            left: 0,
            finished: 0,
            published: None,
            stoppable: false,
            stopped: false,
            inside: 0,
            members: 0,
            sense: false,
            closer: None,
        })
    }

    /// The barrier word.
    pub fn word(&self) -> u32
        requires inside { self.now.inside ≤ 32767 }
        requires members { self.now.members ≤ 32767 }
        ensures { result ≡ word (shown self.now) }
    {
        let sense = if self.sense { 0x8000_0000 } else { 0 };
        self.inside + 0x1_0000 * self.members + sense
    }

    /// What is kept of a party, if it ever came.
    pub fn entry(&self, party: u32) -> Option<Entry>
        ensures { result ≡ get nat_cmp self.now.entries party }
    {
        self.entries.get(&party).copied()
    }

    /// A member's own sense.
    pub fn sense_of(&self, party: u32) -> Option<bool>
        ensures { result ≡ sense_of (get nat_cmp self.now.entries party) }
    {
        match self.entry(party) {
            None => None,
            Some(entry) => entry.sense,
        }
    }

    /// Whether the party is no member.
    pub fn is_out(&self, party: u32) -> bool
        ensures { result ≡ is_out (status (shown self.now) party) }
    {
        self.sense_of(party).is_none()
    }

    /// Whether the party is a member that hasn't arrived.
    pub fn is_inside(&self, party: u32) -> bool
        ensures { result ≡ is_inside (status (shown self.now) party) }
    {
        match self.sense_of(party) {
            None => false,
            Some(own) => own == self.sense,
        }
    }

    /// Whether the party is a member that has arrived.
    pub fn is_waiting(&self, party: u32) -> bool
        ensures { result ≡ is_waiting (status (shown self.now) party) }
    {
        match self.sense_of(party) {
            None => false,
            Some(own) => own != self.sense,
        }
    }

    /// The job that the party runs.
    pub fn running(&self, party: u32) -> Option<u32>
        ensures { result ≡ ((shown self.now).seat party).running }
    {
        match self.entry(party) {
            None => None,
            Some(entry) => entry.running,
        }
    }

    /// Whether the party is the closer.
    pub fn is_closer(&self, party: u32) -> bool
        ensures { result ≡ is_party self.now.closer party }
    {
        match self.closer {
            None => false,
            Some(closer) => closer == party,
        }
    }
}
