//! The leader's part of a round, and the published word: how many jobs its round has, and whether it may stop.
ghost use Rattle.std.specs.Prelude.{◌≡◌, ◌≤◌, true, false, ◌%◌, ◌↔◌, IsTrue};
ghost use Rattle.spindle_rounds.specs.RoundAnswers.{FilledBy};
ghost use Rattle.spindle_rounds.specs.RoundSteps.{learning, publishing};
ghost use Rattle.spindle_rounds.specs.RoundConditions.{MayFill, MayPublish};
ghost use Rattle.spindle_rounds.specs.Seating.{IsSeatAt, IsSameSeat};
ghost use Rattle.spindle_rounds.specs.Words.{high_half};

use crate::round::Round;
use crate::round_table::plays::{Fills, Learns, Publishes, PublishesTry};
use crate::round_table::slots::SlotContents;
use crate::round_table::{APART, FINISHED, HIGH, PUBLISHED, RANGES, REMAINDER, STOPPED, Seat};

impl<D: SlotContents> Round<D> {
    /// The published word: 0, or n, or n + 2^32 for a round that may stop.
    pub fn published(&self, seat: &mut Seat<D>) -> u64
        requires seated { IsSeatAt self.now.init seat.old }
        ensures seat { IsSameSeat seat.old seat.new }
        ensures step { seat.new.me ≡ (learning result seat.old.me.0, seat.old.me.1) }
    {
        self.init.table.shared.load::<Learns>(seat, PUBLISHED)
    }

    /// Stores a round of n jobs: nothing finished, not stopped, the remainder, and each thread's range.
    pub fn fill(&self, seat: &mut Seat<D>, jobs: u64)
        requires seated { IsSeatAt self.now.init seat.old }
        requires leads { MayFill seat.old.me.0 }
        requires counted { (2 ≤ jobs) × (jobs ≤ 4294967295) }
        ensures seat { IsSameSeat seat.old seat.new
            × (seat.new.me.1 ≡ seat.old.me.1) }
        ensures filled { FilledBy self.now.init.threads jobs seat.old.me.0 seat.new.me.0 }
    {
        let words = &self.init.table.shared;
        let threads = self.init.threads as u64;
        words.store::<Fills>(seat, FINISHED, 0);
        words.store::<Fills>(seat, STOPPED, 0);
        words.store::<Fills>(seat, REMAINDER, jobs % threads);
        let part = jobs / threads;
        for i in 0..self.init.threads {
            let start = part * i as u64;
            words.store::<Fills>(seat, RANGES + APART * i, start + HIGH * (start + part));
        }
    }

    /// Publishes the n jobs that were filled: from now on every member may claim them.
    pub fn publish(&self, seat: &mut Seat<D>, jobs: u64)
        requires seated { IsSeatAt self.now.init seat.old }
        requires leads { MayPublish D.discipline self.now.init.threads jobs seat.old.me.0 }
        requires counted { (2 ≤ jobs) × (jobs ≤ 4294967295) }
        ensures seat { IsSameSeat seat.old seat.new }
        ensures step { seat.new.me ≡ (publishing false jobs seat.old.me.0, seat.old.me.1) }
    {
        self.init
            .table
            .shared
            .store::<Publishes>(seat, PUBLISHED, jobs);
    }

    /// The same for a round that may stop.
    pub fn publish_try(&self, seat: &mut Seat<D>, jobs: u64)
        requires seated { IsSeatAt self.now.init seat.old }
        requires leads { MayPublish D.discipline self.now.init.threads jobs seat.old.me.0 }
        requires counted { (2 ≤ jobs) × (jobs ≤ 4294967295) }
        ensures seat { IsSameSeat seat.old seat.new }
        ensures step { seat.new.me ≡ (publishing true jobs seat.old.me.0, seat.old.me.1) }
    {
        self.init
            .table
            .shared
            .store::<PublishesTry>(seat, PUBLISHED, jobs + HIGH);
    }
}

/// What a published word says of its round.
#[derive(Clone, Copy)]
pub struct PublishedRound {
    /// How many jobs.
    pub jobs: u64,
    /// Whether one of them may stop it.
    pub may_stop: bool,
}

impl PublishedRound {
    /// What a word says that isn't 0.
    pub fn new(word: u64) -> PublishedRound
        ensures jobs { result.jobs ≡ word % high_half }
        ensures may_stop { IsTrue result.may_stop ↔ (high_half ≤ word) }
    {
        PublishedRound {
            jobs: word % HIGH,
            may_stop: word >= HIGH,
        }
    }
}
