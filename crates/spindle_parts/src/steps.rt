//! The rounds as a machine over single steps: who takes part, which jobs are begun, and the barrier word after each step.
//!
//! One thread plays every party. A step's tests are made in the order of the step table (docs/FORMATS.md), and the first
//! that fails names the refusal.

ghost use Rattle.std.specs.Prelude.{◌≡◌, ◌<◌, ◌≤◌, IfOk, OnErr, IsErrOf};
ghost use Rattle.spindle_parts.specs.Machine.{initial};
ghost use Rattle.spindle_parts.specs.Registers.{shown, IsReached, IsTidy};
ghost use Rattle.spindle_parts.specs.Contents.{configuration, IsFirstJoin, Remembers};
ghost use Rattle.spindle_parts.specs.Serving.{Replies, IsServed};
ghost use Rattle.spindle_parts.specs.EveryRun.{EveryRun};
ghost use Rattle.spindle_parts.specs.EverySchedule.{EverySchedule};

use crate::fault::Fault;
use std::alloc::Global;
use std::marker::Model;

mod closing;
mod entries;
mod jobs;
mod members;
mod registers;

use registers::Registers;

/// A step of one party, which comes first; a job count or a counter's number follows it. Party 0 is the leader.
#[derive(Clone, Copy, Debug, PartialEq, Eq)]
pub enum Step {
    /// The party becomes a member, and is in the round.
    Join(u32),
    /// It publishes a round of so many jobs.
    Publish(u32, u32),
    /// It publishes a round of so many jobs, which may stop.
    PublishTry(u32, u32),
    /// It begins a job of this counter.
    Claim(u32, u32),
    /// It begins a job of the remainder.
    Rest(u32),
    /// It has finished its job.
    Finish(u32),
    /// It stops the round, since its job has failed.
    Stop(u32),
    /// It sees that the round was stopped.
    See(u32),
    /// It has done its part of the round.
    Arrive(u32),
    /// It has arrived, and is no member any more.
    Leave(u32),
    /// It hasn't arrived, and is no member any more.
    Exit(u32),
    /// The closer takes the published number back.
    Clear(u32),
    /// The closer ends the round.
    End(u32),
}

/// What a step answers: the barrier word after it, with the job's number for a claim, or why it is refused.
#[derive(Clone, Copy, Debug, PartialEq, Eq)]
pub enum Reply {
    /// The barrier word after the step.
    Word(u32),
    /// The barrier word after a claim, and the number of the job that begins.
    Job(u32, u32),
    /// Nothing has changed.
    Refused(Why),
}

/// Why a step is refused.
#[derive(Clone, Copy, Debug, PartialEq, Eq)]
pub enum Why {
    /// The party is a member already.
    Member,
    /// 32767 members have joined.
    Full,
    /// There is a closer.
    Closing,
    /// A growth was refused.
    Memory,
    /// The party isn't the leader.
    NotLeader,
    /// The party isn't a member that hasn't arrived.
    NotIn,
    /// Something is published.
    Published,
    /// Fewer than two jobs.
    Count,
    /// Nothing is published.
    NotPublished,
    /// The party runs a job.
    Holding,
    /// The party has seen that the round was stopped.
    Stopped,
    /// There is no such counter.
    Range,
    /// The counter, or the remainder, is 0.
    Empty,
    /// The party runs no job.
    Idle,
    /// The round may not be stopped.
    Fixed,
    /// Nothing stopped the round.
    Going,
    /// Jobs are left in a round that wasn't stopped.
    Left,
    /// The party isn't a member that has arrived.
    NotWaiting,
    /// The leader of a published round stays.
    Leader,
    /// The party isn't the closer.
    NotCloser,
}

/// The machine: members, the closer, and the jobs of the published round, with one counter for each thread.
///
/// A counter at v > 0 stands for the last v jobs of its thread's own, the remainder at v > 0 for the last v of all.
///
/// It keeps up to 64 bytes for each party that ever joined, until it is dropped.
#[derive(Drop)]
pub struct Machine {
    registers: Registers,
}

impl Model for Machine {
    ghost use Rattle.spindle_parts.specs.Contents.{Contents, contents};
    ghost use Rattle.spindle_parts.specs.Registers.{IsSteady};

    ghost Value = { Contents };

    ghost view = { λ m. contents m.registers };

    ghost invariant = { λ m. IsSteady m.registers };
}

impl Machine {
    /// A fresh machine with a counter for each of `threads` threads.
    pub fn new(alloc: Global, threads: usize) -> Result<Machine, Fault>
        requires some { 0 < threads }
        requires few { threads ≤ 32767 }
        ensures fresh { IfOk result (λ m. configuration m ≡ initial threads) }
        ensures reached { IfOk result (λ m. IsReached (configuration m)) }
        ensures memory { OnErr result (IsErrOf result Fault.Memory) }
    {
        let registers = Registers::new(alloc, threads)?;
        Ok(Machine { registers })
    }

    /// Makes the step, or refuses it and changes nothing; a join refused for memory may leave room behind.
    /// Only the join of a party that never came takes memory.
    ///
    /// Some schedule leads to the configuration before and after it, so what `every_schedule` says holds of both.
    pub fn step(&mut self, step: Step) -> Reply
        ensures served { IsServed (configuration self.old) step (configuration self.new) result }
        ensures reached { IsReached (configuration self.new) }
        ensures refused { (why : Why) → result ≡ Reply.Refused why → self.new ≡ self.old }
        ensures memory { result ≡ Reply.Refused Why.Memory → IsFirstJoin self.old step }
        ensures known { Remembers self.old self.new }
    {
        let registers = &mut self.registers;
        match step {
            Step::Join(party) => answer(registers.join(party), registers),
            Step::Publish(party, count) => answer(
                registers.publish(party, count, false),
                registers,
            ),
            Step::PublishTry(party, count) => answer(
                registers.publish(party, count, true),
                registers,
            ),
            Step::Claim(party, thread) => claim_answer(registers.claim(party, thread), registers),
            Step::Rest(party) => claim_answer(registers.rest(party), registers),
            Step::Finish(party) => answer(registers.finish(party), registers),
            Step::Stop(party) => answer(registers.stop(party), registers),
            Step::See(party) => answer(registers.see(party), registers),
            Step::Arrive(party) => answer(registers.arrive(party), registers),
            Step::Leave(party) => answer(registers.leave(party), registers),
            Step::Exit(party) => answer(registers.exit(party), registers),
            Step::Clear(party) => answer(registers.clear(party), registers),
            Step::End(party) => answer(registers.end(party), registers),
        }
    }
}

/// What is true of every run of the model: of any events, of any parties, each allowed where it stands.
///
/// The machine's accepted steps are a run; the rule of a round table says that running threads make one.
pub fn every_run()
    ensures { EveryRun }
{}

/// What is true after every schedule, for every number of parties, rounds and counters: its accepted steps are a run.
pub fn every_schedule()
    ensures { EverySchedule }
{}

fn answer(outcome: Result<(), Why>, registers: &Registers) -> Reply
    requires { IsTidy registers.now }
    ensures { Replies (λ _ n. Reply.Word n) (shown registers.now) outcome result }
{
    match outcome {
        Ok(()) => Reply::Word(registers.word()),
        Err(why) => Reply::Refused(why),
    }
}

fn claim_answer(outcome: Result<u32, Why>, registers: &Registers) -> Reply
    requires { IsTidy registers.now }
    ensures { Replies (λ k n. Reply.Job n k) (shown registers.now) outcome result }
{
    match outcome {
        Ok(number) => Reply::Job(registers.word(), number),
        Err(why) => Reply::Refused(why),
    }
}
