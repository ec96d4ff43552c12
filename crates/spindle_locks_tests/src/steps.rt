//! Steps of the machine.
//!
//! `Machine::step` says what each step answers by the definitions of the step table. These rows show what no clause says: that the
//! definitions give the words and the reasons of the table, the first where several tests are true, and that no join but one whose
//! growth was refused is refused for memory.

use crate::checks::is;
use spindle_parts::fault::Fault;
use spindle_parts::steps::Reply::{Job, Refused, Word};
use spindle_parts::steps::Step::{
    Arrive, Claim, Clear, End, Exit, Finish, Join, Leave, Publish, PublishTry, Rest, See, Stop,
};
use spindle_parts::steps::{Machine, Reply, Step, Why};
use std::process::Abort;

type Script<'a> = &'a [(Step, Reply)];

/// Nobody has joined.
const OUTSIDE: Script = &[
    (Publish(1, 0), Refused(Why::NotLeader)),
    (PublishTry(1, 0), Refused(Why::NotLeader)),
    (Publish(0, 0), Refused(Why::NotIn)),
    (PublishTry(0, 0), Refused(Why::NotIn)),
    (Claim(0, 4), Refused(Why::NotIn)),
    (Rest(0), Refused(Why::NotIn)),
    (Finish(0), Refused(Why::Idle)),
    (Stop(0), Refused(Why::Idle)),
    (See(0), Refused(Why::NotIn)),
    (Arrive(0), Refused(Why::NotIn)),
    (Leave(0), Refused(Why::NotWaiting)),
    (Exit(0), Refused(Why::NotIn)),
    (Clear(0), Refused(Why::NotCloser)),
    (End(0), Refused(Why::NotCloser)),
];

/// A round of five jobs on four counters, by two parties.
const WHOLE_ROUND: Script = &[
    (Join(0), Word(0x0001_0001)),
    (Join(1), Word(0x0002_0002)),
    (Join(0), Refused(Why::Member)),
    (Publish(0, 1), Refused(Why::Count)),
    (PublishTry(0, 1), Refused(Why::Count)),
    (Claim(0, 4), Refused(Why::NotPublished)),
    (Rest(0), Refused(Why::NotPublished)),
    (See(0), Refused(Why::NotPublished)),
    (Publish(0, 5), Word(0x0002_0002)),
    (Publish(0, 1), Refused(Why::Published)),
    (PublishTry(0, 1), Refused(Why::Published)),
    (Claim(1, 4), Refused(Why::Range)),
    (Claim(1, 1), Job(0x0002_0002, 1)),
    (Claim(1, 4), Refused(Why::Holding)),
    (Rest(1), Refused(Why::Holding)),
    (Stop(1), Refused(Why::Fixed)),
    (See(1), Refused(Why::Going)),
    (Arrive(1), Refused(Why::Holding)),
    (Leave(1), Refused(Why::NotWaiting)),
    (Exit(1), Refused(Why::Holding)),
    (Finish(1), Word(0x0002_0002)),
    (Claim(1, 1), Refused(Why::Empty)),
    (Arrive(1), Refused(Why::Left)),
    (Rest(0), Job(0x0002_0002, 4)),
    (Finish(0), Word(0x0002_0002)),
    (Rest(0), Refused(Why::Empty)),
    (Claim(0, 0), Job(0x0002_0002, 0)),
    (Finish(0), Word(0x0002_0002)),
    (Exit(0), Refused(Why::Leader)),
    (Claim(0, 2), Job(0x0002_0002, 2)),
    (Finish(0), Word(0x0002_0002)),
    (Claim(0, 3), Job(0x0002_0002, 3)),
    (Arrive(1), Word(0x0002_0001)),
    (Arrive(1), Refused(Why::NotIn)),
    (Finish(0), Word(0x0002_0001)),
    (Arrive(0), Word(0x0002_0000)),
    (Leave(0), Refused(Why::Closing)),
    (Exit(0), Refused(Why::NotIn)),
    (Join(2), Refused(Why::Closing)),
    (Clear(1), Refused(Why::NotCloser)),
    (End(1), Refused(Why::NotCloser)),
    (End(0), Refused(Why::Published)),
    (Clear(0), Word(0x0002_0000)),
    (End(0), Word(0x8002_0002)),
];

/// A round that the leader stops: a helper sees it, goes, and sees it when it comes again; a third party closes by its exit.
const STOPPED_ROUND: Script = &[
    (Join(2), Word(0x8003_0003)),
    (PublishTry(0, 9), Word(0x8003_0003)),
    (Rest(0), Job(0x8003_0003, 8)),
    (See(1), Refused(Why::Going)),
    (Stop(0), Word(0x8003_0003)),
    (Claim(0, 4), Refused(Why::Holding)),
    (See(1), Word(0x8003_0003)),
    (Claim(1, 4), Refused(Why::Stopped)),
    (Rest(1), Refused(Why::Stopped)),
    (Claim(2, 0), Job(0x8003_0003, 0)),
    (Finish(2), Word(0x8003_0003)),
    (Arrive(1), Word(0x8003_0002)),
    (Leave(1), Word(0x8002_0002)),
    (Join(1), Word(0x8003_0003)),
    (Claim(1, 1), Refused(Why::Stopped)),
    (Exit(1), Word(0x8002_0002)),
    (Finish(0), Word(0x8002_0002)),
    (Arrive(0), Word(0x8002_0001)),
    (Leave(0), Refused(Why::Leader)),
    (Exit(2), Word(0x8001_0000)),
    (Clear(2), Word(0x8001_0000)),
    (End(2), Word(0x0001_0001)),
];

/// In the next round the helper claims again; then both go.
const NEXT_ROUND: Script = &[
    (Join(1), Word(0x0002_0002)),
    (PublishTry(0, 9), Word(0x0002_0002)),
    (Claim(1, 1), Job(0x0002_0002, 2)),
    (See(1), Refused(Why::Going)),
];

/// Makes the step, which must have this answer.
fn answers(rt: &impl Abort, machine: &mut Machine, step: Step, reply: Reply) {
    is(rt, (step, machine.step(step)), (step, reply));
}

/// Plays the script, and compares each answer.
fn play(rt: &impl Abort, machine: &mut Machine, script: Script) {
    for (step, reply) in script {
        answers(rt, machine, *step, *reply);
    }
}

#[test]
fn each_step_is_answered_as_in_the_step_table(rt: HostRuntime) -> Result<(), Fault> {
    let mut machine = Machine::new(rt.alloc(), 4)?;
    for script in [OUTSIDE, WHOLE_ROUND, STOPPED_ROUND, NEXT_ROUND] {
        play(&rt, &mut machine, script);
    }
    Ok(())
}

/// A refused growth changes nothing: the same join with memory is answered. Who came once comes again without memory.
#[test]
fn refused_growth_changes_nothing(rt: HostRuntime) -> Result<(), Fault> {
    let mut machine = match Machine::new(rt.alloc(), 4) {
        Ok(machine) => machine,
        Err(_) => Machine::new(rt.alloc(), 4)?,
    };
    for party in 0..200u32 {
        let word = Word(party.wrapping_add(1).wrapping_mul(0x0001_0001));
        match machine.step(Join(party)) {
            Refused(Why::Memory) => answers(&rt, &mut machine, Join(party), word),
            reply => is(&rt, reply, word),
        }
    }
    for party in 1..200u32 {
        answers(&rt, &mut machine, Exit(party), Word(0x00c7_00c7));
        answers(&rt, &mut machine, Join(party), Word(0x00c8_00c8));
    }
    Ok(())
}
