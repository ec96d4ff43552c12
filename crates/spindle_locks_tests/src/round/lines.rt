//! Lines of the scripts of coming and going: a step on the table, with the machine beside it, and a guest's visit.
ghost use Rattle.std.specs.Prelude.{◌≡◌, true, false, IfOk, IfSome};
ghost use Rattle.spindle_rounds.specs.Parties.{IsOut, IsIn};
ghost use Rattle.spindle_rounds.specs.RoundConditions.{MayFill};

use super::play::{enter, word};
use crate::checks::is;
use spindle_parts::fault::Fault;
use spindle_parts::steps::Step::{Exit as Exits, Join};
use spindle_parts::steps::{Machine, Reply, Step};
use spindle_rounds::barrier::Barrier;
use spindle_rounds::barrier::membership::Exit;
use spindle_rounds::round::Round;
use spindle_rounds::round_table::slots::Bare;
use spindle_rounds::round_table::{BARRIER, Seat};
use std::alloc::Global;
use std::process::Abort;

/// The barrier word with one member, who hasn't arrived.
pub const ONE: u64 = 0x0001_0001;

/// The barrier word with two members, neither of whom has arrived.
pub const TWO: u64 = 0x0002_0002;

/// The machine, and a guest's seat where one joins and exits after each line.
#[derive(Drop)]
pub struct Beside {
    /// It makes each step that the table makes.
    pub machine: Machine,
    /// The seat that the guest has between two visits, if one visits.
    pub guest: Option<Seat<Bare>>,
}

impl Beside {
    /// A machine of four threads, and a guest where one visits.
    pub fn new(
        alloc: Global,
        round: &Round<Bare>,
        leader: &mut Seat<Bare>,
        visits: bool,
    ) -> Result<Beside, Fault>
        requires leader { IsOut round.now true leader.old }
        ensures leader { IsOut round.now true leader.new }
        ensures guest { IfOk result (λ b. IfSome b.guest (λ s. IsOut round.now false s)) }
    {
        let guest = round.init().new_seat(leader);
        let machine = Machine::new(alloc, 4)?;
        let guest = if visits { Some(guest) } else { None };
        Ok(Beside { machine, guest })
    }
}

/// What a line of a script says: the step, the barrier word after it, and the number of the job that begins by it.
pub type Said = (Step, u64, Option<u64>);

/// The barrier word, and the number of a job where one began.
fn shown(reply: Reply) -> (u64, Option<u64>) {
    match reply {
        Reply::Word(word) => (word as u64, None),
        Reply::Job(word, number) => (word as u64, Some(number as u64)),
        Reply::Refused(_) => (0, None),
    }
}

/// The machine makes the step, and has the barrier word of the table then; a claim began the same job.
pub fn show(rt: &impl Abort, machine: &mut Machine, round: &Round<Bare>, said: Said) {
    let (step, expected, job) = said;
    is(rt, (step, word(round, BARRIER)), (step, expected));
    let reply = machine.step(step);
    is(rt, (step, shown(reply)), (step, (expected, job)));
}

/// Where a guest visits, it joins and exits between two lines: the word is one member more, and then as before.
pub fn receive(rt: &impl Abort, beside: &mut Beside, round: &Round<Bare>, expected: u64)
    requires guest { IfSome beside.old.guest (λ s. IsOut round.now false s) }
    ensures guest { IfSome beside.new.guest (λ s. IsOut round.now false s) }
{
    let Some(guest) = beside.guest.take() else {
        return;
    };
    let member = enter(rt, round, guest, 2);
    let joined = (Join(2), expected.wrapping_add(ONE), None);
    show(rt, &mut beside.machine, round, joined);
    let Exit::Gone(guest) = member.try_exit() else {
        rt.panic("the guest's exit failed")
    };
    show(rt, &mut beside.machine, round, (Exits(2), expected, None));
    beside.guest = Some(guest);
}

/// A line of a script, and then a guest where one visits.
pub fn line(rt: &impl Abort, beside: &mut Beside, round: &Round<Bare>, said: Said)
    requires guest { IfSome beside.old.guest (λ s. IsOut round.now false s) }
    ensures guest { IfSome beside.new.guest (λ s. IsOut round.now false s) }
{
    show(rt, &mut beside.machine, round, said);
    let (_step, expected, _job) = said;
    receive(rt, beside, round, expected);
}

/// A party that is out joins.
pub fn join<'a>(
    rt: &impl Abort,
    beside: &mut Beside,
    round: &'a Round<Bare>,
    seat: Seat<Bare>,
    said: (u32, u64),
) -> Barrier<'a, Bare>
    requires guest { IfSome beside.old.guest (λ s. IsOut round.now false s) }
    requires out { IsOut round.now seat.me.0.leader seat }
    ensures guest { IfSome beside.new.guest (λ s. IsOut round.now false s) }
    ensures party { IsIn round.now seat.me.0.leader result }
    ensures leads { seat.me.0.leader ≡ true → MayFill result.seat.me.0 }
{
    let (party, expected) = said;
    let member = enter(rt, round, seat, party as usize);
    line(rt, beside, round, (Join(party), expected, None));
    member
}
