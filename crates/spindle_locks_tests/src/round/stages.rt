//! Stages of the scripts of coming and going: what one party does from line to line.
ghost use Rattle.std.specs.Prelude.{◌≡◌, ◌<◌, true, false, IfSome};
ghost use Rattle.spindle_rounds.specs.Holding.{IsHeld};
ghost use Rattle.spindle_rounds.specs.Parties.{IsOut, IsIn};
ghost use Rattle.spindle_rounds.specs.RoundConditions.{MayFill, MayClaim, MayArrive, MayExit};

use super::lines::{Beside, ONE, TWO, join, line, receive, show};
use super::play::word;
use super::scripts::{begin, find_nothing_left, finish, learn, publish_two};
use crate::checks::{holds, is};
use spindle_parts::steps::Step::{
    Arrive, Clear, End, Exit as Exits, Finish, Join, Leave as Leaves, Publish, Rest,
};
use spindle_parts::steps::{Reply, Why};
use spindle_rounds::barrier::membership::{Exit, Leave};
use spindle_rounds::barrier::steps::{AfterEnd, Arrival};
use spindle_rounds::barrier::{Barrier, JoinRefused};
use spindle_rounds::round::Round;
use spindle_rounds::round_table::slots::Bare;
use spindle_rounds::round_table::{PUBLISHED, Seat};
use std::process::Abort;

/// The leader publishes a round of two jobs.
pub fn publish(
    rt: &impl Abort,
    beside: &mut Beside,
    round: &Round<Bare>,
    zero: &mut Barrier<Bare>,
    expected: u64,
)
    requires guest { IfSome beside.old.guest (λ s. IsOut round.now false s) }
    requires leader { IsIn round.now true zero.old }
    requires leads { MayFill zero.old.seat.me.0 }
    ensures guest { IfSome beside.new.guest (λ s. IsOut round.now false s) }
    ensures leader { IsIn round.now true zero.new }
    ensures free { MayClaim zero.new.seat.me.0 }
{
    publish_two(round, zero);
    line(rt, beside, round, (Publish(0, 2), expected, None));
}

/// The leader begins this job, and finishes it.
pub fn run(
    rt: &impl Abort,
    beside: &mut Beside,
    round: &Round<Bare>,
    zero: &mut Barrier<Bare>,
    number: u64,
)
    requires guest { IfSome beside.old.guest (λ s. IsOut round.now false s) }
    requires leader { IsIn round.now true zero.old }
    requires free { MayClaim zero.old.seat.me.0 }
    ensures guest { IfSome beside.new.guest (λ s. IsOut round.now false s) }
    ensures leader { IsIn round.now true zero.new }
    ensures free { MayClaim zero.new.seat.me.0 }
{
    let claimed = begin(rt, round, zero);
    line(rt, beside, round, (Rest(0), TWO, Some(number)));
    is(rt, finish(round, zero, claimed), number);
    line(rt, beside, round, (Finish(0), TWO, None));
}

/// The helper learns of the round, runs its first job, and may neither leave nor exit before it has finished it.
pub fn help(rt: &impl Abort, beside: &mut Beside, round: &Round<Bare>, one: &mut Barrier<Bare>)
    requires guest { IfSome beside.old.guest (λ s. IsOut round.now false s) }
    requires helper { IsIn round.now false one.old }
    ensures guest { IfSome beside.new.guest (λ s. IsOut round.now false s) }
    ensures helper { IsIn round.now false one.new }
    ensures free { MayClaim one.new.seat.me.0 }
{
    assert!(rt; learn(round, one));
    let claimed = begin(rt, round, one);
    line(rt, beside, round, (Rest(1), TWO, Some(0)));
    is(
        rt,
        beside.machine.step(Leaves(1)),
        Reply::Refused(Why::NotWaiting),
    );
    receive(rt, beside, round, TWO);
    is(
        rt,
        beside.machine.step(Exits(1)),
        Reply::Refused(Why::Holding),
    );
    receive(rt, beside, round, TWO);
    is(rt, finish(round, one, claimed), 0);
    line(rt, beside, round, (Finish(1), TWO, None));
}

/// A helper that finds nothing left arrives, though not last, and leaves.
fn arrive_and_leave(
    rt: &impl Abort,
    beside: &mut Beside,
    round: &Round<Bare>,
    mut one: Barrier<Bare>,
) -> Seat<Bare>
    requires guest { IfSome beside.old.guest (λ s. IsOut round.now false s) }
    requires helper { IsIn round.now false one }
    requires free { MayClaim one.seat.me.0 }
    ensures guest { IfSome beside.new.guest (λ s. IsOut round.now false s) }
    ensures out { IsOut round.now false result }
{
    find_nothing_left(rt, round, &mut one);
    let Arrival::Arrived = one.arrive() else {
        rt.panic("a party that isn't the last closes")
    };
    line(rt, beside, round, (Arrive(1), 0x0002_0001, None));
    let Leave::Left(other) = one.try_leave() else {
        rt.panic("the helper's leave failed")
    };
    line(rt, beside, round, (Leaves(1), ONE, None));
    other
}

/// While the leader runs the last job, the helper leaves.
pub fn leave_in_mid_round(
    rt: &impl Abort,
    beside: &mut Beside,
    round: &Round<Bare>,
    zero: &mut Barrier<Bare>,
    one: Barrier<Bare>,
) -> Seat<Bare>
    requires guest { IfSome beside.old.guest (λ s. IsOut round.now false s) }
    requires leader { IsIn round.now true zero.old }
    requires claims { MayClaim zero.old.seat.me.0 }
    requires helper { IsIn round.now false one }
    requires free { MayClaim one.seat.me.0 }
    ensures guest { IfSome beside.new.guest (λ s. IsOut round.now false s) }
    ensures leader { IsIn round.now true zero.new }
    ensures claims { MayClaim zero.new.seat.me.0 }
    ensures out { IsOut round.now false result }
{
    let claimed = begin(rt, round, zero);
    line(rt, beside, round, (Rest(0), TWO, Some(1)));
    let other = arrive_and_leave(rt, beside, round, one);
    is(rt, finish(round, zero, claimed), 1);
    line(rt, beside, round, (Finish(0), ONE, None));
    other
}

/// A helper joins and exits.
pub fn join_and_exit(
    rt: &impl Abort,
    beside: &mut Beside,
    round: &Round<Bare>,
    other: Seat<Bare>,
) -> Seat<Bare>
    requires guest { IfSome beside.old.guest (λ s. IsOut round.now false s) }
    requires out { IsOut round.now false other }
    ensures guest { IfSome beside.new.guest (λ s. IsOut round.now false s) }
    ensures out { IsOut round.now false result }
{
    let one = join(rt, beside, round, other, (1, TWO));
    let Exit::Gone(other) = one.try_exit() else {
        rt.panic("the helper's exit failed")
    };
    line(rt, beside, round, (Exits(1), ONE, None));
    other
}

/// The leader, which finds nothing left, arrives last and ends the round. Nobody joins meanwhile.
pub fn arrive_and_close(
    rt: &impl Abort,
    beside: &mut Beside,
    round: &Round<Bare>,
    other: Seat<Bare>,
    mut zero: Barrier<Bare>,
)
    requires out { IsOut round.now false other }
    requires held { IsHeld zero }
    requires free { MayArrive zero.seat.me.0 }
{
    let machine = &mut beside.machine;
    let Arrival::Closer = zero.arrive() else {
        rt.panic("the last to arrive doesn't close")
    };
    show(rt, machine, round, (Arrive(0), 0x0001_0000, None));
    holds(
        rt,
        matches!(
            round.init().try_join(other, 1),
            Err(JoinRefused::Closing(_))
        ),
    );
    is(rt, machine.step(Join(1)), Reply::Refused(Why::Closing));
    zero.clear();
    show(rt, machine, round, (Clear(0), 0x0001_0000, None));
    holds(rt, matches!(zero.end(), AfterEnd::Next(_)));
    show(rt, machine, round, (End(0), 0x8001_0001, None));
}

/// A helper whom the leader waits for exits, and ends the round.
pub fn exit_and_close(rt: &impl Abort, beside: &mut Beside, round: &Round<Bare>, one: Barrier<Bare>)
    requires held { IsHeld one }
    requires free { MayExit one.seat.me.0 }
{
    let machine = &mut beside.machine;
    let Exit::Closer(mut one) = one.try_exit() else {
        rt.panic("whom the leader waits for doesn't close")
    };
    show(rt, machine, round, (Exits(1), 0x0001_0000, None));
    is(rt, machine.step(Leaves(0)), Reply::Refused(Why::Closing));
    is(rt, machine.step(Exits(1)), Reply::Refused(Why::NotIn));
    one.clear();
    show(rt, machine, round, (Clear(1), 0x0001_0000, None));
    is(rt, word(round, PUBLISHED), 0);
    holds(rt, matches!(one.end(), AfterEnd::Gone(_)));
    show(rt, machine, round, (End(1), 0x8001_0001, None));
}
