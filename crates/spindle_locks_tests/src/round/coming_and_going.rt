//! The scripts of coming and going, played on a table of four threads by one thread, with the machine beside it.

use super::lines::{Beside, ONE, TWO, join, line};
use super::scripts::find_nothing_left;
use super::stages::{
    arrive_and_close, exit_and_close, help, join_and_exit, leave_in_mid_round, publish, run,
};
use crate::checks::is;
use spindle_parts::fault::Fault;
use spindle_parts::steps::Step::Arrive;
use spindle_rounds::barrier::steps::Arrival;
use spindle_rounds::round::Round;
use std::alloc::Global;
use std::process::Abort;

/// A helper joins in mid-round, arrives, leaves, comes again and exits. A guest that visits is there to the end.
fn come_and_go(rt: &impl Abort, alloc: Global, visits: bool) -> Result<(), Fault> {
    let (round, mut seat) = Round::new(alloc, 4)?;
    let other = round.init().new_seat(&mut seat);
    let mut beside = Beside::new(alloc, &round, &mut seat, visits)?;
    let mut zero = join(rt, &mut beside, &round, seat, (0, ONE));
    publish(rt, &mut beside, &round, &mut zero, ONE);
    let mut one = join(rt, &mut beside, &round, other, (1, TWO));
    help(rt, &mut beside, &round, &mut one);
    let other = leave_in_mid_round(rt, &mut beside, &round, &mut zero, one);
    let other = join_and_exit(rt, &mut beside, &round, other);
    find_nothing_left(rt, &round, &mut zero);
    arrive_and_close(rt, &mut beside, &round, other, zero);
    is(rt, beside.guest.is_some(), visits);
    Ok(())
}

/// A helper closes by leaving: it exits, when all others have arrived. A guest that visits is there to the end.
fn close_by_leaving(rt: &impl Abort, alloc: Global, visits: bool) -> Result<(), Fault> {
    let (round, mut seat) = Round::new(alloc, 4)?;
    let other = round.init().new_seat(&mut seat);
    let mut beside = Beside::new(alloc, &round, &mut seat, visits)?;
    let mut zero = join(rt, &mut beside, &round, seat, (0, ONE));
    let one = join(rt, &mut beside, &round, other, (1, TWO));
    publish(rt, &mut beside, &round, &mut zero, TWO);
    run(rt, &mut beside, &round, &mut zero, 0);
    run(rt, &mut beside, &round, &mut zero, 1);
    find_nothing_left(rt, &round, &mut zero);
    is(rt, zero.arrive(), Arrival::Arrived);
    line(rt, &mut beside, &round, (Arrive(0), 0x0002_0001, None));
    exit_and_close(rt, &mut beside, &round, one);
    is(rt, beside.guest.is_some(), visits);
    Ok(())
}

/// A guest that visits changes no later answer.
#[test]
fn a_helper_comes_and_goes(rt: HostRuntime) -> Result<(), Fault> {
    for visits in [false, true] {
        come_and_go(&rt, rt.alloc(), visits)?;
        close_by_leaving(&rt, rt.alloc(), visits)?;
    }
    Ok(())
}
