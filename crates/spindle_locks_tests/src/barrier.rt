//! A barrier without a round: scripts by one thread.
//!
//! Each call of `Barrier` says which step it made of the word that it found. These rows show what no clause says: what the calls find
//! where nobody else steps, and how many parties the barrier tells.
ghost use Rattle.std.specs.Prelude.{◌≡◌};
ghost use Rattle.spindle_rounds.specs.Seating.{IsSeatAt};

use self::parties::{arrive, arrive_last, join};
use crate::checks::{holds, is};
use spindle_parts::fault::Fault;
use spindle_rounds::barrier::membership::{Exit, Leave};
use spindle_rounds::barrier::steps::AfterEnd;
use spindle_rounds::barrier::waiting::ExitStatus;
use spindle_rounds::barrier::{BarrierInit, JoinRefused};
use spindle_rounds::round_table::slots::Bare;
use spindle_rounds::round_table::{BARRIER, Seat};
use std::process::Abort;
use std::test::Fail;

mod parties;

/// Fails the test in which the barrier word is another than wanted, or says that other than so many parties are members.
fn shows(rt: &impl Abort, init: &BarrierInit<Bare>, word: u64, members: usize) {
    is(rt, init.peek(BARRIER), word);
    is(rt, init.current_num_threads(), members);
}

#[test]
fn the_last_to_arrive_ends_the_round(rt: HostRuntime) -> Result<(), Fail> {
    let (init, mut seat) = BarrierInit::new(rt.alloc())?;
    let other = init.new_seat(&mut seat);
    let mut zero = join(&rt, &init, seat, 0);
    shows(&rt, &init, 0x0001_0001, 1);
    let mut one = join(&rt, &init, other, 1);
    shows(&rt, &init, 0x0002_0002, 2);
    arrive(&rt, &mut zero);
    shows(&rt, &init, 0x0002_0001, 2);
    arrive_last(&rt, &mut one);
    shows(&rt, &init, 0x0002_0000, 2);
    holds(&rt, matches!(zero.try_leave(), Leave::Closing(_)));
    one.clear();
    shows(&rt, &init, 0x0002_0000, 2);
    holds(&rt, matches!(one.end(), AfterEnd::Next(_)));
    shows(&rt, &init, 0x8002_0002, 2);
    Ok(())
}

#[test]
fn a_leave_before_the_last_arrival_stands(rt: HostRuntime) -> Result<(), Fail> {
    let (init, mut seat) = BarrierInit::new(rt.alloc())?;
    let other = init.new_seat(&mut seat);
    let mut zero = join(&rt, &init, seat, 0);
    let mut one = join(&rt, &init, other, 1);
    shows(&rt, &init, 0x0002_0002, 2);
    arrive(&rt, &mut zero);
    shows(&rt, &init, 0x0002_0001, 2);
    holds(&rt, matches!(zero.try_leave(), Leave::Left(_)));
    shows(&rt, &init, 0x0001_0001, 1);
    arrive_last(&rt, &mut one);
    shows(&rt, &init, 0x0001_0000, 1);
    one.clear();
    holds(&rt, matches!(one.end(), AfterEnd::Next(_)));
    shows(&rt, &init, 0x8001_0001, 1);
    Ok(())
}

/// So many parties join, each with a seat from this one.
fn join_many(rt: &impl Abort, init: &BarrierInit<Bare>, seat: &mut Seat<Bare>, count: usize)
    requires seated { IsSeatAt init.now seat.old }
    requires bare { seat.old.me.0.threads ≡ 0 }
    ensures seat { (seat.new.table_id ≡ seat.old.table_id)
        × (seat.new.me ≡ seat.old.me) }
{
    for _ in 0..count {
        let party = init.new_seat(seat);
        holds(rt, init.try_join(party, 0).is_ok());
    }
}

#[test]
fn a_barrier_holds_32767_parties(rt: HostRuntime) -> Result<(), Fail> {
    let (init, mut seat) = BarrierInit::new(rt.alloc())?;
    join_many(&rt, &init, &mut seat, 32766);
    let spare = init.new_seat(&mut seat);
    let last = join(&rt, &init, seat, 0);
    is(&rt, init.current_num_threads(), 32767);
    let Err(JoinRefused::Full(spare)) = init.try_join(spare, 0) else {
        return Err(Fail::new("a party too many has joined"));
    };
    let Err(full) = init.barrier(&rt, spare, 0) else {
        return Err(Fail::new("a party too many was let in"));
    };
    is(&rt, init.current_num_threads(), 32767);
    holds(&rt, matches!(last.try_exit(), Exit::Gone(_)));
    holds(&rt, init.try_join(full.seat, 0).is_ok());
    is(&rt, init.current_num_threads(), 32767);
    Ok(())
}

#[test]
fn a_sole_party_that_exits_ends_the_round(rt: HostRuntime) -> Result<(), Fail> {
    let (init, mut seat) = BarrierInit::new(rt.alloc())?;
    let other = init.new_seat(&mut seat);
    let Ok(mut sole) = init.barrier(&rt, seat, 0) else {
        return Err(Fail::new("the only party was refused"));
    };
    shows(&rt, &init, 0x0001_0001, 1);
    sole.wait(&rt);
    shows(&rt, &init, 0x8001_0001, 1);
    let ExitStatus::Remain(sole) = sole.wait_and_clear_while(&rt, || 1) else {
        return Err(Fail::new("the closer has left"));
    };
    shows(&rt, &init, 0x0001_0001, 1);
    drop(sole.exit(&rt));
    shows(&rt, &init, 0x8000_0000, 0);
    let _one = join(&rt, &init, other, 1);
    shows(&rt, &init, 0x8001_0001, 1);
    Ok(())
}

#[test]
fn refused_barrier_has_no_parties(rt: HostRuntime) {
    match BarrierInit::new(rt.alloc()) {
        Ok((init, _seat)) => is(&rt, init.current_num_threads(), 0),
        Err(fault) => holds(&rt, matches!(fault, Fault::Memory)),
    }
}
