//! Who comes to a lock: its leader, who becomes a member with number 0, and helpers. A helper takes a number, joins the barrier, works in
//! each round, and ends once exit is announced.
ghost use Rattle.std.specs.Prelude.{◌≡◌, ◌<◌, false, []};
ghost use Rattle.spindle_rounds.specs.Members.{IsOut, AreOut, AreSameSeats, party_view};
ghost use Rattle.spindle_rounds.specs.Helpers.{IsHelperAt, IsNews, seat_of};
ghost use Rattle.spindle_rounds.specs.Seating.{IsSameSeat};
ghost use Rattle.spindle_rounds.specs.Opening.{AreSeatsAt};

use crate::lock::workspace::TakesPart;
use crate::prelude::*;
use spindle_rounds::round_table;
use spindle_rounds::round_table::slots::SlotContents;
use spindle_rounds::threads::helper_waits::{News, await_news, end_part, take_number};
use spindle_rounds::threads::leader_member::LeaderMember;
use spindle_rounds::threads::member::{HelperStatus, Member};
use spindle_rounds::threads::seats::{HelperSeats, Seats};
use spindle_rounds::threads::signals::Signals;
use spindle_rounds::threads::tables::Tables;

/// A helper's life, from its number to its end. Its seats come back.
pub(crate) fn help<'a, D: SlotContents, J: Job + 'a, L: TakesPart<J, D>, G: Gate>(
    rt: &(impl Threads + Wait + Sync),
    alloc: Global,
    helper_seats: HelperSeats<'a, D>,
    workspace: &'a L,
    gate: &'a G,
) -> Seats<D>
    ensures out { AreOut helper_seats.entry.tables.now result }
    ensures own { AreSameSeats helper_seats.entry.seats result }
{
    let HelperSeats { tables, seats } = helper_seats;
    let Seats {
        round,
        mut numbers,
        mut ledger,
    } = seats;
    let thread = take_number(rt, &tables.numbers, &mut numbers);
    let member = Member::join(rt, tables, round, thread);
    let seat = tables.ledger.new_seat(&mut ledger);
    let signals = Signals::new(&tables.ledger, seat, tables.child_slots);
    let site = tables.site(L::members(tables), thread);
    let runner = Runner::<'a, J, G>::new(workspace.child_slots(), gate, site, signals);
    let round = live::<D, J, L, G, _>(rt, alloc, member, runner, workspace);
    tables.numbers.give(&mut numbers, thread);
    Seats {
        round,
        numbers,
        ledger,
    }
}

// Takes part in each round, and goes to the nested locks that ask for helpers, until exit is announced.
fn live<'a, D: SlotContents, J: Job, L: TakesPart<J, D>, G: Gate, H: Threads + Wait + Sync>(
    rt: &H,
    alloc: Global,
    mut member: Member<'a, D>,
    mut runner: Runner<'a, J, G>,
    workspace: &L,
) -> round_table::Seat<D>
    requires { (party_view member.barrier).leader ≡ false }
    ensures out { IsOut member.entry.tables.now result }
    ensures leader { result.me.0.leader ≡ false }
    ensures seat { IsSameSeat member.entry.barrier.seat result }
{
    let tables = member.tables;
    let thread = member.thread;
    for _ in rt.forever() {
        let news = await_news(rt, &mut member, &mut runner.signals);
        if let News::Exit = news {
            return member.leave(rt);
        }
        let now = follow::<D, J, L, G, H>(rt, alloc, workspace, member, &mut runner, news);
        member = rejoin(rt, alloc, tables, thread, &mut runner, now);
    }
    unreachable!()
}

// Does what it was told.
fn follow<'a, D: SlotContents, J: Job, L: TakesPart<J, D>, G: Gate, H: Threads + Wait + Sync>(
    rt: &H,
    alloc: Global,
    workspace: &L,
    mut member: Member<'a, D>,
    runner: &mut Runner<'_, J, G>,
    news: News,
) -> HelperStatus<'a, D>
    requires helper { (party_view member.barrier).leader ≡ false }
    requires news { IsNews (party_view member.barrier) news }
    ensures at { IsHelperAt member.entry.tables.now member.entry.thread result }
    ensures seat { IsSameSeat member.entry.barrier.seat (seat_of result) }
{
    match news {
        News::Round(published) => {
            workspace.take_part(rt, alloc, &mut member, runner, published);
            end_part(rt, member, &mut runner.signals)
        }
        _ => HelperStatus::Out(member.leave(rt)),
    }
}

// A helper that is out of the barrier goes to the nested locks that ask for helpers, and joins again.
fn rejoin<'a, D: SlotContents, J: Job, G: Gate, H: Threads + Wait + Sync>(
    rt: &H,
    alloc: Global,
    tables: &'a Tables<D>,
    thread: usize,
    runner: &mut Runner<'_, J, G>,
    now: HelperStatus<'a, D>,
) -> Member<'a, D>
    requires at { IsHelperAt tables.now thread now }
    requires thread { thread < tables.now.counts.threads }
    ensures tables { result.tables.now ≡ tables.now }
    ensures thread { result.thread ≡ thread }
    ensures leader { (party_view result.barrier).leader ≡ false }
    ensures seat { IsSameSeat (seat_of now.entry) result.barrier.seat }
{
    match now {
        HelperStatus::In(member) => member,
        HelperStatus::Out(seat) => {
            <J::Inner as Nest>::serve(rt, alloc, runner.child_slots, &mut runner.signals);
            Member::join(rt, tables, seat, thread)
        }
    }
}

/// Makes the leader of a lock a member. The leader runs jobs with what comes beside.
pub fn join_as_leader<'s, D: SlotContents, J: Job, G: Gate, L: TakesPart<J, D>, H: Wait>(
    rt: &H,
    tables: &'s Tables<D>,
    workspace: &'s L,
    gate: &'s G,
    seats: Seats<D>,
) -> (LeaderMember<'s, D>, Runner<'s, J, G>)
    requires seats { AreSeatsAt tables.now seats }
    ensures tables { result.0.member.tables.now ≡ tables.now }
    ensures counts { result.1.site.counts ≡ tables.now.counts }
    ensures slots { let seat = result.0.member.barrier.seat in
        (seat.me.1 ≡ []) × (seat.me.0.board ≡ []) }
{
    let signals = Signals::new(&tables.ledger, seats.ledger, tables.child_slots);
    let member = LeaderMember::new(Member::join(rt, tables, seats.round, 0));
    let site = tables.site(L::members(tables), 0);
    let runner = Runner::new(workspace.child_slots(), gate, site, signals);
    (member, runner)
}
