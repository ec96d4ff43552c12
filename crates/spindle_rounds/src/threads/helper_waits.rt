//! What a helper does between the rounds in which it takes part, whatever the kind of job: it comes to a thread number, waits for
//! news, and ends its part of a round.
ghost use Rattle.std.specs.Prelude.{◌≡◌, ◌<◌, false};
ghost use Rattle.spindle_parts.specs.ThreadNumbers.{IsSeatOf, IsSameSeat as IsSameNumberSeat};
ghost use Rattle.spindle_parts.specs.declared.numbers.plays.Holding.TheVariants.{Nothing, Has};
ghost use Rattle.spindle_rounds.specs.Members.{party_view};
ghost use Rattle.spindle_rounds.specs.Accounts.{account_of};
ghost use Rattle.spindle_rounds.specs.Helpers.{IsHelperAt, IsNews, seat_of};
ghost use Rattle.spindle_rounds.specs.Waits.{WaitedForNews, patience_of};
ghost use Rattle.spindle_rounds.specs.RoundConditions.{IsDone};
ghost use Rattle.spindle_rounds.specs.Seating.{IsSameSeat};

use crate::barrier::ExitStatus;
use crate::round::publishing::PublishedRound;
use crate::round_table::slots::SlotContents;
use crate::threads::member::{HelperStatus, Member};
use crate::threads::publish_and_end::end_or_leave;
use crate::threads::signals::Signals;
use spindle_parts::numbers;
use spindle_parts::numbers::{Numbers, Take};
use std::sync::Wait;
use std::thread;

/// Takes a thread number, and tries again until it has one.
pub fn take_number<H: Wait>(rt: &H, numbers: &Numbers, seat: &mut numbers::Seat) -> usize
    requires seated { IsSeatOf numbers.now seat.old }
    requires no_number { seat.old.me.0.holding ≡ Nothing }
    ensures seat { IsSeatOf numbers.now seat.new }
    ensures same { IsSameNumberSeat seat.old seat.new }
    ensures own { seat.new.me.0.holding ≡ Has result }
    ensures number { result < numbers.now.threads }
{
    for _ in rt.forever() {
        if let Take::Taken(number) = numbers.try_take(seat) {
            return number;
        }
        thread::yield_now();
    }
    unreachable!()
}

/// What a helper has waited for.
#[derive(Drop)]
pub enum News {
    /// Exit is announced.
    Exit,
    /// A round is published.
    Round(PublishedRound),
    /// Nested locks ask for helpers.
    Requests,
}

/// Waits for a round, for requests, or for the announcement of exit.
pub fn await_news<'a, D: SlotContents, H: Wait>(
    rt: &H,
    member: &mut Member<'a, D>,
    signals: &mut Signals<'a>,
) -> News
    ensures news { IsNews (party_view member.new.barrier) result }
    ensures turns { WaitedForNews (patience_of member.old.tables.now) result
        (account_of signals.old) (account_of signals.new)
        (party_view member.old.barrier) (party_view member.new.barrier) }
    ensures member { (member.new.tables ≡ member.old.tables)
        × (member.new.thread ≡ member.old.thread) }
    ensures leader { (party_view member.new.barrier).leader
        ≡ (party_view member.old.barrier).leader }
    ensures seat { IsSameSeat member.old.barrier.seat member.new.barrier.seat }
{
    let mut idle = member.tables.sleep.idle_until_news();
    for _ in rt.forever() {
        if signals.is_exit_announced() {
            return News::Exit;
        }
        if let Some(published) = member.published() {
            return News::Round(published);
        }
        if signals.requests_if(idle.looks_at_requests()) > 0 {
            return News::Requests;
        }
        idle.pass(rt, signals.is_rest_announced());
    }
    unreachable!()
}

/// Waits until the round has ended, or leaves where nested locks ask for helpers.
pub fn end_part<'a, D: SlotContents, H: Wait>(
    rt: &H,
    member: Member<'a, D>,
    signals: &mut Signals<'_>,
) -> HelperStatus<'a, D>
    requires helper { (party_view member.barrier).leader ≡ false }
    requires done { IsDone (party_view member.barrier) }
    ensures at { IsHelperAt member.entry.tables.now member.entry.thread result }
    ensures seat { IsSameSeat member.entry.barrier.seat (seat_of result) }
{
    let Member {
        tables,
        barrier,
        thread,
    } = member;
    match end_or_leave(rt, tables, barrier, signals) {
        ExitStatus::Exit(seat) => {
            tables.present.go();
            HelperStatus::Out(seat)
        }
        ExitStatus::Remain(barrier) => HelperStatus::In(Member::new(tables, barrier, thread)),
    }
}
