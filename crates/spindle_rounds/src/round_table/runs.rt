//! What the rule of a round table says to its users, and what each step does to the run shown.
//!
//! Together: a table opens with the empty run; each step of any thread is of one of the kinds, and
//! puts its own events, or none, before the run that the table showed; so at every moment the table
//! shows a run of the model, and the laws of every run hold of it.
ghost use Rattle.spindle_rounds.specs.RoundRuns.{EveryStep};
ghost use Rattle.spindle_rounds.specs.RoundTrails.{EveryMoment};
ghost use Rattle.spindle_rounds.specs.Headline.{Headline};

use crate::round_table::slots::SlotContents;
use spindle_parts::numbers::numbers_differ;
use spindle_parts::requests::books_balance;
use spindle_parts::steps::every_run;

/// The headline: what runs, steps, moments, thread numbers and the books of a lock promise, in one record.
pub fn headline<D: SlotContents>()
    ensures { Headline D.discipline }
{
    every_run();
    every_step::<D>();
    every_moment::<D>();
    numbers_differ();
    books_balance();
}

/// What each kind of step adds to the run that a table shows, whatever run that is.
///
/// A store to fill, a load that sees no stop, the leader's taking out and giving back of slots, and
/// an exchange that finds another value add nothing; a claim adds a take and a begin; the share
/// store adds a begin, and every other step the one event of its name.
///
/// There is no other kind: outside this crate nobody reaches the words of a table, since the field `table` of
/// `BarrierInit` and the kinds in `plays` are the crate's own.
pub fn every_step<D: SlotContents>()
    ensures { EveryStep D.discipline }
{}

/// What a table shows at every moment: a run of the model, whose last state words and seats show.
///
/// What began and finished in it is what the trails of all seats tell together. So no two of them
/// tell of one job.
pub fn every_moment<D: SlotContents>()
    ensures { EveryMoment D.discipline }
{
    every_run();
}
