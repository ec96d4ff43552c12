//! The kinds of step of the round table: what each tells its seat.
ghost use Rattle.spindle_rounds.specs.RoundSteps.{same_view, new_view};
ghost use Rattle.spindle_rounds.specs.RoundTells.{LoadTells, JoinTells, ArrivalTells, LookTells, LeaveTells, ExitTells, CloserReadTells, ClearTells, EndTells};
ghost use Rattle.spindle_rounds.specs.RoundTells.{LearnTells, FillTells, PublishTells, PublishTryTells, SearchTells, RemainderReadTells, RecallTells};
ghost use Rattle.spindle_rounds.specs.RoundTells.{ClaimTells, StealTells, RemainderClaimTells, ShareTells, FinishTells, StopTells, SeeTells, PutBackTells};
ghost use Rattle.spindle_rounds.specs.SlotSteps.{TakeOutTells, GiveBackTells};
ghost use Rattle.spindle_rounds.specs.Leftovers.{FindTells, FindRestTells};

use crate::round_table::slots::SlotContents;
use crate::round_table::view::View;
use atomic_table::{Play, Split};
use std::marker::PhantomData;

/// A seat makes another, of a party that is out.
pub(crate) struct NewSeat;

impl<N> Split<View<N>> for NewSeat {
    ghost left = { same_view };

    ghost right = { new_view };
}

/// The barrier word is read.
pub(crate) struct Loads;

impl<S, N> Play<S, View<N>> for Loads {
    ghost then = { LoadTells };
}

pub(crate) struct Joins;

impl<S, N> Play<S, View<N>> for Joins {
    ghost then = { JoinTells };
}

pub(crate) struct Arrives;

impl<S, N> Play<S, View<N>> for Arrives {
    ghost then = { ArrivalTells };
}

/// A seat that waits reads the barrier word.
pub(crate) struct Looks;

impl<S, N> Play<S, View<N>> for Looks {
    ghost then = { LookTells };
}

pub(crate) struct Leaves;

impl<S, N> Play<S, View<N>> for Leaves {
    ghost then = { LeaveTells };
}

pub(crate) struct Exits;

impl<S, N> Play<S, View<N>> for Exits {
    ghost then = { ExitTells };
}

/// The closer reads the barrier word.
pub(crate) struct CloserReads;

impl<S, N> Play<S, View<N>> for CloserReads {
    ghost then = { CloserReadTells };
}

pub(crate) struct Clears;

impl<S, N> Play<S, View<N>> for Clears {
    ghost then = { ClearTells };
}

pub(crate) struct Ends;

impl<S, N> Play<S, View<N>> for Ends {
    ghost then = { EndTells };
}

/// The published word is read.
pub(crate) struct Learns;

impl<S, N> Play<S, View<N>> for Learns {
    ghost then = { LearnTells };
}

pub(crate) struct Fills;

impl<S, N> Play<S, View<N>> for Fills {
    ghost then = { FillTells };
}

pub(crate) struct Publishes;

impl<S, N> Play<S, View<N>> for Publishes {
    ghost then = { PublishTells };
}

pub(crate) struct PublishesTry;

impl<S, N> Play<S, View<N>> for PublishesTry {
    ghost then = { PublishTryTells };
}

/// A range is read.
pub(crate) struct Searches;

impl<S, N> Play<S, View<N>> for Searches {
    ghost then = { SearchTells };
}

/// The remainder is read.
pub(crate) struct ReadsRemainder;

impl<S, N> Play<S, View<N>> for ReadsRemainder {
    ghost then = { RemainderReadTells };
}

/// A range is read, for what is left in it.
pub(crate) struct Finds;

impl<S, N> Play<S, View<N>> for Finds {
    ghost then = { FindTells };
}

/// The remainder is read, for what is left in it.
pub(crate) struct FindsRemainder<D: SlotContents> {
    of: PhantomData<D>,
}

impl<D: SlotContents> Play<D::Slot, View<D::Note>> for FindsRemainder<D> {
    ghost then = { FindRestTells D.discipline };
}

/// A member that knows the number reads the published word.
pub(crate) struct Recalls;

impl<S, N> Play<S, View<N>> for Recalls {
    ghost then = { RecallTells };
}

pub(crate) struct Claims<D: SlotContents> {
    of: PhantomData<D>,
}

impl<D: SlotContents> Play<D::Slot, View<D::Note>> for Claims<D> {
    ghost then = { ClaimTells D.discipline };
}

pub(crate) struct Steals<D: SlotContents> {
    of: PhantomData<D>,
}

impl<D: SlotContents> Play<D::Slot, View<D::Note>> for Steals<D> {
    ghost then = { StealTells D.discipline };
}

pub(crate) struct ClaimsRemainder<D: SlotContents> {
    of: PhantomData<D>,
}

impl<D: SlotContents> Play<D::Slot, View<D::Note>> for ClaimsRemainder<D> {
    ghost then = { RemainderClaimTells D.discipline };
}

pub(crate) struct TakesShare<D: SlotContents> {
    of: PhantomData<D>,
}

impl<D: SlotContents> Play<D::Slot, View<D::Note>> for TakesShare<D> {
    ghost then = { ShareTells D.discipline };
}

pub(crate) struct Finishes<D: SlotContents> {
    of: PhantomData<D>,
}

impl<D: SlotContents> Play<D::Slot, View<D::Note>> for Finishes<D> {
    ghost then = { FinishTells D.discipline };
}

pub(crate) struct Stops;

impl<S, N> Play<S, View<N>> for Stops {
    ghost then = { StopTells };
}

/// The word `stopped` is read.
pub(crate) struct Sees;

impl<S, N> Play<S, View<N>> for Sees {
    ghost then = { SeeTells };
}

pub(crate) struct PutsBack;

impl<S, N> Play<S, View<N>> for PutsBack {
    ghost then = { PutBackTells };
}

/// The leader takes every slot out.
pub(crate) struct TakesOut<D: SlotContents> {
    of: PhantomData<D>,
}

impl<D: SlotContents> Play<D::Slot, View<D::Note>> for TakesOut<D> {
    ghost then = { TakeOutTells D.discipline };
}

/// The leader gives back the slots that it holds.
pub(crate) struct GivesBack<D: SlotContents> {
    of: PhantomData<D>,
}

impl<D: SlotContents> Play<D::Slot, View<D::Note>> for GivesBack<D> {
    ghost then = { GiveBackTells D.discipline };
}
