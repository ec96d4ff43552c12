//! A lock that a job opened, as it stands in a child slot of the outer lock.
ghost use Rattle.std.specs.Prelude.{◌≡◌, ◌<◌, IfOk, OnErr, IsErrOf, All};
ghost use Rattle.std.specs.Arc.{arc_value};
ghost use Rattle.spindle_rounds.specs.SpareSeats.{AreSpareSeatsAt};
ghost use Rattle.spindle_rounds.specs.Opening.{AreSeatsAt};
ghost use denote.Param.Send.{IsSync};

use crate::job::gate::NoGate;
use crate::lock::helper::help;
use crate::lock::nested::child_lease::{ChildSlot, make_child_slots, serve_child_slots};
use crate::lock::workspace::{Opens, TakesPart, Workspace};
use crate::prelude::*;
use spindle_parts::aarc_imp::Fits;
use spindle_rounds::round::Round;
use spindle_rounds::round_table::slots::{Bare, SlotContents};
use spindle_rounds::threads::ThreadCounts;
use spindle_rounds::threads::limits::Idling;
use spindle_rounds::threads::seats::{Seats, SpareSeats};
use spindle_rounds::threads::signals::Signals;
use spindle_rounds::threads::tables::Tables;
use std::marker::PhantomData;
use std::sync::Arc;

/// What the threads of a nested lock share: its tables, its workspace, and seats for its helpers.
#[derive(Drop)]
pub struct Nested<K: Job> {
    pub(crate) tables: Tables<Bare>,
    workspace: Workspace<K>,
    spare_seats: Vec<SpareSeats<Bare>>,
    ghost seated: { All (AreSpareSeatsAt tables) spare_seats.items },
}

/// A lock that stands in a child slot, whatever its kind: idle helpers of the outer lock may live in it.
pub trait TakesHelpers {
    /// Lives as one of its helpers. Where it has no seats for another one, that life ends at once.
    fn help<H: Threads + Wait + Sync>(&self, rt: &H, alloc: Global)
        requires { IsSync H.row };
}

/// Lives as a helper of a nested lock, with spare seats of it; where it has none, that life ends at once.
pub fn help_from<D: SlotContents, J: Job, L: TakesPart<J, D>, H: Threads + Wait + Sync>(
    rt: &H,
    alloc: Global,
    tables: &Tables<D>,
    workspace: &L,
    spare_seats: &[SpareSeats<D>],
)
    requires sync { IsSync H.row }
    requires spare_seats { All (AreSpareSeatsAt tables.now) spare_seats.now }
{
    let gate = NoGate;
    for spare in spare_seats {
        if let Some(helper_seats) = spare.take(tables) {
            let seats = help::<D, J, L, NoGate>(rt, alloc, helper_seats, workspace, &gate);
            spare.give(tables, seats);
            return;
        }
    }
}

/// A share of a nested lock of type N, which is `Nested<K>` for a kind of job K whose pieces stand in trays.
///
/// Neither the struct nor its fact has a bound on N, so that locks may be nested to any depth that the checker covers.
#[derive(Drop)]
pub struct Child<N> {
    /// The lock.
    pub shared: Arc<N>,
}

/// Any child may stand in any slot: that it is a lock in order is kept by its type.
impl<N> Fits for Child<N> {
    type Tag = ();

    ghost fits = { λ tag child. Unit {0} };
}

impl<N> Child<N> {
    /// Another share, unless there are too many.
    pub(crate) fn again(&self) -> Option<Child<N>> {
        match Arc::try_clone(&self.shared) {
            Ok(shared) => Some(Child { shared }),
            Err(_) => None,
        }
    }
}

impl<K: Job> Child<Nested<K>> {
    /// A nested lock, with its leader's seats.
    pub(crate) fn open(
        alloc: Global,
        counts: ThreadCounts,
        idling: Idling,
    ) -> Result<(Child<Nested<K>>, Seats<Bare>), Fault>
        ensures seats { IfOk result (λ t. AreSeatsAt (arc_value t.0.shared).tables t.1) }
        ensures counts { IfOk result (λ t. (arc_value t.0.shared).tables.counts ≡ counts) }
        ensures idling { IfOk result (λ t. (arc_value t.0.shared).tables.sleep.idling ≡ idling) }
        ensures memory { OnErr result (IsErrOf result Fault.Memory) }
    {
        let workspace = <K as Opens<Workspace<K>>>::open(alloc, counts.threads())?;
        let (round, seat) = Round::new(alloc, counts.threads())?;
        let child_slots = K::Inner::child_slot_count(counts.threads());
        let (tables, mut seats) = Tables::new(alloc, counts, idling, child_slots, round, seat)?;
        let spare_seats = tables.spare_seats(alloc, &mut seats)?;
        let shared = Arc::new(
            alloc,
            Nested {
                tables,
                workspace,
                spare_seats,
            },
        )?;
        Ok((Child { shared }, seats))
    }

    pub(crate) fn workspace(&self) -> &Workspace<K> {
        &self.shared.workspace
    }

    pub(crate) fn tables(&self) -> &Tables<Bare>
        ensures { result.now ≡ (arc_value self.now.shared).tables }
    {
        &self.shared.tables
    }
}

impl<K: Job> TakesHelpers for Nested<K> {
    fn help<H: Threads + Wait + Sync>(&self, rt: &H, alloc: Global) {
        let spare_seats = self.spare_seats.as_slice();
        help_from::<_, K, Workspace<K>, H>(rt, alloc, &self.tables, &self.workspace, spare_seats);
    }
}

/// Nested locks over jobs of kind K.
pub struct Under<K> {
    kind: PhantomData<K>,
}

impl<K: Job> Nest for Under<K> {
    type ChildSlots = Vec<ChildSlot<Nested<K>>>;

    fn child_slot_count(threads: usize) -> usize {
        threads
    }

    fn make(alloc: Global, threads: usize) -> Result<Vec<ChildSlot<Nested<K>>>, Fault> {
        make_child_slots(alloc, threads)
    }

    fn serve<H: Threads + Wait + Sync>(
        rt: &H,
        alloc: Global,
        child_slots: &Vec<ChildSlot<Nested<K>>>,
        signals: &mut Signals<'_>,
    ) {
        serve_child_slots(rt, alloc, child_slots, signals);
    }
}
