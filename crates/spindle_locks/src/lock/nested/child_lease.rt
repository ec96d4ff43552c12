//! The child slots of a lock, whatever the kind of the locks that stand there: how a job puts the lock there that it opens, how a helper
//! walks over them, and how such a lock closes.
//!
//! It closes in one order: exit is announced, the places that nobody took are closed, the leader leaves, and the slot is cleared once no
//! guard is out. A helper's guard is out for its whole life in the lock, which ends once it sees the announcement. Types force this order.
//! Each step takes what the step before it has made, which nothing else makes and which can't be dropped: `Dismissed`, `Closed`, `Left`.
ghost use Rattle.std.specs.Prelude.{◌≡◌, ◌<◌, ◌≤◌, IfSome, OnErr, IsErrOf, vec_len};
ghost use denote.Param.Send.{IsSync};
ghost use Rattle.spindle_rounds.specs.Accounts.{IsSameThread};
ghost use Rattle.spindle_parts.specs.declared.requests.plays.Account.{Account};
ghost use Rattle.spindle_rounds.specs.Signals.{AnnouncedExit};

use crate::lock::nested::child::{Child, TakesHelpers};
use crate::prelude::*;
use crossbeam_utils::CachePadded;
use spindle_parts::aarc_imp::AtomicArc;
use spindle_rounds::threads::signals::{HelperRequest, OpenPlaces, Signals};
use spindle_rounds::threads::sleep::Sleep;

/// A slot for nested locks of type N.
pub type ChildSlot<N> = CachePadded<AtomicArc<Child<N>>>;

/// A child slot in which a lock stands, with the helpers that were asked for. It can't be dropped, but closed.
pub struct ChildLease<'a, N> {
    open_places: OpenPlaces<'a>,
    slot: &'a AtomicArc<Child<N>>,
}

impl<'a, N: Drop> ChildLease<'a, N> {
    /// Where a slot is free, puts the lock there, opens places for the helpers that were asked for, and wakes who sleeps. Where none is,
    /// nothing is asked for any more.
    pub fn take<H: Wait>(
        rt: &H,
        child_slots: &'a Vec<ChildSlot<N>>,
        child: &Child<N>,
        request: HelperRequest<'a>,
        sleep: &Sleep,
    ) -> Option<ChildLease<'a, N>> {
        let Some(slot) = find_child_slot(child_slots, child, request.child_slots()) else {
            drop(request.withdraw());
            return None;
        };
        let open_places = request.install(slot);
        sleep.wake(rt);
        Some(ChildLease {
            open_places,
            slot: &child_slots[slot],
        })
    }

    /// Closes the places that nobody took, once the lock's leader has told its helpers to end.
    pub(crate) fn close<T: Leads>(self, dismissed: Dismissed<T>) -> Closed<'a, T, N> {
        let ChildLease { open_places, slot } = self;
        let Dismissed { leader } = dismissed;
        drop(open_places.close());
        Closed { leader, slot }
    }
}

// The first free slot, in which a share of the lock stands from now on.
//
// A lock of t threads has t slots, and so there is one: at most t - i threads look at slot i or have a lock there or behind it, since
// a thread looks past slot i only while another thread's lock stands there, and has one lock in these slots at most. No type says so,
// and a share may be refused too: None stands for both.
fn find_child_slot<N: Drop>(
    child_slots: &Vec<ChildSlot<N>>,
    child: &Child<N>,
    places: usize,
) -> Option<usize>
    ensures { IfSome result (λ slot. (slot < vec_len child_slots.now) × (slot < places)) }
{
    let mut share = child.again()?;
    for number in 0..child_slots.len().min(places) {
        share = match child_slots[number].compare_exchange_null(share) {
            Ok(()) => return Some(number),
            Err(back) => back,
        };
    }
    None
}

/// Free slots, as many as a lock has threads.
pub fn make_child_slots<N>(alloc: Global, threads: usize) -> Result<Vec<ChildSlot<N>>, Fault>
    ensures { OnErr result (IsErrOf result Fault.Memory) }
{
    let mut child_slots = Vec::with_capacity(alloc, threads)?;
    for _ in 0..threads {
        child_slots.push_reserved(CachePadded::new(AtomicArc::null(&())));
    }
    Ok(child_slots)
}

/// A helper's walk over the slots, from the first to the last: where it gets a place it lives as a helper of the lock that stands
/// there. Then its seat at the ledger is as before, and answers for no request.
pub fn serve_child_slots<N: TakesHelpers, H: Threads + Wait + Sync>(
    rt: &H,
    alloc: Global,
    child_slots: &Vec<ChildSlot<N>>,
    signals: &mut Signals<'_>,
)
    requires { IsSync H.row }
    ensures { IsSameThread signals.old signals.new }
{
    for number in 0..child_slots.len().min(signals.child_slots()) {
        serve_slot(rt, alloc, &child_slots[number], number, signals);
    }
}

// Lives as a helper of the lock that stands in the slot, if there is a place.
fn serve_slot<N: TakesHelpers, H: Threads + Wait + Sync>(
    rt: &H,
    alloc: Global,
    slot: &AtomicArc<Child<N>>,
    number: usize,
    signals: &mut Signals<'_>,
)
    requires sync { IsSync H.row }
    requires slot { number < signals.old.child_slots }
    ensures { IsSameThread signals.old signals.new }
{
    let Some(guard) = slot.load() else {
        return;
    };
    if !signals.takes_place(number) {
        guard.leave();
        return;
    }
    guard.get().shared.help(rt, alloc);
    guard.leave();
}

/// The leader of a lock, as it ends.
pub trait Leads {
    /// What its seat at the lock's ledger knows, with the trail of its own steps.
    ghost account: { Self → Account };

    /// Tells the helpers to end, and wakes them.
    fn dismiss<H: Wait>(&mut self, rt: &H)
        ensures told { AnnouncedExit (account self.old) (account self.new) };

    /// Leaves the lock's barrier.
    fn leave<H: Wait>(self, rt: &H);
}

/// A leader that has told its helpers to end.
pub struct Dismissed<T> {
    leader: T,
}

/// Such a leader, after the places that nobody took are closed.
pub struct Closed<'a, T, N> {
    leader: T,
    slot: &'a AtomicArc<Child<N>>,
}

/// The child slot of a lock whose leader has left.
pub struct Left<'a, N> {
    slot: &'a AtomicArc<Child<N>>,
}

impl<T: Leads> Dismissed<T> {
    // The leader tells its helpers to end.
    fn new<H: Wait>(rt: &H, mut leader: T) -> Dismissed<T> {
        leader.dismiss(rt);
        Dismissed { leader }
    }
}

impl<'a, T: Leads, N> Closed<'a, T, N> {
    // The leader leaves.
    fn leave<H: Wait>(self, rt: &H) -> Left<'a, N> {
        let Closed { leader, slot } = self;
        leader.leave(rt);
        Left { slot }
    }
}

impl<'a, N: Drop> Left<'a, N> {
    // Clears the slot.
    fn clear<H: Wait>(self, rt: &H) {
        let Left { slot } = self;
        drop(slot.clear(rt));
    }
}

/// Closes a lock that stands in a child slot.
pub fn close<T: Leads, N: Drop, H: Wait>(rt: &H, leader: T, child_lease: ChildLease<'_, N>) {
    child_lease
        .close(Dismissed::new(rt, leader))
        .leave(rt)
        .clear(rt);
}
