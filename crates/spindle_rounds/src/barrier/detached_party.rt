//! A party at a barrier, without the way to the barrier: what it keeps while it borrows nothing.
ghost use Rattle.std.specs.Prelude.{◌≡◌};
ghost use Rattle.std.specs.Borrow.{sem};
ghost use Rattle.spindle_rounds.specs.Seats.{LendsDetachedSeat};
ghost use Rattle.spindle_rounds.specs.DetachedParties.{IsSameParty};

use crate::barrier::Barrier;
use crate::round::Round;
use crate::round_table::Seat;
use crate::round_table::slots::SlotContents;

/// What a party holds of its own. At its barrier it is that party again.
#[derive(Drop)]
pub struct DetachedParty<D: SlotContents> {
    seat: Seat<D>,
    sense: u64,
    is_member: bool,
    thread_id: usize,
}

impl<'a, D: SlotContents> Barrier<'a, D> {
    /// The party without its barrier.
    pub fn part(self) -> DetachedParty<D>
        ensures { IsSameParty self.entry result }
    {
        let Barrier {
            init: _,
            seat,
            sense,
            is_member,
            thread_id,
        } = self;
        DetachedParty {
            seat,
            sense,
            is_member,
            thread_id,
        }
    }
}

impl<D: SlotContents> DetachedParty<D> {
    /// The party's seat, for the calls of `Round`.
    pub fn seat(&mut self) -> &mut Seat<D>
        ensures* writes_back { sem 𝓛
            (LendsDetachedSeat D.row D.Slot.row D.Note.row D.SlotContents self.entry result) }
        ensures value { result.now ≡ self.old.seat }
    {
        &mut self.seat
    }
}

impl<D: SlotContents> Round<D> {
    /// The party at the barrier of this table.
    pub fn resume(&self, party: DetachedParty<D>) -> Barrier<'_, D>
        ensures party { IsSameParty result party }
        ensures barrier { result.init.now ≡ self.now.init }
    {
        let DetachedParty {
            seat,
            sense,
            is_member,
            thread_id,
        } = party;
        Barrier {
            init: &self.init,
            seat,
            sense,
            is_member,
            thread_id,
        }
    }
}
