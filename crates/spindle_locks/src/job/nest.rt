//! What a job type says of the locks that its jobs may open.
//!
//! A lock over J stands on `J::Inner` alone, and a nest never names the trait of jobs, so that the type of each lock
//! stays finite.
ghost use Rattle.std.specs.Prelude.{OnErr, IsErrOf};
ghost use denote.Param.Send.{IsSync};
ghost use Rattle.spindle_rounds.specs.Accounts.{IsSameThread};

use crate::prelude::*;
use spindle_rounds::threads::signals::Signals;

/// The locks that a job may open. A user names `End` or `Under<K>`, or of the crate above `UnderSlots<K>` or `UnderInPlace<M>`. The
/// trait's calls are the library's own, and who names `spindle` alone can't implement it, since it doesn't give out `Signals`.
pub trait Nest {
    /// Where a lock keeps the locks that its jobs open.
    type ChildSlots: Drop;

    /// How many child slots a lock of so many threads has.
    fn child_slot_count(threads: usize) -> usize;

    /// Slots for a lock of so many threads.
    fn make(alloc: Global, threads: usize) -> Result<Self::ChildSlots, Fault>
        ensures { OnErr result (IsErrOf result Fault.Memory) };

    /// A helper's walk over the slots, from the first to the last: where it gets a place it lives as a helper of the lock that
    /// stands there. Then its seat at the ledger is as before, and answers for no request.
    fn serve<H: Threads + Wait + Sync>(
        rt: &H,
        alloc: Global,
        child_slots: &Self::ChildSlots,
        signals: &mut Signals<'_>,
    )
        requires { IsSync H.row }
        ensures { IsSameThread signals.old signals.new };
}

/// No nested locks.
pub struct End;

impl Nest for End {
    type ChildSlots = ();

    fn child_slot_count(_threads: usize) -> usize {
        0
    }

    fn make(_alloc: Global, _threads: usize) -> Result<(), Fault> {
        Ok(())
    }

    fn serve<H: Threads + Wait + Sync>(
        _rt: &H,
        _alloc: Global,
        _slots: &(),
        _signals: &mut Signals<'_>,
    ) {}
}
