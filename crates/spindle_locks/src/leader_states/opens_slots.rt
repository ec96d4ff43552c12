//! What the leader of a lock with slots is known by.
//!
//! A closure's bound can name neither a table nor a party at one, nor a type that keeps a fact about a kind of job. So the leader
//! knows its state as a type P of which only the calls of `OpensSlots<P>` are known.
ghost use Rattle.std.specs.Prelude.{◌≡◌, ℕ, ◌≤◌, OnErr, IsErrOf, IsSome};
ghost use Rattle.std.specs.Option.{ForSome};
ghost use Rattle.spindle_rounds.specs.declared.round_table.view.View.{View};
ghost use Rattle.spindle_rounds.specs.RoundConditions.{MayFill};

use crate::leader_states::leader_state::LeaderSeats;
use crate::prelude::*;
use spindle_rounds::round_table::pieces::PieceSlots;
use spindle_rounds::round_table::slots::SlotContents;
use spindle_rounds::threads::sleep::Sleep;

/// The kinds of jobs whose locks with slots have a leader's state of type P. Each kind of job has one, `SlotLeaderState<J>`, which a
/// caller leaves to the compiler; the trait's calls are the library's own, and who names `spindle` alone can't implement it, since it
/// doesn't give out `Sleep`.
pub trait OpensSlots<P>: Job {
    /// What a party notes of the piece that it has begun.
    type Note;

    /// What the leader's seat at the round table knows, with the trail of its own steps.
    ghost view: { P → View Self.Note };

    /// How many slots there are.
    ghost slot_count: { P → ℕ };

    /// How many slots there are.
    fn slots(state: &P) -> usize
        ensures number { result ≡ Self.OpensSlots.slot_count state.now }
        ensures range { (1 ≤ result) × (result ≤ 4294967295) }
        ensures between { MayFill (Self.OpensSlots.view state.now) };

    /// Where the lock's threads sleep.
    fn sleep(state: &P) -> &Sleep;

    /// Leaves the lock's barrier.
    fn leave<H: Wait>(rt: &H, state: P);
}

/// How such a lock is made, where its round table has D's slots. Each kind of job has one D, `PieceSlots<PieceOf<J>>`.
pub trait MakesSlots<P, D: SlotContents, L>: OpensSlots<P> {
    /// The workspace of a lock of so many threads.
    fn workspace(alloc: Global, threads: usize) -> Result<L, Fault>
        ensures { OnErr result (IsErrOf result Fault.Memory) };

    /// The state of a leader that has joined its barrier, and has done nothing with the slots.
    fn settle(leader_seats: &mut Option<LeaderSeats<D>>) -> P
        requires { IsSome leader_seats.old }
        ensures { ForSome leader_seats.old (λ n. Self.OpensSlots.slot_count result ≡ n.share.slots) };
}
