//! Locks: a caller opens one for a kind of job, and hands lists of items to its rounds. All that a user names of locks is given
//! out here.
//!
//! Locks with slots: `slot_root` has how they open and close, `slot_leader` what both kinds of their leader share, `slot_rounds` and
//! `place_rounds` their rounds, which `spindle_locks` plays, and `nested` how a job opens them. `lock_of` has the calls that open a
//! lock under the name of their kind of job. Locks for one call: `one_round` opens one for a round, `folds` for the total of a list.
//! `attempts` has the rounds in place that may stop.

mod attempt;
mod attempts;
pub(crate) mod folds;
mod lock_of;
mod nested;
mod one_round;
pub(crate) mod place_rounds;
mod slot_leader;
mod slot_root;
mod slot_rounds;

pub use self::attempt::Attempt;
pub use self::attempts::{Attempting, AttemptsOf, try_one};
pub(crate) use self::folds::reduce_once;
pub use self::folds::{Combine, Folds, Part, reduce};
pub use self::lock_of::LockOf;
pub use self::nested::{PieceChildSlots, UnderInPlace, UnderPieces, UnderSlots};
pub use self::one_round::{run_one, update_one};
pub use self::place_rounds::PlaceLeader;
pub use self::slot_leader::SlotLeader;
pub use self::slot_root::with_slots;
pub use spindle_locks::job::context::JobCx;
pub use spindle_locks::job::gate::{Gate, NoGate};
pub use spindle_locks::job::nest::{End, Nest};
pub use spindle_locks::job::update::{InPlace, Update, Updates};
pub use spindle_locks::job::{Job, TellsFailures};
pub use spindle_locks::leader_states::leader_state::LeaderState;
pub use spindle_locks::leader_states::opens_slots::{MakesSlots, OpensSlots};
pub use spindle_locks::lock::leader::Leader;
pub use spindle_locks::lock::nested::Under;
pub use spindle_locks::lock::pool::Pool;
pub use spindle_locks::lock::root::with_lock;
pub use spindle_locks::lock::rounds::{ChunkRounds, RunsRounds};
pub use spindle_locks::lock::workspace::{Opens, Workspace};
pub use spindle_locks::pieces::finished::Finished;
pub use spindle_locks::pieces::gathering::gather;
pub use spindle_locks::pieces::of_kind::{ChunkOf, PieceOf};
pub use spindle_locks::pieces::report::Report;
pub use spindle_locks::running::in_place::{PlaceLeaderState, PlaysInPlace};
pub use spindle_locks::running::in_slots::SlotWorkspace;
pub use spindle_locks::running::over_lists::{PlaysPieces, SlotLeaderState};
pub use spindle_rounds::threads::limits::Limits;
