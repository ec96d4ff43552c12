//! Why a lock or a round is refused.
ghost use Rattle.std.specs.Prelude.{◌≡◌};
ghost use Rattle.spindle_parts.specs.declared.fault.Fault.TheVariants.{Memory};

use std::alloc::{AllocError, AllocFailed};
use thiserror::Error;

/// What a lock, a round or a list of pieces is refused for.
///
/// It stands for the panics and the aborts of spindle.
#[derive(Clone, Copy, Debug, PartialEq, Eq, Error)]
pub enum Fault {
    /// A growth was refused before anything was published, so no job has run.
    #[error("no memory")]
    Memory,
    /// The least number of a piece that is missing after its round, or isn't the one handed in.
    #[error("lost piece {0}")]
    Lost(usize),
}

impl<T: Drop> From<AllocFailed<T>> for Fault {
    ghost from_gives = { λ _ e. e ≡ Memory };

    fn from(_e: AllocFailed<T>) -> Fault {
        Fault::Memory
    }
}

impl From<AllocError> for Fault {
    ghost from_gives = { λ _ e. e ≡ Memory };

    fn from(_e: AllocError) -> Fault {
        Fault::Memory
    }
}
