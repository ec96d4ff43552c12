//! Why the program stops early.
use spindle::Fault;
use std::alloc::{AllocError, AllocFailed};
use std::io;

/// Why the program stops early.
#[derive(Debug, Drop)]
pub enum Stop {
    /// A lock, a round or a list was refused.
    Refused(Fault),
    /// The clock, the words or the output could not be read or written.
    System(io::Error),
    /// What was timed after the last line answered something wrong.
    Wrong,
}

impl From<Fault> for Stop {
    fn from(fault: Fault) -> Stop {
        Stop::Refused(fault)
    }
}

impl From<AllocError> for Stop {
    fn from(_error: AllocError) -> Stop {
        Stop::Refused(Fault::Memory)
    }
}

impl<T: Drop> From<AllocFailed<T>> for Stop {
    fn from(_error: AllocFailed<T>) -> Stop {
        Stop::Refused(Fault::Memory)
    }
}

impl From<io::Error> for Stop {
    fn from(error: io::Error) -> Stop {
        Stop::System(error)
    }
}
