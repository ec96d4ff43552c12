//! Why the program stops before its end: the texts on standard error, and the exit statuses.
ghost use Rattle.std.specs.Prelude.{◌≡◌};
ghost use Rattle.spindle_commands.specs.Stop.{stop_for, status_of};
ghost use Rattle.spindle_commands.specs.declared.stop.Stop.TheVariants.{Memory};

use spindle::prelude::*;
use thiserror::Error;

/// What the program stops for. Its text is the line on standard error.
#[derive(Clone, Copy, Debug, PartialEq, Eq, Error)]
pub enum Stop {
    /// Words that name no command, too few or too many, or a number out of its range.
    #[error("bad words")]
    Words,
    /// A line that is no step, counted from 1. The answers before it stand.
    #[error("bad line {0}")]
    Line(u64),
    /// A growth was refused.
    #[error("no memory")]
    Memory,
    /// A round lost this piece.
    #[error("lost piece {0}")]
    Lost(usize),
    /// The input answered an error.
    #[error("input failed")]
    Input,
    /// The output is closed, or answered an error.
    #[error("output failed")]
    Output,
}

impl Stop {
    /// The exit status: 2 for what a user wrote, 1 for what failed.
    pub fn status(&self) -> u8
        ensures { result ≡ status_of self.now }
    {
        match self {
            Stop::Words | Stop::Line(_) => 2,
            _ => 1,
        }
    }
}

impl From<Fault> for Stop {
    ghost from_gives = { λ fault stop. stop ≡ stop_for fault };

    fn from(fault: Fault) -> Stop {
        match fault {
            Fault::Memory => Stop::Memory,
            Fault::Lost(number) => Stop::Lost(number),
        }
    }
}

impl From<AllocError> for Stop {
    ghost from_gives = { λ _ stop. stop ≡ Memory };

    fn from(_e: AllocError) -> Stop {
        Stop::Memory
    }
}
