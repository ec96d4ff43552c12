//! The pauses of a thread that waits for another one's step: short ones between its first looks, and yields later.

use crossbeam_utils::Backoff;
use std::hint::spin_loop;

/// How many looks come before the thread begins to yield.
const LOOKS: u32 = 64;

/// How many pauses there are between two of them. So a look disturbs the thread that is waited for seldom, and comes soon after
/// its step.
const PAUSES: u32 = 8;

/// The pauses of one thread, from its first look on.
#[derive(Drop)]
pub struct Pauses {
    looks: u32,
    backoff: Backoff,
}

impl Pauses {
    /// The pauses of a thread that begins to wait.
    pub fn new() -> Pauses {
        Pauses {
            looks: LOOKS,
            backoff: Backoff::new(),
        }
    }

    /// Passes the time to the next look.
    pub fn pause(&mut self) {
        if self.looks > 0 {
            self.looks -= 1;
            for _ in 0..PAUSES {
                spin_loop();
            }
        } else {
            self.backoff.snooze();
        }
    }
}
