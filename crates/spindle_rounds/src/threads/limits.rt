//! How idle threads of a lock wait: how long they pause before they sleep, and when a helper looks whether nested locks ask for it.
ghost use Rattle.std.specs.Prelude.{◌≡◌};

use crate::threads::{DEFAULT_PAUSE_LIMIT, DEFAULT_SPIN_LIMIT};

/// Steers idle pauses alone: no answer and no contract rests on it. It stands for spindle's globals `SPIN_LIMIT`
/// and `PAUSE_LIMIT`.
#[derive(Clone, Copy)]
pub struct Limits {
    /// So many pauses in all, then it sleeps; 0 to sleep at once. Where a lock has more threads than processors, 512 serves
    /// better than the default.
    pub spin: u32,
    /// So many pauses a turn, between two looks; for the number of turns 0 counts as 1.
    pub pause: u32,
}

impl Limits {
    /// The two defaults, for locks with no more threads than processors.
    pub fn new() -> Limits
        ensures spin { result.spin ≡ 65536 }
        ensures pause { result.pause ≡ 8 }
    {
        Limits {
            spin: DEFAULT_SPIN_LIMIT,
            pause: DEFAULT_PAUSE_LIMIT,
        }
    }
}

/// How the threads of a lock idle.
#[derive(Clone, Copy)]
pub struct Idling {
    /// How long they pause.
    pub limits: Limits,
    /// So many pauses of a wait pass before a helper's first look at requests, but that before sleep. With 0 each look is at them.
    pub patience: u32,
}
