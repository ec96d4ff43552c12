//! What the jobs of a record are given: how long to go on, and a clock that all of them share, at which each notes its begin and
//! its end.
ghost use Rattle.std.specs.Prelude.{◌≡◌, IfOk, vec_len};

use std::alloc::{AllocError, Global};
use std::hint::spin_loop;
use std::marker::Model;
use std::sync::Arc;
use std::sync::atomic::{AtomicUsize, Ordering};

/// A job goes on for so many turns.
const TURNS: usize = 200000;

/// The turns of a job, with a clock that counts events. It is seen and compared as its turns alone.
#[derive(Drop)]
pub struct Clocked {
    turns: usize,
    events: Arc<AtomicUsize>,
}

/// Who ran a job, and which of all events its begin and its end were.
#[derive(Clone, Copy)]
pub struct Span {
    pub thread: Option<usize>,
    pub begun: usize,
    pub done: usize,
}

impl Model for Clocked {
    ghost use Rattle.std.specs.Prelude.{ℕ};

    ghost Value = { ℕ };

    ghost view = { λ clocked. clocked.turns };
}

impl Clocked {
    /// A clock at which nothing has happened.
    pub fn new(alloc: Global) -> Result<Clocked, AllocError> {
        let events = Arc::new(alloc, AtomicUsize::new(0))?;
        Ok(Clocked {
            turns: TURNS,
            events,
        })
    }

    /// So many of it, all at the same clock.
    pub fn copies(&self, alloc: Global, count: usize) -> Result<Vec<Clocked>, AllocError>
        ensures { IfOk result (λ copies. vec_len copies ≡ count) }
    {
        let mut copies = Vec::new(alloc);
        for _copy in 0..count {
            copies.push(self.clone()?)?;
        }
        Ok(copies)
    }

    /// Goes on for its turns, in this thread.
    pub fn run(&self, thread: Option<usize>) -> Span {
        let begun = self.next_event();
        for _ in 0..self.turns {
            spin_loop();
        }
        let done = self.next_event();
        Span {
            thread,
            begun,
            done,
        }
    }

    // The number of the next event.
    fn next_event(&self) -> usize {
        self.events.fetch_add(1, Ordering::SeqCst)
    }
}

impl Clone for Clocked {
    ghost is_clone = { λ old clone. clone ≡ old };

    fn clone(&self) -> Result<Clocked, AllocError> {
        let events = self.events.clone()?;
        Ok(Clocked {
            turns: self.turns,
            events,
        })
    }
}

impl PartialEq for Clocked {
    ghost use Rattle.std.specs.Prelude.{◌==◌};
    ghost use Rattle.std.specs.Cmp.Rules.{comparing};
    ghost use Rattle.std.proofs.Common.{rules};

    ghost eq = { ◌==◌ };

    ghost laws = { Prim.search (comparing, rules) };

    fn eq(&self, other: &Clocked) -> bool {
        self.turns == other.turns
    }
}

impl Eq for Clocked {
    ghost use Rattle.std.specs.Cmp.Rules.{comparing};
    ghost use Rattle.std.proofs.Common.{rules};

    ghost laws = { Prim.search (comparing, rules) };
}
