//! A pool: how many threads its locks may have, how they idle, and whom they tell of their jobs.
ghost use Rattle.std.specs.Prelude.{◌≡◌, ◌<◌, IsNone};

use crate::job::gate::{Gate, NoGate};
use rayon::current_num_threads;
use spindle_rounds::threads::limits::{Idling, Limits};
use std::marker::Model;
use std::thread::Threads;

/// What a root lock is opened with. It holds no threads: each lock starts its own, and joins them when it closes. It
/// stands where spindle asks rayon's global pool for its size.
#[derive(Drop)]
pub struct Pool<G: Gate> {
    threads: usize,
    idling: Idling,
    gate: G,
    starts: usize,
}

impl<G: Gate> Model for Pool<G> {
    ghost use Rattle.std.specs.Prelude.{◌<◌};
    ghost use Rattle.spindle_locks.specs.Locks.{PoolView};

    ghost Value = { PoolView };

    ghost view = { λ p. record { threads = p.threads; patience = p.idling.patience } };

    ghost invariant = { λ p. 0 < p.threads };
}

impl<G: Gate> Pool<G> {
    /// A pool of so many threads, a leader counted.
    pub fn new(threads: usize, limits: Limits, gate: G) -> Pool<G>
        requires { 0 < threads }
        ensures threads { result.threads ≡ threads }
        ensures patience { result.patience ≡ 0 }
    {
        Pool::with_starts(threads, limits, gate, threads)
    }

    /// A pool whose locks start only the first so many helpers; the others count as threads that couldn't be
    /// started. It shows what a lock answers on a machine that gives it fewer threads.
    pub fn with_starts(threads: usize, limits: Limits, gate: G, starts: usize) -> Pool<G>
        requires { 0 < threads }
        ensures threads { result.threads ≡ threads }
        ensures patience { result.patience ≡ 0 }
    {
        let idling = Idling {
            limits,
            patience: 0,
        };
        Pool {
            threads,
            idling,
            gate,
            starts,
        }
    }

    /// The same pool, in whose locks, and in those that their jobs open, so many pauses of each wait pass before a helper looks
    /// whether locks that jobs opened ask for it; it looks before it sleeps too. Where nothing is said each look is at that.
    ///
    /// So a lock that a job opens for a moment stays its leader's alone, who is done with it sooner so.
    pub fn with_patience(mut self, pauses: u32) -> Pool<G>
        ensures threads { result.threads ≡ self.threads }
        ensures patience { result.patience ≡ pauses }
    {
        self.idling.patience = pauses;
        self
    }

    /// The pool's threads.
    pub fn current_num_threads(&self) -> usize
        ensures { result ≡ self.now.threads }
    {
        self.max_num_threads()
    }

    /// The pool's threads.
    pub fn max_num_threads(&self) -> usize
        ensures number { result ≡ self.now.threads }
        ensures some { 0 < result }
    {
        self.threads
    }

    /// None: outside a lock no thread has a number.
    pub fn current_thread_index(&self) -> Option<usize>
        ensures { IsNone result }
    {
        None
    }

    /// Whom its locks tell of each job before and after it.
    pub fn gate(&self) -> &G {
        &self.gate
    }

    /// How the threads of its locks idle.
    pub fn idling(&self) -> Idling
        ensures { result.patience ≡ self.now.patience }
    {
        self.idling
    }

    /// How many helpers a lock of so many threads starts.
    pub fn helpers(&self, threads: usize) -> usize
        requires { 0 < threads }
        ensures { result < threads }
    {
        self.starts.min(threads - 1)
    }
}

impl Pool<NoGate> {
    /// A pool of as many threads as std says that this process may run at once, or of one where it can't tell; with
    /// the default limits and no gate. That is the size of rayon's global pool, which spindle's locks have.
    pub fn of_machine<H: Threads>(rt: &H) -> Pool<NoGate> {
        Pool::new(current_num_threads(rt), Limits::new(), NoGate)
    }
}
