//! How idle threads of a lock wait: turns of pauses between two looks, then sleep until somebody has changed a word.
//!
//! Who changes a word that idle threads wait for stores it first, then takes their mutex, and wakes all who sleep by then. A thread
//! that is about to sleep looks once more while it holds the mutex, so no change is missed. Those who wait for news and those who
//! wait for a round's end have a mutex each: the leader's publish takes one, and whoever ends the round the other.
ghost use Rattle.std.specs.Prelude.{◌≡◌, ◌+◌, ◌<◌, ◌≤◌, max, min, false, true, IsNone, IsSome};

use crate::threads::limits::Idling;
use crossbeam_utils::CachePadded;
use std::hint::spin_loop;
use std::sync::{Condvar, Mutex, MutexGuard, Wait};
use std::thread;

/// So many turns pass before a wait yields the processor for the first time, and as many as before until it does so again.
const QUIET_TURNS: u32 = 64;

/// Where the idle threads of a lock sleep.
#[derive(Drop)]
pub struct Sleep {
    idling: Idling,
    alone: bool,
    news: CachePadded<Sleepers>,
    end: CachePadded<Sleepers>,
}

// How many sleep, behind the mutex of those who are about to. Whoever wakes them writes here, so it shares no cache line with what
// waiting threads read, nor with the other sleepers.
#[derive(Drop)]
struct Sleepers {
    asleep: Mutex<usize>,
    changed: Condvar,
}

impl Sleepers {
    fn new() -> Sleepers {
        Sleepers {
            asleep: Mutex::new(0),
            changed: Condvar::new(),
        }
    }

    // Wakes all who sleep here.
    fn wake<H: Wait>(&self, rt: &H) {
        let asleep = *self.asleep.lock(rt);
        if asleep > 0 {
            self.changed.notify_all();
        }
    }

    // Sleeps until somebody has changed a word, counted among the sleepers meanwhile.
    fn sleep<'a, H: Wait>(
        &'a self,
        rt: &H,
        mut guard: MutexGuard<'a, usize>,
    ) -> MutexGuard<'a, usize> {
        *guard = guard.wrapping_add(1);
        let mut guard = self.changed.wait(rt, guard);
        *guard = guard.wrapping_sub(1);
        guard
    }
}

impl Sleep {
    /// A place to sleep for threads that idle so. A thread that is alone wakes nobody.
    pub fn new(idling: Idling, alone: bool) -> Sleep
        ensures { result.idling ≡ idling }
    {
        Sleep {
            idling,
            alone,
            news: CachePadded::new(Sleepers::new()),
            end: CachePadded::new(Sleepers::new()),
        }
    }

    /// How threads idle here.
    pub fn idling(&self) -> Idling
        ensures { result ≡ self.now.idling }
    {
        self.idling
    }

    /// Wakes all who sleep, whatever they wait for. A word was changed before.
    pub fn wake<H: Wait>(&self, rt: &H) {
        self.wake_for_news(rt);
        self.wake_for_end(rt);
    }

    /// Wakes those who wait for a round, for requests, or for the announcement of exit. A word was changed before.
    pub fn wake_for_news<H: Wait>(&self, rt: &H) {
        if !self.alone {
            self.news.wake(rt);
        }
    }

    /// Wakes those who wait for a round's end. The round was ended before.
    pub fn wake_for_end<H: Wait>(&self, rt: &H) {
        if !self.alone {
            self.end.wake(rt);
        }
    }

    /// The pauses of a thread that begins to wait for a round, for requests, or for the announcement of exit.
    pub fn idle_until_news(&self) -> Idle<'_>
        ensures { (result.patience ≡ self.now.idling.patience) × (result.waited ≡ 0) }
    {
        self.idle(&self.news)
    }

    /// The pauses of a thread that begins to wait for a round's end.
    pub fn idle_until_end(&self) -> Idle<'_>
        ensures { (result.patience ≡ self.now.idling.patience) × (result.waited ≡ 0) }
    {
        self.idle(&self.end)
    }

    fn idle<'a>(&self, sleepers: &'a Sleepers) -> Idle<'a>
        ensures { (result.patience ≡ self.now.idling.patience) × (result.waited ≡ 0) }
    {
        let Idling { limits, patience } = self.idling;
        Idle {
            sleepers,
            pauses: limits.pause,
            turns: limits.spin / limits.pause.max(1),
            patience,
            turn: 0,
            waited: 0,
            guard: None,
        }
    }
}

/// The pauses of one thread, from its first look on.
#[derive(Drop)]
pub struct Idle<'a> {
    sleepers: &'a Sleepers,
    pauses: u32,
    turns: u32,
    patience: u32,
    turn: u32,
    waited: u32,
    guard: Option<MutexGuard<'a, usize>>,
}

impl<'a> Idle<'a> {
    /// Whether a look is at requests too: once its patience is over, so with none from the first look on, and before it sleeps.
    pub fn looks_at_requests(&self) -> bool
        ensures late { self.now.patience ≤ self.now.waited → result ≡ true }
        ensures last { IsSome self.now.guard → result ≡ true }
        ensures early { self.now.waited < self.now.patience → IsNone self.now.guard
            → result ≡ false }
    {
        self.waited >= self.patience || self.guard.is_some()
    }

    /// Passes the time between two looks. A thread that is told to rest makes no turn.
    pub fn pass<H: Wait>(&mut self, rt: &H, rest: bool)
        ensures { self.new.patience ≡ self.old.patience }
    {
        match self.guard.take() {
            Some(guard) => self.guard = Some(self.sleepers.sleep(rt, guard)),
            None => {
                if rest || self.turn >= self.turns {
                    self.guard = Some(self.sleepers.asleep.lock(rt));
                } else {
                    self.take_turn();
                }
            }
        }
    }

    /// The same where the thread is about to leave, and looks again soon: it makes no turn, and doesn't sleep.
    pub fn pass_or_hurry<H: Wait>(&mut self, rt: &H, hurries: bool)
        ensures { self.new.patience ≡ self.old.patience }
    {
        if hurries {
            drop(self.guard.take());
            self.waited = self.waited.max(self.patience);
            thread::yield_now();
        } else {
            self.pass(rt, false);
        }
    }

    // A turn counts for one pause at least.
    fn take_turn(&mut self)
        requires { self.old.turn < self.old.turns }
        ensures waited { self.new.waited
            ≡ min (self.old.waited + max self.old.pauses 1) 4294967295 }
        ensures patience { self.new.patience ≡ self.old.patience }
    {
        self.turn += 1;
        self.waited = self.waited.saturating_add(self.pauses.max(1));
        for _ in 0..self.pauses {
            spin_loop();
        }
        if self.turn >= QUIET_TURNS && self.turn.is_power_of_two() {
            thread::yield_now();
        }
    }
}
