//! Several threads at one slot: each child that was put in comes out once, and no answer of a clear comes too early.
ghost use Rattle.std.specs.Prelude.{◌≡◌, ◌<◌};

use super::{Child, drops_of, zeros};
use crate::checks::{holds, is};
use spindle_parts::aarc_imp::AtomicArc;
use std::alloc::{AllocError, Global};
use std::sync::Wait;
use std::sync::atomic::{AtomicU64, Ordering};
use std::test::Fail;
use std::thread;
use std::thread::Threads;

const OWNERS: usize = 3;

const READERS: usize = 2;

const TURNS: usize = 3000;

/// How often a reader looks before it gives up.
const LOOKS: u64 = 10_000_000;

/// The slot with what its threads count.
#[derive(Drop)]
struct Desk<'s, 'a> {
    slot: &'s AtomicArc<Child<'a>>,
    drops: &'a [AtomicU64],
    /// So many threads put children in.
    owners: usize,
    /// Whether readers clear the slot too.
    readers_clear: bool,
    /// The children that were put in, and those that were handed out.
    put_in: AtomicU64,
    handed_out: AtomicU64,
    /// The children that were seen under a guard though they had been dropped, or dropped more or less than once, and the answers that
    /// came too early.
    faults: AtomicU64,
    /// The owners that are done.
    done: AtomicU64,
    ghost room: { slot.now ≡ 1000000 },
}

fn count(counts: &AtomicU64) {
    counts.fetch_add(1, Ordering::SeqCst);
}

impl<'s, 'a> Desk<'s, 'a> {
    fn new(
        slot: &'s AtomicArc<Child<'a>>,
        drops: &'a [AtomicU64],
        owners: usize,
        readers_clear: bool,
    ) -> Desk<'s, 'a>
        requires { slot.now ≡ 1000000 }
        ensures { result.owners ≡ owners }
    {
        Desk {
            slot,
            drops,
            owners,
            readers_clear,
            put_in: AtomicU64::new(0),
            handed_out: AtomicU64::new(0),
            faults: AtomicU64::new(0),
            done: AtomicU64::new(0),
        }
    }

    fn put(&self, number: usize)
        requires { number < 1000000 }
    {
        let child = Child::new(number, self.drops);
        if self.slot.compare_exchange_null(child).is_ok() {
            count(&self.put_in);
        }
    }

    fn clear<R: Wait>(&self, rt: &R) {
        if self.slot.clear(rt).is_some() {
            count(&self.handed_out);
        }
    }

    /// Puts children in and clears the slot, which another owner may have filled or cleared meanwhile. After the clear of a sole owner
    /// the slot is free.
    fn own<R: Wait>(&self, rt: &R, owner: usize)
        requires { owner < 3 }
    {
        for turn in 0..TURNS {
            self.put(OWNERS * turn + owner);
            if turn % 2 == 0 {
                thread::yield_now();
            }
            self.clear(rt);
            if self.owners == 1 && !self.slot.is_free() {
                count(&self.faults);
            }
        }
        count(&self.done);
    }

    /// Looks at the slot until the owners are done.
    fn look<R: Wait>(&self, rt: &R) {
        for _ in 0..LOOKS {
            if self.done.load(Ordering::SeqCst) >= self.owners as u64 {
                break;
            }
            if let Some(guard) = self.slot.load() {
                if drops_of(self.drops, guard.get().number) > 0 {
                    count(&self.faults);
                }
                guard.leave();
            }
            if self.readers_clear {
                self.clear(rt);
            }
        }
    }

    /// The owners, and readers beside them, each in a thread of its own.
    fn share<R: Threads + Wait + Sync>(&self, rt: &R, alloc: Global) -> Result<(), AllocError>
        requires { self.now.owners < 4 }
    {
        let owners = self.owners;
        thread::map_indices(
            rt,
            alloc,
            owners + READERS,
            &|thread: usize| -> () {
                if thread < owners {
                    self.own(rt, thread)
                } else {
                    self.look(rt)
                }
            },
        )?;
        Ok(())
    }
}

/// So many owners and two readers share a slot, and each child is dropped once. Answers what was put in, what was handed out and what was
/// wrong, and whether the slot is free then.
fn shared<R: Threads + Wait + Sync>(
    rt: &R,
    alloc: Global,
    owners: usize,
    readers_clear: bool,
) -> Result<(u64, u64, u64, bool), AllocError>
    requires { owners < 4 }
{
    let drops = zeros(alloc, OWNERS * TURNS)?;
    let slot = AtomicArc::null(&1000000);
    let desk = Desk::new(&slot, drops.as_slice(), owners, readers_clear);
    desk.share(rt, alloc)?;
    for number in 0..drops.len() {
        if drops_of(drops.as_slice(), number) != u64::from(number % OWNERS < owners) {
            count(&desk.faults);
        }
    }
    Ok((
        desk.put_in.load(Ordering::SeqCst),
        desk.handed_out.load(Ordering::SeqCst),
        desk.faults.load(Ordering::SeqCst),
        slot.is_free(),
    ))
}

#[test]
fn one_owner_is_handed_each_child_that_it_puts_in(rt: HostRuntime) -> Result<(), Fail> {
    let turns = TURNS as u64;
    for readers_clear in [false, true] {
        let found = shared(&rt, rt.alloc(), 1, readers_clear)?;
        is(&rt, found, (turns, turns, 0, true));
    }
    let (put_in, handed_out, faults, is_free) = shared(&rt, rt.alloc(), OWNERS, false)?;
    is(&rt, (handed_out, faults, is_free), (put_in, 0, true));
    holds(&rt, 0 < put_in);
    Ok(())
}
