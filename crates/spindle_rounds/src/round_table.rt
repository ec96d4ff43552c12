//! The round table of `t` threads: atomic words that threads change at once, under one rule.
//!
//! | word | holds | changed by |
//! |---|---|---|
//! | 0 | the barrier word: bits 0 to 14 count the members that haven't arrived, bit 15 is 0, bits 16 to 30 count the members, bit 31 is the sense, the lowest bit of the number of ended rounds; the high half is 0 | join, arrive, leave, exit, end |
//! | 1 | published: 0 for none, n for a round of n jobs, n + 2^32 for one that may stop | `publish`, `publish_try`; `clear` |
//! | 16 | finished: how many jobs of the round have finished | `fill`; `finish` |
//! | 32 | stopped: 1 once the round is stopped | `fill`; `stop` |
//! | 48 | the remainder: v > 0 stands for job n - v | `fill`; `try_claim_rest` |
//! | 64 + 16 i | the range of thread i: its start in the low 32 bits, its end, not included, in the high 32 | `fill`; `try_claim_own`, `try_steal`, `put_back` |
//! | 64 + 16 (t + i) | the share of thread i: what is left of it, in the form of a range; nobody reads it | `next_of_share` |
//!
//! Words stand 128 bytes apart, since processors fetch cache lines of 64 bytes in pairs; only the first two share a line: whoever
//! ends a round changes both, and who waits for one of them has waited for the other. The words between are unused. Specs call a
//! word by its name in `specs/Words.antt`: `barrier_at` is word 0, `range_at i` is word 64 + 16 i.
//! A table with t = 0 has no ranges, and nothing can be published on it.
ghost use Rattle.std.specs.Prelude.{◌≡◌, ◌+◌, ◌*◌, ◌≤◌, true};
ghost use Rattle.spindle_rounds.specs.RoundRule.{Shown};
ghost use Rattle.spindle_rounds.specs.RoundSteps.{outsider};

use self::slots::SlotContents;
use self::view::View;
use atomic_table::{Shared, Table, TableRule};
use std::alloc::Global;
use std::marker::PhantomData;

pub mod pieces;
pub mod plays;
pub mod runs;
pub mod slots;
pub mod view;

/// The barrier word.
pub const BARRIER: usize = 0;

/// The number of jobs published.
pub const PUBLISHED: usize = 1;

/// How many jobs have finished.
pub const FINISHED: usize = 16;

/// Whether the round was stopped.
pub const STOPPED: usize = 32;

/// The remainder.
pub const REMAINDER: usize = 48;

/// The first range.
pub const RANGES: usize = 64;

/// How far one word of a kind is from the next.
pub const APART: usize = 16;

/// One in the high half of a word: where the end of a range starts, and the bit of a published word whose round may stop.
pub const HIGH: u64 = 4294967296;

/// The rule: between any two atomic steps there is a run that ends in a state which words and seats show.
pub struct RoundRule<D: SlotContents> {
    of: PhantomData<D>,
}

/// The key is the number of threads.
impl<D: SlotContents> TableRule<D::Slot, View<D::Note>, u64> for RoundRule<D> {
    ghost holds = { λ threads s. Shown D.discipline threads s };

    ghost first = { λ threads. outsider threads true };
}

/// The words as threads share them.
pub type SharedWords<D: SlotContents> = Shared<D::Slot, View<D::Note>, u64, RoundRule<D>>;

/// The words with their memory.
pub type RoundTable<D: SlotContents> = Table<D::Slot, View<D::Note>, u64, RoundRule<D>, Global>;

/// What one thread steps with.
pub type Seat<D: SlotContents> = atomic_table::Seat<D::Slot, View<D::Note>>;
