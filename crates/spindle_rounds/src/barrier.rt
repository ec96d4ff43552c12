//! The barrier of a round table: parties join, arrive, leave and exit, and whoever comes last closes the round.
ghost use Rattle.std.specs.Prelude.{◌≡◌, ◌≤◌};
ghost use Rattle.spindle_rounds.specs.Words.{words_of};

use crate::round_table::slots::SlotContents;
use crate::round_table::{RoundTable, Seat};

pub mod detached_party;
pub mod membership;
pub mod opening;
pub mod steps;
pub mod waiting;
pub mod word;

pub use self::steps::{AfterEnd, Arrival, Look};
pub use self::waiting::{ExitStatus, Full};

/// The most parties of a barrier (`MASK` of spindle).
pub const MASK: u32 = 32767;

/// A barrier that parties may join, over the table of a round (`BarrierInit` of spindle).
#[derive(Drop)]
pub struct BarrierInit<D: SlotContents> {
    pub(crate) table: RoundTable<D>,
    pub(crate) threads: usize,
    ghost sized: { (table.shared.key ≡ threads)
        × (table.shared.table_id.words ≡ words_of threads) },
    ghost few: { threads ≤ 32767 },
}

/// Why a party didn't join. The seat comes back.
#[derive(Drop)]
pub enum JoinRefused<P> {
    /// As many parties as there may be.
    Full(P),
    /// All members have arrived, and one of them closes the round.
    Closing(P),
    /// Another step came between.
    Again(P),
}

/// A party that has joined, or is the closer, with its seat (`Barrier` of spindle).
#[derive(Drop)]
pub struct Barrier<'a, D: SlotContents> {
    init: &'a BarrierInit<D>,
    /// What the party steps with.
    pub(crate) seat: Seat<D>,
    sense: u64,
    /// Not so of a closer that has exited.
    is_member: bool,
    thread_id: usize,
}
