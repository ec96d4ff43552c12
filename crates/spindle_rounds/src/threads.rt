//! The threads of a lock, whatever the kind of job: how many there are, the tables that they share and their seats at these, how
//! idle ones wait, and the membership of each at the barrier.

pub mod helper_waits;
pub mod leader_member;
pub mod limits;
pub mod member;
pub mod publish_and_end;
pub mod seats;
pub mod signals;
pub mod sleep;
pub mod tables;

pub use self::tables::ThreadCounts;

/// How many pauses an idle party makes before it sleeps, where a user has no wish of his own.
pub const DEFAULT_SPIN_LIMIT: u32 = 65536;

/// How many of these pauses make one turn, after which an idle party looks again.
pub const DEFAULT_PAUSE_LIMIT: u32 = 8;

/// A barrier holds at most so many threads, and so does a lock.
pub const MOST_THREADS: usize = 32767;
