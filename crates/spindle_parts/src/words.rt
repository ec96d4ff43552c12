//! Names of the words and bits of this crate's tables, for code, contracts and documents.
//!
//! A word that is used has `LINE` words to itself, a cache line, so threads at different words
//! don't disturb each other.

/// The words from one that is used to the next.
pub const LINE: usize = 8;

/// How many thread numbers one word has bits for.
pub const BITS: usize = 32;

/// Of a ledger: the requests.
pub const REQUESTS: usize = 0;

/// Of a ledger: 1 once exit is announced, else 0.
pub const EXIT: usize = 8;

/// Of a ledger: 1 while rest is announced, else 0.
pub const REST: usize = 16;

/// Of a ledger: the unfilled places of the first child slot. Those of the next stand a line further.
pub const PLACES: usize = 24;
