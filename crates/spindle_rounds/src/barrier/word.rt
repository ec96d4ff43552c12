//! The bits of the barrier word (`specs/Words.antt` has them for contracts).
//!
//! Bits 0 to 14 count the members that haven't arrived, bits 16 to 30 count the members, bit 31 is the sense.

/// One past the 15 bits of a count.
pub(crate) const FIELD: u64 = 32768;

/// A member more.
pub(crate) const MEMBER: u64 = 65536;

/// A party more: a member that hasn't arrived.
pub(crate) const PARTY: u64 = 65537;

/// The bit of the sense.
pub(crate) const SENSE: u64 = 2147483648;
