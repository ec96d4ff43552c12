//! What tests compare, each in one call: the proof of a test grows with every message that its body could print.

use std::fmt::Debug;
use std::process::Abort;

/// Fails the test in which a value is another than wanted.
pub fn is<T: Copy + Debug + PartialEq>(rt: &impl Abort, found: T, wanted: T) {
    assert_eq!(rt; found, wanted);
}

/// Fails the test in which a list is another than wanted.
pub fn are<T: Debug + PartialEq>(rt: &impl Abort, found: &[T], wanted: &[T]) {
    assert_eq!(rt; found, wanted);
}

/// Fails the test in which this isn't so.
pub fn holds(rt: &impl Abort, it: bool) {
    assert!(rt; it);
}
