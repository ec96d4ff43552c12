//! A seat's trail: the list of its own atomic steps, which contracts alone know. No value of this type is made.

/// One atomic step of a seat: the word's place in its table, what was done there, the value found and the value left.
///
/// "In this call" means: in the steps that the call added to the trail.
pub struct Trace<K> {
    /// The word's place in the table.
    pub word: u64,
    /// What was done.
    pub kind: K,
    /// The word's value before the step.
    pub found: u64,
    /// The word's value after it.
    pub left: u64,
}
