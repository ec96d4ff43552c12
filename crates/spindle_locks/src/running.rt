//! What a thread does with the numbers of a published round: it takes their pieces out of the trays or the slots, runs them, and
//! brings back what came out. A leader with trays runs the first of them where they lie, and where it is the lock's only thread, all
//! of them in their order.

pub mod in_place;
pub mod in_slots;
pub mod in_trays;
pub mod over_lists;
pub mod runner;
pub mod sequential;
