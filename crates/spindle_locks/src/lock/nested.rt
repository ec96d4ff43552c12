//! Nested locks: what a job opens, to which idle helpers of the job's lock move.
//!
//! `child_lease` has the child slots in which they stand and how they close, whatever the kind of the nested lock; `child` and `rounds`
//! those whose pieces stand in trays.

mod child;
mod child_lease;
mod rounds;

pub use self::child::{Child, Nested, TakesHelpers, Under, help_from};
pub use self::child_lease::{
    ChildLease, ChildSlot, Leads, close, make_child_slots, serve_child_slots,
};
