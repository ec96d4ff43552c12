//! What most files of locks import, here and in the crates above: jobs, what runs them, and what they need of the system.

pub use crate::job::Job;
pub use crate::job::context::JobCx;
pub use crate::job::gate::Gate;
pub use crate::job::nest::Nest;
pub use crate::lock::pool::Pool;
pub use crate::running::runner::Runner;
pub use spindle_parts::fault::Fault;
pub use std::alloc::{AllocError, Global};
pub use std::sync::Wait;
pub use std::thread::Threads;
