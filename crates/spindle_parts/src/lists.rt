//! Lists as a job's inputs: a list that clones share, runs of one, chunks with what stands around them, and strips that are worked in
//! place.
//!
//! Nothing here knows a lock: who writes a job, and who cuts a round's items into pieces, stands on this crate.

pub mod chunks;
pub mod results;
pub mod same;
pub mod shared;
pub mod strips;

pub use self::chunks::Chunk;
pub use self::results::gathered;
pub use self::same::EqualIsSame;
pub use self::shared::{ListRun, SharedList};
pub use self::strips::{Strip, joined_strips, tell_neighbours};
