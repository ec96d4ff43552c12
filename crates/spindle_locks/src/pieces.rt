//! From the items of a round to its outputs. In trays: the pieces as runs of one list, where a number's piece stands, the trays that
//! threads take pieces from and bring them back to, the gathering of what was run, and after a round that may stop the tally of its
//! pieces and its report. In slots: what stands in one, how they are filled and emptied, and the room that a leader keeps: lists for
//! outputs, and, for rounds in place, what chunks of items move through.

pub mod chunk;
pub mod chunk_buffers;
pub mod finished;
pub mod gathering;
pub mod in_slots;
pub mod items;
pub mod list_runs;
pub mod of_kind;
pub mod place;
pub mod report;
pub mod slot_piece;
pub mod tally;
pub mod trays;
