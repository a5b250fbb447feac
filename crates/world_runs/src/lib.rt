//! Runs of a world that are written, recorded or counted as its events end, in pieces and whole.
#![tactic(auto)]

mod copies;
pub mod counting;
pub mod pieces;
pub mod record;
pub mod recording;
pub mod writing;

pub use counting::sum_world;
pub use pieces::{logs_are_kept, stopped_at, write_ending, write_last, write_piece, write_start};
pub use record::Record;
pub use recording::{add_event, record_event};
pub use writing::{write_run, write_world};
