//! The text of a report: its lines, a whole report merged event by event, and its summary.
#![tactic(auto)]

pub mod air_line;
mod chunk;
mod counts;
pub mod entry_line;
mod front;
pub mod kinds;
pub mod laws;
mod merge;
pub mod pass;
mod store_words;
pub mod summary;
pub mod tally;
pub mod text;
pub mod whole_summary;
pub mod words;
pub mod write_fault;
pub mod writing;

pub use laws::node_report_is_tidy;
pub use pass::{Pass, nothing_run};
pub use summary::{RunTally, Summary, text_of_counts};
pub use tally::{AirTally, EntryCounts, LogTally, Versions};
pub use text::{write_end, write_event};
pub use whole_summary::brief;
pub use write_fault::{WriteFault, ended, stopped};
pub use writing::write;
