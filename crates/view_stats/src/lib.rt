//! The sums of a report as tables.
#![tactic(auto)]

mod stats;
mod sums;
mod table;
mod updates;

pub use stats::write_stats;
