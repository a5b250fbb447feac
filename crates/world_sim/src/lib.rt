//! The run of a world, and its report.
#![tactic(auto)]

pub mod running;
pub mod writing;

pub use running::{run, run_stored};
pub use writing::{run_into, run_stored_into};
