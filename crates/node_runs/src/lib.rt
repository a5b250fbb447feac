//! The run of a node script: its report written as its events end, counted, or kept.
#![tactic(auto)]

pub mod counting;
mod events;
pub mod heap_node;
pub mod kept_run;
pub mod running;
pub mod writing;
pub mod written_run;

pub use counting::sum_steps;
pub use kept_run::{run_steps, run_stored_steps};
pub use writing::write_steps;
pub use written_run::{run_steps_into, run_stored_steps_into};
