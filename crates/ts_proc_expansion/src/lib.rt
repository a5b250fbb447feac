//! The expansion of a TinyScript script with procedures to a plain script: its limits, and its plan.
#![tactic(auto)]

pub mod extent;
pub mod limits;
pub mod live;
pub mod plan;
mod targets;

pub use limits::{DEPTH_MAX, STATEMENTS_MAX, within_limits};
pub use live::shorter;
pub use plan::Plan;
