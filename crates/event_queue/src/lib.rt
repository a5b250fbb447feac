//! Items that wait for their times, and come out in order.
#![tactic(auto)]

mod chains;
pub mod group;
mod marks;
mod plan;
pub mod queue;
mod wheel;

pub use group::Grouped;
pub use queue::{Queue, Timed};
