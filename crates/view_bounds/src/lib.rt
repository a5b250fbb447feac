//! By when each node has to hold a version that a world injects: in any run without loss, and in the run of a report.
#![tactic(auto)]

mod around;
mod bounds;
mod passing;

pub use bounds::{Bound, Bounds, Injected, Mismatch, Outcome, Promise};
pub use passing::{Loss, Own};
