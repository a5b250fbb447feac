//! The calls that contexts have made and that wait for their answers, at most one for each context.
#![tactic(auto)]

mod call;
pub mod pending;

pub use pending::{NotWaiting, Pending};
