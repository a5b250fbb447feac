//! Which contexts may run: each waits in line until it has all its locks.
#![tactic(auto)]

pub mod claim;
mod conflict;
pub mod locks;
mod search;

pub use claim::Claim;
pub use locks::Locks;
