//! The locks of a handler: what its verified code reads and what it writes.
#![tactic(auto)]

mod inference;

pub use inference::locks;
