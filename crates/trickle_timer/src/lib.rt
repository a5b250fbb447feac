//! The Trickle timer of a node (RFC 6206, sections 4.1 and 4.2).
#![tactic(auto)]

pub mod timer;

pub use timer::{Fire, Trickle};
