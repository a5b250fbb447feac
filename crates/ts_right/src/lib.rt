//! The test that a checked body is right for a machine's shape.
#![tactic(auto)]

pub mod right;
mod shape;

pub use right::is_right;
