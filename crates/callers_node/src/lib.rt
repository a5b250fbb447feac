//! Callers of a node and of the run of its script: each is named for what a body that gives another value would break.
#![tactic(auto)]

pub mod answers;
pub mod installs;
pub mod locks;
pub mod posts;
pub mod runs;
pub mod standing;
pub mod turns;
