//! Callers of the crates of descriptions, code and a node's parts: each is named for what a body that gives another value would
//! break.
#![tactic(auto)]

pub mod capsules;
pub mod code;
pub mod examples;
pub mod fields;
pub mod lines;
pub mod listings;
pub mod lock_calls;
pub mod locks;
pub mod numbers;
pub mod parts;
pub mod runs;
pub mod steps;
pub mod tables;
pub mod texts;
pub mod values;
pub mod verifications;
