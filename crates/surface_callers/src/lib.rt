//! What a user of the library writes first, in the order of a run: each item that a door gives is used here with its signature.
//!
//! A caller that a contract no longer lets through, or a name that a door no longer gives, fails the proof of this crate. What a call asks of its caller,
//! a reader sees in the `requires` of the function here.
#![tactic(auto)]

pub mod capsules;
pub mod code;
pub mod commands;
pub mod descriptions;
pub mod exchanges;
pub mod files;
pub mod journals;
pub mod language;
pub mod lists;
pub mod locks;
pub mod machines;
pub mod nodes;
pub mod numbers;
pub mod packets;
pub mod procedures;
pub mod reports;
pub mod scripts;
pub mod streams;
pub mod timers;
pub mod trees;
pub mod worlds;
