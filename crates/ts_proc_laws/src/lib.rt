//! What a TinyScript script with procedures means: its run with a frame of numbers for each call.
#![tactic(auto)]

pub mod law;

pub use law::frame_law;
