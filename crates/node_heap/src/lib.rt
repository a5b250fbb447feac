//! The heap of a node: its shared variables and buffers in one block of values.
#![tactic(auto)]

pub mod heap;

pub use heap::Heap;
