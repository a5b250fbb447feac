//! The contexts of a node that are ready to run, in the order of their turns.
#![tactic(auto)]

pub mod ring;

pub use ring::Ring;
