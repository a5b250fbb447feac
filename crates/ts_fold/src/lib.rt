//! Folding a checked TinyScript script before it is compiled: what depends only on its numbers is computed once.
#![tactic(auto)]

pub mod expressions;
pub mod folding;
pub mod statements;

pub use folding::fold;
