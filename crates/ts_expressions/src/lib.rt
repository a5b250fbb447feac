//! The parser of TinyScript's expressions.
#![tactic(auto)]

pub mod expression;
pub mod found;
pub mod node;

pub use expression::{arguments, disjunction, expr};
