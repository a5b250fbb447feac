//! The statements of a procedure's body, with the names that its parameters hide renamed to private variables.
#![tactic(auto)]

pub mod copies;
mod expressions;
pub mod hidden;
pub mod numbers;
pub mod statements;

pub use hidden::Hidden;
