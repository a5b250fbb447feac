//! TinyScript's statements and blocks, by recursive descent.
#![tactic(auto)]

pub mod ending;
pub mod head;
pub mod opening;
pub mod simple;
pub mod stmt;
pub mod taken;

pub use head::for_head;
pub use simple::{behind_name, clearing, running};
pub use stmt::block;
