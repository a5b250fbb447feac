//! The opcode table that a machine's description generates, with its text, and the text of a verified capsule.
#![tactic(auto)]

pub mod generate;
pub mod lock_line;
pub mod printing;

pub use generate::{function_names, print_table, table};
pub use printing::{handler_name, print_capsule};
