//! The names of a TinyScript script with procedures: which of them are refused, and the script whose names pass.
#![tactic(auto)]

mod calls;
pub mod fault;
pub mod heads;
pub mod name_table;
pub mod named;
pub mod parameters;
mod reserved;

pub use fault::ProcFault;
pub use heads::Heads;
pub use name_table::NameTable;
pub use named::PScript;
pub use parameters::Parameters;
