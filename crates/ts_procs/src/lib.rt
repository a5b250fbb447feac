//! TinyScript with procedures: from the bytes of a source to the script whose names pass, and on to its plain expansion.
#![tactic(auto)]

pub mod calls;
pub mod expanding;
pub mod pending;
pub mod stack;
mod statements;

pub use expanding::expand;
pub use ts_proc_names::{PScript, ProcFault};
pub use ts_proc_texts::{read, reading_law};
pub use ts_trees::{PBlock, PStmt, Proc, Words};
