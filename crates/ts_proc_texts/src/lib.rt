//! TinyScript with procedures as text: the reader of a source, and the writer of an expansion, which isn't built.
#![tactic(auto)]

mod advance;
mod bodies;
mod call;
mod heads;
pub mod law;
pub mod reading;
mod renamed;
mod rest;
mod stack;
mod walk;
pub mod writing;

pub use law::reading_law;
pub use reading::read;
pub use ts_proc_names::{PScript, ProcFault};
pub use writing::write_expansion;
