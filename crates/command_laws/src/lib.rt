//! Laws of the program's call: words and steady files are owed one answer, and an output that is owed comes; `audit` finds serial
//! what a run wrote; an expanded text means what its source does; the answers to a stream's frames are those of a new node.
#![tactic(auto)]

pub mod audits;
pub mod completeness;
pub mod expanded_texts;
pub mod feed_answers;
pub mod serial_reports;

pub use expanded_texts::{compiled_law, derivation_law, text_law};
pub use feed_answers::answers_are_of_install;
