//! What the commands write: the documents of those that run no node, and the output that the top call writes.
#![tactic(auto)]

pub mod answer;
pub mod boxed_machine;
pub mod check;
pub mod compile;
pub mod document;
pub mod expand;
pub mod feed;
pub mod held_versions;
pub mod output;
pub mod stream_answers;
pub mod table;

pub use answer::Answer;
pub use boxed_machine::BoxedMachine;
pub use document::Document;
pub use output::{Output, Run};
pub use stream_answers::write_answers;
