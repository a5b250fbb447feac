//! TinyScript's parser: declarations, procedures and whole scripts, with the law of its answers.
#![tactic(auto)]

pub mod cutting;
pub mod decls;
pub mod depth;
pub mod fault;
pub mod parser;
pub mod procs;
pub mod reading;
pub mod role;
pub mod verdict;

pub use cutting::{tokens, tokens_in};
pub use fault::SourceFault;
pub use parser::{parse, parse_procedures};
pub use reading::{read, read_procedures};
pub use verdict::verdict_law;
