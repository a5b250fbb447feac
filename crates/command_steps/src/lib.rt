//! The steps of the commands of `mate`: a file, a machine, a source's checked tree and its code, a capsule, an expansion.
#![tactic(auto)]

pub mod acceptance;
pub mod accepting;
pub mod capsule_file;
mod causes;
pub mod code;
pub mod code_laws;
pub mod expansion;
pub mod parts;
pub mod refusal;
pub mod source;
mod trees;

pub use acceptance::acceptance_law;
pub use accepting::accept;
pub use capsule_file::{VerifiedCapsule, capsule_of};
pub use code::{CodeFault, CompiledScript, compiled_script};
pub use code_laws::{code_means_its_tree, compiled_code_is_verified, locks_of_compiled_code};
pub use expansion::expandable_of;
pub use parts::{machine_of, read_file};
pub use refusal::SourceRefusal;
pub use source::{accepted, compiled_bytes, source_of};
