//! What the programs refuse: the causes, and for each refusal its status and its line. Also how they
//! take their words.
#![tactic(auto)]

pub mod arguments;
pub mod capsule_cause;
pub mod cause;
pub mod description_cause;
pub mod expansion_cause;
pub mod line_ends;
pub mod refusal;
pub mod refutation;
mod script_cause;
pub mod source_cause;
pub mod spelling_cause;
pub mod status;

pub use arguments::words;
pub use capsule_cause::CapsuleCause;
pub use cause::{Cause, Unread};
pub use description_cause::DescriptionCause;
pub use expansion_cause::ExpansionCause;
pub use line_ends::{print_numbered, print_numbered_name};
pub use refusal::{Refusal, in_file};
pub use refutation::Refutation;
pub use source_cause::SourceCause;
pub use spelling_cause::SpellingCause;
pub use status::Status;
