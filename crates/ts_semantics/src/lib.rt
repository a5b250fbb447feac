//! What a TinyScript script and its code mean, as definitions, with the law that both mean the same; and what operators give.
#![tactic(auto)]

pub mod laws;
mod operators;

pub use laws::{
    code_is_encodable, code_is_verified, code_runs_as_its_script, code_uses_as_its_script,
};
pub use operators::apply;
