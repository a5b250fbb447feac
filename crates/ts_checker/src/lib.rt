//! The names of a TinyScript script on a machine, the checks of the script, and the checked tree that they give.
#![tactic(auto)]

mod called;
pub mod checking;
mod exprs;
pub mod fault;
pub mod laws;
pub mod scope;
mod stmts;

pub use checking::check;
pub use fault::CheckFault;
pub use laws::keywords_are_no_names;
pub use scope::Scope;
