//! The plain evaluator of TinyScript scripts, which gives exactly what a script means.
#![tactic(auto)]

mod evaluator;
mod items;
pub mod run;
mod statements;
mod values;

pub use mate_num::Calls;
pub use run::{Played, play};
