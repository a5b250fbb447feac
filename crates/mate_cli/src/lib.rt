//! The top call of the program `mate`: from words and files to what is written.
#![tactic(auto)]

mod audit;
mod made;
mod node;
mod runs;
mod sim;
pub mod top;
mod writing;

pub use command_refusals::Status;
pub use node_runs::{run_steps, run_steps_into};
pub use top::{mate, mate_buffered};
