//! The words of the command line, read by `clap` as one simple command, and the command of the program that they name.
#![tactic(auto)]

pub mod audit;
pub mod command;
pub mod compilation;
pub mod made_run;
pub mod script_run;
pub mod words;

pub use audit::Audit;
pub use command::{Command, command_of};
pub use compilation::Compilation;
pub use made_run::MadeRun;
pub use script_run::ScriptRun;
pub use words::{CommandLine, WordsFault, read};
