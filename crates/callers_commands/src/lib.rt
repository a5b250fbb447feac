//! Callers of the crates of reports, of the audit and of the commands: each is named for what a body that gives another value
//! would break.
#![tactic(auto)]

pub mod audits;
pub mod command_lines;
pub mod grants;
pub mod lines;
pub mod logs;
pub mod programs;
pub mod reading;
pub mod steps;
pub mod texts;
pub mod words;
