//! Callers of the crates of the language: each is named for what a body that gives another value would break.
#![tactic(auto)]

pub mod bytes;
pub mod checked;
pub mod checks;
pub mod codes;
pub mod depths;
pub mod expansions;
pub mod folds;
pub mod frames;
pub mod machines;
pub mod names;
pub mod openings;
pub mod parses;
pub mod prints;
pub mod procedures;
pub mod readings;
pub mod refusals;
pub mod renaming;
pub mod rights;
pub mod runs;
pub mod statements;
pub mod texts;
pub mod trees;
