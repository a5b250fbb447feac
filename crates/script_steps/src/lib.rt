//! The scripts of nodes and of worlds: lines, words, steps and plans, and the reader of node scripts.
#![tactic(auto)]

pub mod fault;
pub mod lines;
pub mod newest;
pub mod node;
pub mod steps;
pub mod words;
pub mod world;

pub use fault::{Cause, ScriptFault};
pub use lines::Lines;
pub use newest::{newest_of, note_newest};
pub use node::node_script;
pub use steps::{Step, Steps};
pub use words::{Words, spells};
pub use world::{Link, Links, Plan, Planned, Series, SeriesList, Values, What, World};
