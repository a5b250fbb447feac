//! A world between its events: its nodes, each with its timer, its exchange and its calls, and what events do to one; and the report at the end.
#![tactic(auto)]

pub mod effect;
pub mod first;
pub mod mote;
pub mod report;
pub mod simulation;

pub use effect::Effect;
pub use first::{First, FirstTold};
pub use mote::Mote;
pub use report::{forget_all, report_of, see_stores};
pub use simulation::{Simulation, Written, may_tell};
