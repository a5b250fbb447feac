//! The run of a node script, or of a world, has one report; the text of a stopped run begins the text of the whole run.
#![tactic(auto)]

pub mod script_laws;
pub mod stopped_runs;
pub mod world_reports;

pub use stopped_runs::{
    fewer_steps_begin_more, stopped_scripts_begin_whole_ones, stopped_worlds_begin_whole_ones,
};
pub use world_reports::{script_has_one_report, world_has_one_report};
