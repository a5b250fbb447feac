//! The laws of a report that shows serial behaviour, in their order, what a verdict on a report says, and the roll of who is live, kept
//! while a journal is read.
#![tactic(auto)]

pub mod finite;
pub mod following;
pub mod laws;
pub mod phase;
pub mod roll;
pub mod run_laws;
pub mod seat;

pub use finite::{
    ends_are_enough, following_is_told, grants_are_told, programs_are_installed, replay_is_told,
    stores_are_told,
};
pub use following::entries_follow;
pub use laws::{
    devices_follow, one_verdict, right_programs_can_be_told, the_first_failure_is_told,
    the_verdict_is_told, verdicts_are_on_journals,
};
pub use mate_journal::{Law, Verdict};
pub use phase::{Phase, Stage};
pub use roll::{InstalledImage, Roll};
pub use run_laws::{conflicts_are_told, runs_go_by_parts};
pub use seat::Seat;
