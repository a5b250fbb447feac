//! Laws of a world's run: what stands between its events, and what is promised of its report.
#![tactic(auto)]

pub mod laws;
pub mod promise;
pub mod states;

pub use laws::{reports_keep_the_bound, world_report_is_tidy};
pub use promise::reports_keep_the_promise;
pub use states::{states_are_sound, worlds_hold_by_their_sources};
