//! The laws of journals: what each journal owes that is well formed and keeps the grant rule, and how a journal grows.
#![tactic(auto)]

pub mod growth;
pub mod laws;
pub mod ranges;
pub mod waits;

pub use growth::{LogSize, air_is_in_range_from, log_is_in_range_from};
pub use laws::{
    asks_devices_in_order, ends_as_posted, is_never_stuck, runs_no_conflicting_ones_side_by_side,
};
pub use ranges::{report_is_in_range, stamp_is_in_range};
pub use waits::{settling_leaves_waiting, settling_tells_few, waiting_goes_on, waits_are_apart};
