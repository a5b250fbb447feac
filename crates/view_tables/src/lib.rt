//! The tables of a report: its records, its calls, its waits, its stores, its installs and its bounds as rows.
#![tactic(auto)]

mod bounds;
mod calls;
mod cells;
mod events;
mod spread;
mod store;
mod waits;

pub use bounds::write_bounds;
pub use calls::write_calls;
pub use events::write_events;
pub use spread::write_spread;
pub use store::write_store_changes;
pub use waits::write_waits;
