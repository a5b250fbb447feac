//! One event of a world: what comes to its node, the node's turns, and what the event records, cancels and schedules.
#![tactic(auto)]

mod answers;
pub mod event;
pub mod finish;
pub mod handling;
mod pieces;
pub mod stepping;
mod turns;

pub use answers::schedule_answers;
pub use event::perform;
pub use handling::handle;
pub use stepping::step;
