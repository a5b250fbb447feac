//! What nodes of a world meet outside: the air, with what events record, cancel and schedule there, and the answers to calls.
#![tactic(auto)]

pub mod calls;
pub mod changes;
pub mod sends;
pub mod start;

pub use calls::{CallAnswer, Calls};
pub use changes::{Ends, cancel, note_first, note_interval, schedule, schedule_interval};
pub use sends::{send_all, send_messages};
pub use start::{begin_node, schedule_lines};
