//! The radio of a world: events that wait for their times, transmissions over its links, and what happened on the air.
#![tactic(auto)]

pub mod event;
pub mod past;
pub mod radio;
mod rooms;
pub mod shared;
pub mod shared_event;
pub mod waiting;
pub mod wire;

pub use event::{Cancel, Event};
pub use radio::Radio;
pub use shared::SharedPacket;
pub use shared_event::SharedEvent;
