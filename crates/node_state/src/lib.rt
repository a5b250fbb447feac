//! What a node is made of, its contexts and its programs, what it keeps and rests with, and which queued invocations start.
#![tactic(auto)]

pub mod contexts;
pub mod executing;
pub mod handlers;
pub mod parts;
pub mod seat;
pub mod seats;
pub mod shared;
pub mod starting;

pub use contexts::Contexts;
pub use executing::{answer, number};
pub use handlers::{Handlers, Held};
pub use parts::{Parts, tell};
pub use seat::Seat;
pub use seats::Seats;
pub use shared::SharedHeld;
pub use starting::{start_all, start_next};
