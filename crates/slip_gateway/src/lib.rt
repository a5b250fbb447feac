//! Capsule images from a serial line: a byte stream that is cut into frames by SLIP, RFC 1055.
#![tactic(auto)]

pub mod frames;
pub mod pieces;
pub mod slip;

pub use frames::{Frame, Frames};
pub use pieces::{FrameFault, first_piece, has_escape, plain_frame};
pub use slip::{Slip, frames_are_few, frames_compose, rest_of};
