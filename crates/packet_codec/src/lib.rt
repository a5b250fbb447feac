//! Radio packets between the nodes of a machine, as values and as bytes.
#![tactic(auto)]

pub mod decoding;
pub mod encoding;
pub mod laws;
pub mod packet;

pub use decoding::{PacketFault, decode};
pub use encoding::encode;
pub use laws::one_form;
pub use packet::Packet;
