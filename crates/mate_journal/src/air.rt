//! What happens on the radio and at the timers that drive it.

use mate_num::{Items, PacketBytes, Stamp};

/// One thing that happened at a node's Trickle timer or on the radio. Transmissions are numbered from 1.
#[derive(Drop)]
pub enum Air {
    /// An interval of this length, in ms, begins.
    Interval { length: u32 },
    /// The timer's point came, and nothing was sent.
    Keep,
    /// The node sent a packet.
    Sent { number: u32, bytes: PacketBytes },
    /// The packet does not reach node `to`.
    Lost { number: u32, to: u8 },
    /// The node received the packet that node `from` sent.
    Got { number: u32, from: u8 },
    /// The node heard bytes that are no packet.
    Noise { bytes: PacketBytes },
}

/// What happened, at which node and when.
#[derive(Drop)]
pub struct Aired {
    pub stamp: Stamp,
    pub node: u8,
    pub air: Air,
}

/// A list of what happened on the air.
pub type Airs = Items<Aired>;
