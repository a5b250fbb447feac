//! The part of a report that is looked at.

use crate::flights::PacketKind;
use mate_num::{NODES_MAX, Stamp};

/// The names of the kinds, in order.
const KIND_NAMES: [&str; 11] = [
    "invocations",
    "installs",
    "drops",
    "resets",
    "vectors",
    "statuses",
    "fragments",
    "messages",
    "losses",
    "noise",
    "intervals",
];

/// What a timeline can show.
#[derive(Clone, Copy)]
pub enum Kind {
    Invocations,
    Installs,
    Drops,
    Resets,
    Vectors,
    Statuses,
    Fragments,
    Messages,
    Losses,
    Noise,
    Intervals,
}

impl Kind {
    /// The kind of the packets of a kind.
    pub fn of_packet(packet: PacketKind) -> Kind {
        match packet {
            PacketKind::Vector => Kind::Vectors,
            PacketKind::Status => Kind::Statuses,
            PacketKind::Fragment => Kind::Fragments,
            PacketKind::Message | PacketKind::Other => Kind::Messages,
        }
    }

    /// The word with the bit of this kind.
    fn bit(self) -> u32 {
        1u32.wrapping_shl(u32::from(self as u8))
    }
}

/// The word with the bit of the kind of this name, if there is one.
pub fn kind_bit(word: &str) -> Option<u32> {
    let mut bit = 1u32;
    for name in &KIND_NAMES {
        if word == *name {
            return Some(bit);
        }
        bit = bit.wrapping_shl(1);
    }
    None
}

/// Which part of a report is looked at.
#[derive(Clone, Copy)]
pub struct Window {
    /// The first and the last place: times in ms, or numbers of events if `by_events` says so.
    pub from: u64,
    pub to: u64,
    /// A bit for each node that is drawn.
    pub nodes: u64,
    /// A bit for each kind that is drawn.
    pub kinds: u32,
    /// Whether places are numbers of events.
    pub by_events: bool,
}

/// The word with a bit for each node that a report may have.
pub fn all_nodes() -> u64 {
    u64::MAX
}

impl Window {
    /// Whether a node is drawn.
    pub fn has_node(&self, node: u8) -> bool {
        if node < NODES_MAX as u8 {
            (self.nodes >> node) & 1 == 1
        } else {
            false
        }
    }

    /// Whether a kind is drawn.
    pub fn has_kind(&self, kind: Kind) -> bool {
        self.kinds & kind.bit() != 0
    }

    /// The place on the scale: a time in ms or the number of an event.
    pub fn place(&self, stamp: Stamp) -> u64 {
        if self.by_events {
            stamp.event
        } else {
            u64::from(stamp.time)
        }
    }

    /// Whether something that lasts from one stamp to another is seen.
    pub fn has_span(&self, from: Stamp, to: Stamp) -> bool {
        self.place(from) <= self.to && self.from <= self.place(to)
    }

    /// Whether what happens then is seen.
    pub fn has(&self, at: Stamp) -> bool {
        self.has_span(at, at)
    }
}
