//! Packets on their way.

ghost use Rattle.std.specs.Prelude.{◌≤◌};

use crate::fault::ViewFault;
use mate_num::{HANDLERS_MAX, Stamp};
use report_line_reader::Line;
use std::alloc::Global;
use std::collections::VecDeque;

/// The longest that a packet is on its way, in ms: the most that `radio.delay` may be.
const LONGEST_FLIGHT: u32 = 10_000;

/// The kind of a packet.
#[derive(Clone, Copy)]
pub enum PacketKind {
    Vector,
    Status,
    Fragment,
    Message,
    /// Bytes that begin as no packet does.
    Other,
}

/// The names of the kinds, in order.
pub const PACKET_KINDS: [&str; 5] = ["vector", "status", "fragment", "message", "other"];

impl PacketKind {
    /// The kind of the packet that begins with these bytes.
    pub fn of(bytes: &[u8]) -> PacketKind {
        let [kind, ..] = bytes else {
            return PacketKind::Other;
        };
        match *kind {
            1 => PacketKind::Vector,
            2 => PacketKind::Status,
            3 | 5 => PacketKind::Fragment,
            4 => PacketKind::Message,
            _ => PacketKind::Other,
        }
    }

    /// Its place among the kinds, from 0.
    pub fn place(self) -> u8
        ensures { result ≤ 4 }
    {
        match self {
            PacketKind::Vector => 0,
            PacketKind::Status => 1,
            PacketKind::Fragment => 2,
            PacketKind::Message => 3,
            PacketKind::Other => 4,
        }
    }

    /// Its name.
    pub fn word(self) -> &'static str {
        PACKET_KINDS[usize::from(self.place())]
    }
}

/// A packet that was sent: its number, its sender, its kind and when.
#[derive(Clone, Copy)]
pub struct Flight {
    pub number: u32,
    pub node: u8,
    pub kind: PacketKind,
    pub sent: Stamp,
    /// Where its mark is, for who keeps marks.
    pub mark: usize,
    /// The version of each handler that it names, for who asks for them.
    pub versions: [u32; HANDLERS_MAX],
}

impl Flight {
    /// The packet of this number that a line sends.
    pub fn of(line: &Line, number: u32, bytes: &[u8]) -> Flight {
        Flight {
            number,
            node: line.node,
            kind: PacketKind::of(bytes),
            sent: line.stamp,
            mark: usize::MAX,
            versions: [0; HANDLERS_MAX],
        }
    }
}

/// The packets that may still come to a receiver, in the order in which they were sent.
#[derive(Drop)]
pub struct Flights {
    flights: VecDeque<Flight>,
}

impl Flights {
    /// No packet.
    pub fn new(alloc: Global) -> Flights {
        Flights {
            flights: VecDeque::new(alloc),
        }
    }

    /// A packet is sent. Those that are no longer on their way are forgotten.
    pub fn send(&mut self, flight: Flight) -> Result<(), ViewFault> {
        self.forget(flight.sent.time);
        self.flights.push_back(flight)?;
        Ok(())
    }

    /// Forgets what was sent too long ago to arrive now.
    fn forget(&mut self, now: u32) {
        for _ in 0..self.flights.len() {
            match self.flights.front() {
                Some(flight) if now.saturating_sub(flight.sent.time) > LONGEST_FLIGHT => {}
                Some(_) | None => return,
            }
            let _ = self.flights.pop_front();
        }
    }

    /// The packet of this number, if it may still be on its way.
    pub fn find(&self, number: u32) -> Option<Flight> {
        for flight in self.flights.iter().rev() {
            if flight.number == number {
                return Some(*flight);
            }
        }
        None
    }
}
