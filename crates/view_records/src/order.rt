//! Which lines are a report's: each fits after those before it, and the last one counts them.

use crate::fault::ViewFault;
use mate_journal::Air;
use mate_num::NODES_MAX;
use report_line_reader::words::same_bytes;
use report_line_reader::{Bulk, LightLine, LightTold, Words};
use report_text::last_line::LastLine;
use report_text::place::{Place, admits_next, place_after};

/// How far the lines of a report have come.
#[derive(Drop)]
pub struct Order {
    place: Option<Place>,
    /// How many lines were read.
    pub count: u64,
    /// A number above each node number in them.
    pub nodes: u64,
}

impl Order {
    /// Before the first line.
    pub fn new() -> Order {
        Order {
            place: None,
            count: 0,
            nodes: 0,
        }
    }

    /// The fault that the line is bad that comes `behind` lines after those that were read.
    pub fn bad_line(&self, behind: u64) -> ViewFault {
        ViewFault::BadLine {
            line: self.count.saturating_add(behind),
            named: false,
        }
    }

    /// The fault that the next line is bad, which none of this machine's reports has.
    pub fn bad_record(&self, line: &[u8]) -> ViewFault {
        ViewFault::BadLine {
            line: self.count.saturating_add(1),
            named: is_named(line),
        }
    }

    /// Takes the next line; it is bad if it doesn't fit after those before it.
    pub fn take(&mut self, line: &LightLine, bulk: &Bulk) -> Result<(), ViewFault> {
        if !admits_next(&self.place, line, bulk) {
            return Err(self.bad_line(1));
        }
        let place = place_after(&self.place, line, bulk);
        self.place = Some(place);
        self.count = self.count.saturating_add(1);
        self.nodes = self.nodes.max(nodes_in(line));
        Ok(())
    }

    /// Takes the last line; it is bad if it doesn't count those before it.
    pub fn end(&self, last: &LastLine) -> Result<(), ViewFault> {
        let fits = last.records == self.count
            && 1 <= last.nodes
            && last.nodes <= NODES_MAX as u64
            && self.nodes <= last.nodes;
        if fits { Ok(()) } else { Err(self.bad_line(1)) }
    }
}

/// Whether a line begins as a record that names a handler, a function, variables or buffers.
fn is_named(line: &[u8]) -> bool {
    let mut words = Words::new(line);
    for _ in 0..3u8 {
        if words.next_unsigned().is_none() {
            return false;
        }
    }
    match words.next() {
        Some(verb) => {
            same_bytes(verb, b"post")
                || same_bytes(verb, b"drop")
                || same_bytes(verb, b"ask")
                || same_bytes(verb, b"install")
                || same_bytes(verb, b"seen")
        }
        None => false,
    }
}

/// A number above each node number of a line.
fn nodes_in(line: &LightLine) -> u64 {
    let named = match &line.told {
        LightTold::OnAir(Air::Lost { number: _, to }) => *to,
        LightTold::OnAir(Air::Got { number: _, from }) => *from,
        LightTold::OnAir(_) | LightTold::Made(_) | LightTold::Installed { .. } | LightTold::Shown =>
            0,
    };
    u64::from(line.node.max(named)) + 1
}
