//! What is counted over a report: by node, by handler and by function.

use crate::updates::Updates;
use mate_journal::{Air, DropCause, Entry};
use mate_num::{FUNCTIONS_MAX, HANDLERS_MAX, NODES_MAX};
use report_line_reader::{Line, Told};
use std::alloc::Global;
use view_records::{
    Flight, Flights, PACKET_KINDS, PacketKind, Phase, Stretch, StretchEnd, ViewFault,
};

/// The columns of the nodes' table, in order.
pub const NODE_COLUMNS: [&str; 12] = [
    "sent", "bytes", "lost", "got", "noise", "posts", "drops", "halts", "faults", "cut",
    "installs", "resets",
];

/// The columns of the handlers' table, in order.
pub const HANDLER_COLUMNS: [&str; 12] = [
    "posts",
    "nocode",
    "busy",
    "starts",
    "halts",
    "faults",
    "cut",
    "open",
    "wait_ms",
    "most_ms",
    "wait_events",
    "most_events",
];

/// The columns of the functions' table, in order.
pub const FUNCTION_COLUMNS: [&str; 8] = [
    "calls",
    "answered",
    "cut",
    "open",
    "wait_ms",
    "most_ms",
    "wait_events",
    "most_events",
];

/// The columns of the table of packets by kind, in order.
pub const PACKET_COLUMNS: [&str; 4] = ["sent", "bytes", "got", "lost"];

/// What is counted of a link.
const LINK_COLUMNS: usize = 2;

/// Rows of numbers.
#[derive(Drop)]
pub struct Grid {
    cells: Vec<u64>,
    width: usize,
}

impl Grid {
    /// `rows` rows of this width, each number 0.
    fn new(alloc: Global, rows: usize, width: usize) -> Result<Grid, ViewFault> {
        let mut cells = Vec::new(alloc);
        for _ in 0..rows {
            for _ in 0..width {
                cells.push(0)?;
            }
        }
        Ok(Grid { cells, width })
    }

    /// The numbers of a row; none outside the grid.
    pub fn row(&self, row: usize) -> &[u64] {
        let first = row.saturating_mul(self.width);
        match self.cells.get(first..first.saturating_add(self.width)) {
            Some(cells) => cells,
            None => &[],
        }
    }

    fn add(&mut self, row: usize, column: usize, by: u64) {
        let place = row.saturating_mul(self.width).saturating_add(column);
        if place < self.cells.len() {
            self.cells[place] = self.cells[place].saturating_add(by);
        }
    }

    fn raise(&mut self, row: usize, column: usize, to: u64) {
        let place = row.saturating_mul(self.width).saturating_add(column);
        if place < self.cells.len() {
            self.cells[place] = self.cells[place].max(to);
        }
    }

    /// Adds how long a stretch took to the four columns from this one on.
    fn add_wait(&mut self, row: usize, column: usize, stretch: &Stretch) {
        self.add(row, column, stretch.ms());
        self.raise(row, column.saturating_add(1), stretch.ms());
        self.add(row, column.saturating_add(2), stretch.events());
        self.raise(row, column.saturating_add(3), stretch.events());
    }
}

/// All that is counted.
#[derive(Drop)]
pub struct Sums {
    pub nodes: Grid,
    pub handlers: Grid,
    pub functions: Grid,
    pub packets: Grid,
    /// By sender and receiver: what came, and what was lost.
    pub links: Grid,
    pub updates: Updates,
    /// How many records were counted.
    pub records: u64,
    flights: Flights,
}

impl Sums {
    /// Nothing counted yet.
    pub fn new(alloc: Global) -> Result<Sums, ViewFault> {
        Ok(Sums {
            nodes: Grid::new(alloc, NODES_MAX, NODE_COLUMNS.len())?,
            handlers: Grid::new(alloc, HANDLERS_MAX, HANDLER_COLUMNS.len())?,
            functions: Grid::new(alloc, FUNCTIONS_MAX, FUNCTION_COLUMNS.len())?,
            packets: Grid::new(alloc, PACKET_KINDS.len(), PACKET_COLUMNS.len())?,
            links: Grid::new(alloc, NODES_MAX * NODES_MAX, LINK_COLUMNS)?,
            updates: Updates::new(alloc),
            records: 0,
            flights: Flights::new(alloc),
        })
    }

    /// Keeps what has to be known of a line that isn't counted, too.
    pub fn pass_line(&mut self, line: &Line) -> Result<(), ViewFault> {
        if let Told::OnAir(Air::Sent { number, bytes }) = &line.told {
            self.flights
                .send(Flight::of(line, *number, bytes.as_slice()))?;
        }
        Ok(())
    }

    /// Counts what a line records.
    pub fn count_line(&mut self, line: &Line) -> Result<(), ViewFault> {
        self.records = self.records.saturating_add(1);
        let node = usize::from(line.node);
        match &line.told {
            Told::OnAir(air) => self.count_air(line.node, air),
            Told::Made(entry) => self.count_entry(node, entry),
            Told::Installed {
                handler,
                version,
                image: _,
            } => {
                self.nodes.add(node, 10, 1);
                self.updates
                    .take(*handler, *version, line.node, line.stamp.time)?;
            }
            Told::Shown(_) => {}
        }
        Ok(())
    }

    fn count_air(&mut self, node: u8, air: &Air) {
        let row = usize::from(node);
        match air {
            Air::Sent { number: _, bytes } => {
                let (kind, size) = (PacketKind::of(bytes.as_slice()), bytes.len() as u64);
                self.nodes.add(row, 0, 1);
                self.nodes.add(row, 1, size);
                self.packets.add(usize::from(kind.place()), 0, 1);
                self.packets.add(usize::from(kind.place()), 1, size);
            }
            Air::Lost { number, to } => {
                self.nodes.add(row, 2, 1);
                self.links.add(link_place(node, *to), 1, 1);
                self.count_packet(*number, 3);
            }
            Air::Got { number, from } => {
                self.nodes.add(row, 3, 1);
                self.links.add(link_place(*from, node), 0, 1);
                self.count_packet(*number, 2);
            }
            Air::Noise { .. } => self.nodes.add(row, 4, 1),
            Air::Interval { .. } | Air::Keep => {}
        }
    }

    /// Counts a packet by its kind, if it is known.
    fn count_packet(&mut self, number: u32, column: usize) {
        if let Some(flight) = self.flights.find(number) {
            self.packets
                .add(usize::from(flight.kind.place()), column, 1);
        }
    }

    fn count_entry(&mut self, node: usize, entry: &Entry) {
        match entry {
            Entry::Post {
                inv: _,
                handler,
                ctx: _,
                payload: _,
            } => {
                self.nodes.add(node, 5, 1);
                self.handlers.add(usize::from(handler.0), 0, 1);
            }
            Entry::Dropped { handler, cause } => {
                let column = match cause {
                    DropCause::NoCode => 1,
                    DropCause::AllBusy => 2,
                };
                self.nodes.add(node, 6, 1);
                self.handlers.add(usize::from(handler.0), column, 1);
            }
            Entry::Reset => self.nodes.add(node, 11, 1),
            _ => {}
        }
    }

    /// Counts a stretch that ended.
    pub fn count_stretch(&mut self, stretch: &Stretch) {
        let node = usize::from(stretch.node);
        let handler = usize::from(stretch.live.handler.0);
        match stretch.end {
            StretchEnd::Next | StretchEnd::Answered(_) => {}
            StretchEnd::Halted => {
                self.nodes.add(node, 7, 1);
                self.handlers.add(handler, 4, 1);
            }
            StretchEnd::Faulted(_) => {
                self.nodes.add(node, 8, 1);
                self.handlers.add(handler, 5, 1);
            }
            StretchEnd::Cut => {
                self.nodes.add(node, 9, 1);
                self.handlers.add(handler, 6, 1);
            }
            StretchEnd::Open | StretchEnd::Unseen => self.handlers.add(handler, 7, 1),
        }
        match stretch.live.phase {
            Phase::Waiting => self.count_wait(handler, stretch),
            Phase::Running => {}
            Phase::Asking(fun) => self.count_call(usize::from(fun.0), stretch),
        }
    }

    /// Counts a wait to start, which ended by the start or otherwise.
    fn count_wait(&mut self, handler: usize, stretch: &Stretch) {
        if let StretchEnd::Next = stretch.end {
            self.handlers.add(handler, 3, 1);
        }
        self.handlers.add_wait(handler, 8, stretch);
    }

    fn count_call(&mut self, fun: usize, stretch: &Stretch) {
        self.functions.add(fun, 0, 1);
        let column = match stretch.end {
            StretchEnd::Answered(_) => 1,
            StretchEnd::Open | StretchEnd::Unseen => 3,
            StretchEnd::Next | StretchEnd::Halted | StretchEnd::Faulted(_) | StretchEnd::Cut => 2,
        };
        self.functions.add(fun, column, 1);
        self.functions.add_wait(fun, 4, stretch);
    }
}

/// The row of a link.
pub fn link_place(from: u8, to: u8) -> usize {
    usize::from(from) * NODES_MAX + usize::from(to)
}
