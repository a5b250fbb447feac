//! What a line of a report has, by columns.

use mate_journal::{Air, Entry, VoidCause};
use mate_num::{HandlerId, Store};
use report_line_reader::{Line, Told, entry_word};
use report_writer::words::{drop_word, fault_word};
use view_records::words::{function_name, handler_name, void_word};
use view_records::{Cell, Nodes};
use vm_shape::Description;

/// What a line has.
#[derive(Clone, Copy)]
pub struct Cells<'a> {
    /// The word of the record.
    pub record: &'a str,
    pub invocation: Cell<'a>,
    pub handler: Cell<'a>,
    pub context: Cell<'a>,
    pub function: Cell<'a>,
    /// The version that is installed, or that a node already holds.
    pub version: Cell<'a>,
    /// Why, by the report's word.
    pub cause: Cell<'a>,
    /// The number of a packet.
    pub packet: Cell<'a>,
    /// The other node: the one that a packet doesn't reach, or the sender.
    pub other: Cell<'a>,
    /// The length of an interval, in ms.
    pub length: Cell<'a>,
    pub values: Cell<'a>,
    /// An answer.
    pub value: Cell<'a>,
    pub store: Option<&'a Store>,
    pub bytes: Cell<'a>,
}

impl<'a> Cells<'a> {
    /// A record that has nothing else.
    fn of(record: &'a str) -> Cells<'a> {
        Cells {
            record,
            invocation: Cell::Nothing,
            handler: Cell::Nothing,
            context: Cell::Nothing,
            function: Cell::Nothing,
            version: Cell::Nothing,
            cause: Cell::Nothing,
            packet: Cell::Nothing,
            other: Cell::Nothing,
            length: Cell::Nothing,
            values: Cell::Nothing,
            value: Cell::Nothing,
            store: None,
            bytes: Cell::Nothing,
        }
    }

    /// What a line has; the nodes are as they were before it.
    pub fn of_line(desc: &'a Description, nodes: &Nodes, line: &'a Line) -> Cells<'a> {
        let mut cells = Cells::of(record_of(line));
        match &line.told {
            Told::OnAir(air) => cells.set_air(air),
            Told::Made(entry) => {
                cells.set_entry(desc, entry);
                cells.set_invocation(desc, nodes, line.node, entry);
            }
            Told::Installed {
                handler,
                version,
                image,
            } => {
                cells.set_version(desc, *handler, *version);
                cells.bytes = Cell::Hex(image.as_slice());
            }
            Told::Shown(store) => cells.store = Some(store),
        }
        cells
    }

    fn set_version(&mut self, desc: &'a Description, handler: HandlerId, version: u32) {
        self.handler = Cell::Text(handler_name(desc, handler));
        self.version = Cell::Number(u64::from(version));
    }

    fn set_air(&mut self, air: &'a Air) {
        match air {
            Air::Interval { length } => self.length = Cell::Number(u64::from(*length)),
            Air::Keep => {}
            Air::Sent { number, bytes } => {
                self.packet = Cell::Number(u64::from(*number));
                self.bytes = Cell::Hex(bytes.as_slice());
            }
            Air::Lost { number, to: other }
            | Air::Got {
                number,
                from: other,
            } => {
                self.packet = Cell::Number(u64::from(*number));
                self.other = Cell::Number(u64::from(*other));
            }
            Air::Noise { bytes } => self.bytes = Cell::Hex(bytes.as_slice()),
        }
    }

    /// What an entry has of its own. A kind that isn't named here has its word alone.
    fn set_entry(&mut self, desc: &'a Description, entry: &'a Entry) {
        match entry {
            Entry::Post {
                inv: _,
                handler,
                ctx,
                payload,
            } => {
                self.handler = Cell::Text(handler_name(desc, *handler));
                self.context = Cell::Number(u64::from(ctx.0));
                self.values = Cell::Values(payload.as_slice());
            }
            Entry::Dropped { handler, cause } => {
                self.handler = Cell::Text(handler_name(desc, *handler));
                self.cause = Cell::Text(drop_word(*cause));
            }
            Entry::Ask { inv: _, fun, args } => {
                self.function = Cell::Text(function_name(desc, *fun));
                self.values = Cell::Values(args.as_slice());
            }
            Entry::Answer { inv: _, value } => self.value = Cell::Value(*value),
            Entry::Fault { inv: _, kind } => self.cause = Cell::Text(fault_word(*kind)),
            Entry::Install {
                handler,
                version,
                image: _,
            } => self.set_version(desc, *handler, *version),
            Entry::Void { cause } => {
                self.cause = Cell::Text(void_word(*cause));
                if let VoidCause::NotNewer { held } = cause {
                    self.version = Cell::Number(u64::from(*held));
                }
            }
            _ => {}
        }
    }

    /// The invocation of an entry, with its handler and its context if it is live.
    fn set_invocation(&mut self, desc: &'a Description, nodes: &Nodes, node: u8, entry: &Entry) {
        let Some(inv) = invocation_of(entry) else {
            return;
        };
        self.invocation = Cell::Number(u64::from(inv));
        if let Entry::Post { .. } = entry {
            return;
        }
        if let Some(live) = nodes.live(node, inv) {
            self.handler = Cell::Text(handler_name(desc, live.handler));
            self.context = Cell::Number(u64::from(live.ctx.0));
        }
    }
}

/// The word of a line's record.
fn record_of(line: &Line) -> &str {
    match &line.told {
        Told::OnAir(air) => match air {
            Air::Interval { .. } => "interval",
            Air::Keep => "keep",
            Air::Sent { .. } => "sent",
            Air::Lost { .. } => "lost",
            Air::Got { .. } => "got",
            Air::Noise { .. } => "noise",
        },
        Told::Made(entry) => entry_word(entry),
        Told::Installed { .. } => "install",
        Told::Shown(_) => "seen",
    }
}

/// The invocation that an entry is of, if it is of one.
fn invocation_of(entry: &Entry) -> Option<u32> {
    match entry {
        Entry::Post { inv, .. }
        | Entry::Start { inv }
        | Entry::Ask { inv, .. }
        | Entry::Answer { inv, .. }
        | Entry::Halt { inv }
        | Entry::Fault { inv, .. } => Some(*inv),
        _ => None,
    }
}
