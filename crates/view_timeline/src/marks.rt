//! The marks of a timeline.

use mate_journal::{Air, DropCause, Entry};
use mate_num::{HandlerId, PACKET_MAX, Stamp};
use report_line_reader::{Line, Told};
use std::alloc::Global;
use view_records::{
    Flight, Flights, Kind, Nodes, PacketKind, Phase, Stretch, StretchEnd, ViewFault, Window,
};
use vm_shape::Description;

/// The most marks that a picture has.
const MARKS_MAX: usize = 10_000;

/// The most marks that one line makes more: one that ends, and one that begins.
const MARKS_A_LINE: usize = 2;

/// The bytes of a packet, or of noise.
#[derive(Clone, Copy)]
pub struct Bytes {
    bytes: [u8; PACKET_MAX],
    size: usize,
}

impl Bytes {
    /// The first of these bytes, as many as a packet may have.
    fn of(bytes: &[u8]) -> Bytes {
        let size = bytes.len().min(PACKET_MAX);
        let mut copy = [0u8; PACKET_MAX];
        for place in 0..size {
            copy[place] = bytes[place];
        }
        Bytes { bytes: copy, size }
    }

    /// The bytes.
    pub fn as_slice(&self) -> &[u8] {
        self.bytes.as_slice().split_at(self.size.min(PACKET_MAX)).0
    }
}

/// What a mark shows.
#[derive(Clone, Copy)]
pub enum What {
    /// What an invocation did.
    Stretch(Stretch),
    /// The node got a version.
    Installed {
        handler: HandlerId,
        version: u32,
    },
    /// An event was dropped.
    Dropped {
        handler: HandlerId,
        cause: DropCause,
    },
    /// The node was reset.
    Reset,
    /// The node sent a packet, which came to another one, or was lost on its way to one, if `heard` says so.
    Sent {
        number: u32,
        bytes: Bytes,
        heard: bool,
    },
    /// A packet of the node arrived at another one.
    Came {
        number: u32,
        kind: PacketKind,
        to: u8,
    },
    /// A packet of the node was lost on its way to another one.
    Lost {
        number: u32,
        kind: PacketKind,
        to: u8,
    },
    /// The node heard bytes that are no packet.
    Noise {
        bytes: Bytes,
    },
    /// An interval of the node's timer began.
    Interval {
        length: u32,
    },
    /// The point of an interval came, and the node sent nothing.
    Kept,
}

impl What {
    /// What kind it is of.
    fn kind(&self) -> Kind {
        match self {
            What::Stretch(_) => Kind::Invocations,
            What::Installed { .. } => Kind::Installs,
            What::Dropped { .. } => Kind::Drops,
            What::Reset => Kind::Resets,
            What::Sent { bytes, .. } => Kind::of_packet(PacketKind::of(bytes.as_slice())),
            What::Came { kind, .. } => Kind::of_packet(*kind),
            What::Lost { .. } => Kind::Losses,
            What::Noise { .. } => Kind::Noise,
            What::Interval { .. } | What::Kept => Kind::Intervals,
        }
    }
}

/// A mark: on which node, since when, until when, and of what.
#[derive(Clone, Copy)]
pub struct Mark {
    pub node: u8,
    pub from: Stamp,
    pub to: Stamp,
    pub what: What,
}

impl Mark {
    /// What happens at once, as a line records it.
    fn at(line: &Line, what: What) -> Mark {
        Mark {
            node: line.node,
            from: line.stamp,
            to: line.stamp,
            what,
        }
    }
}

/// The marks of a report within a window.
#[derive(Drop)]
pub struct Marks {
    window: Window,
    pub marks: Vec<Mark>,
    nodes: Nodes,
    flights: Flights,
    ended: Vec<Stretch>,
    /// When the marks became too many, if they did.
    pub full: Option<Stamp>,
    /// The stamp of the last record.
    pub last: Stamp,
}

impl Marks {
    /// No marks.
    pub fn new(alloc: Global, window: Window) -> Result<Marks, ViewFault> {
        Ok(Marks {
            window,
            marks: Vec::new(alloc),
            nodes: Nodes::new(alloc)?,
            flights: Flights::new(alloc),
            ended: Vec::new(alloc),
            full: None,
            last: Stamp { event: 0, time: 0 },
        })
    }

    /// Marks what a line records.
    pub fn take(&mut self, desc: &Description, line: &Line) -> Result<(), ViewFault> {
        self.last = line.stamp;
        if self.full.is_some() {
            return Ok(());
        }
        let most = self.marks.len().saturating_add(self.nodes.count());
        if most.saturating_add(MARKS_A_LINE) > MARKS_MAX {
            self.full = Some(self.nodes.now);
            return self.finish(StretchEnd::Unseen);
        }
        self.nodes.follow(desc, line, &mut self.ended)?;
        self.mark_ended()?;
        if let Some(mark) = self.mark_of(line) {
            self.mark(mark)?;
        }
        if let Told::OnAir(Air::Sent { number, bytes }) = &line.told {
            let mut flight = Flight::of(line, *number, bytes.as_slice());
            flight.mark = self.sent_mark(*number);
            self.flights.send(flight)?;
        }
        Ok(())
    }

    /// Marks what the invocations do that are live when nothing more is marked, for this reason.
    pub fn finish(&mut self, end: StretchEnd) -> Result<(), ViewFault> {
        self.nodes.finish(end, &mut self.ended)?;
        self.mark_ended()
    }

    /// Keeps the marks that this window shows. It may have other places than the one before: those of a report whose
    /// times are all 0.
    pub fn settle(&mut self, window: &Window) {
        let window = *window;
        self.marks.retain(|mark| is_drawn(&window, mark));
    }

    /// Keeps a mark of a node and a kind that are seen, and at places that are; those at time 0 may still be numbers of
    /// events. A packet that comes to a node is one if both nodes are seen.
    fn mark(&mut self, mark: Mark) -> Result<(), ViewFault> {
        let other = match mark.what {
            What::Came { to, .. } => to,
            _ => mark.node,
        };
        if self.window.has_node(mark.node)
            && self.window.has_node(other)
            && self.window.has_kind(mark.what.kind())
            && (self.window.has_span(mark.from, mark.to) || mark.to.time == 0)
        {
            self.marks.push(mark)?;
        }
        Ok(())
    }

    /// Marks the stretches that ended.
    fn mark_ended(&mut self) -> Result<(), ViewFault> {
        for place in 0..self.ended.len() {
            let found = match self.ended.get(place) {
                Some(stretch) => Some(*stretch),
                None => None,
            };
            if let Some(stretch) = found {
                self.mark(Mark {
                    node: stretch.node,
                    from: stretch.live.since,
                    to: stretch.to,
                    what: What::Stretch(stretch),
                })?;
            }
        }
        self.ended.clear();
        Ok(())
    }

    /// What a line records, as a mark.
    fn mark_of(&mut self, line: &Line) -> Option<Mark> {
        match &line.told {
            Told::OnAir(air) => Some(self.air_mark(line, air)),
            Told::Made(Entry::Dropped { handler, cause }) => {
                let what = What::Dropped {
                    handler: *handler,
                    cause: *cause,
                };
                Some(Mark::at(line, what))
            }
            Told::Made(Entry::Reset) => Some(Mark::at(line, What::Reset)),
            Told::Installed {
                handler,
                version,
                image: _,
            } => {
                let what = What::Installed {
                    handler: *handler,
                    version: *version,
                };
                Some(Mark::at(line, what))
            }
            Told::Made(_) | Told::Shown(_) => None,
        }
    }

    fn air_mark(&mut self, line: &Line, air: &Air) -> Mark {
        match air {
            Air::Sent { number, bytes } => {
                let what = What::Sent {
                    number: *number,
                    bytes: Bytes::of(bytes.as_slice()),
                    heard: false,
                };
                Mark::at(line, what)
            }
            Air::Got { number, from } => {
                let flight = self.heard(line, *from, *number);
                Mark {
                    node: flight.node,
                    from: flight.sent,
                    to: line.stamp,
                    what: What::Came {
                        number: *number,
                        kind: flight.kind,
                        to: line.node,
                    },
                }
            }
            Air::Lost { number, to } => {
                let what = What::Lost {
                    number: *number,
                    kind: self.heard(line, line.node, *number).kind,
                    to: *to,
                };
                Mark::at(line, what)
            }
            Air::Interval { length } => {
                let mut mark = Mark::at(line, What::Interval { length: *length });
                mark.to.time = mark.to.time.saturating_add(*length);
                mark
            }
            Air::Keep => Mark::at(line, What::Kept),
            Air::Noise { bytes } => {
                let bytes = Bytes::of(bytes.as_slice());
                Mark::at(line, What::Noise { bytes })
            }
        }
    }

    /// Where the mark of the packet of this number is, if it is the last one; `usize::MAX` if it isn't.
    fn sent_mark(&self, number: u32) -> usize {
        match self.marks.last() {
            Some(mark) => match mark.what {
                What::Sent { number: sent, .. } if sent == number => {
                    self.marks.len().saturating_sub(1)
                }
                _ => usize::MAX,
            },
            None => usize::MAX,
        }
    }

    /// A packet came to a node or was lost on its way: the packet as it was sent, whose mark says so from now on.
    fn heard(&mut self, line: &Line, from: u8, number: u32) -> Flight {
        let Some(flight) = self.flights.find(number) else {
            return Flight {
                node: from,
                ..Flight::of(line, number, &[])
            };
        };
        if flight.mark < self.marks.len() {
            if let What::Sent { number, bytes, .. } = self.marks[flight.mark].what {
                self.marks[flight.mark].what = What::Sent {
                    number,
                    bytes,
                    heard: true,
                };
            }
        }
        flight
    }
}

/// Whether a mark is drawn: it is in the window, and no wait to start that ended where it began, with a start.
fn is_drawn(window: &Window, mark: &Mark) -> bool {
    if !window.has_span(mark.from, mark.to) {
        return false;
    }
    match &mark.what {
        What::Stretch(stretch) => match (stretch.live.phase, stretch.end) {
            (Phase::Waiting, StretchEnd::Next) => {
                window.place(mark.from) != window.place(mark.to)
            }
            _ => true,
        },
        _ => true,
    }
}
