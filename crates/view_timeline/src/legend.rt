//! What the forms of a timeline mean: those that occur in it.

use crate::marks::{Mark, What};
use crate::signs::{
    CUT, FAULT, GOES_ON, INSTALLED, KEPT, LIVES, LOST_BELOW, NOISE, RESET, TICK, dropped,
    packet_class, packet_shape,
};
use crate::timeline::{Picture, is_tick};
use mate_journal::DropCause;
use mate_num::{HANDLERS_MAX, HandlerId};
use view_records::words::handler_name;
use view_records::{Ink, PacketKind, Phase, Stretch, StretchEnd};
use view_svg::Flow;
use view_svg::svg::{colour, line, path, rect, text};
use vm_shape::Description;

/// What a legend explains, in the order in which it is written.
#[derive(Clone, Copy)]
pub enum Entry {
    Waits,
    Runs,
    Ticks,
    Asks,
    Cut,
    Lives,
    GoesOn,
    Fault,
    Install,
    Busy,
    NoCode,
    Reset,
    Vector,
    Status,
    Fragment,
    Message,
    Other,
    Unheard,
    Came,
    Lost,
    Noise,
    Interval,
    Kept,
    Density,
}

/// All entries.
const ENTRIES: [Entry; 24] = [
    Entry::Waits,
    Entry::Runs,
    Entry::Ticks,
    Entry::Asks,
    Entry::Cut,
    Entry::Lives,
    Entry::GoesOn,
    Entry::Fault,
    Entry::Install,
    Entry::Busy,
    Entry::NoCode,
    Entry::Reset,
    Entry::Vector,
    Entry::Status,
    Entry::Fragment,
    Entry::Message,
    Entry::Other,
    Entry::Unheard,
    Entry::Came,
    Entry::Lost,
    Entry::Noise,
    Entry::Interval,
    Entry::Kept,
    Entry::Density,
];

/// The texts of the entries, in order.
const TEXTS: [&str; 24] = [
    "waits to start",
    "runs",
    "runs, which takes no time",
    "waits for a function's answer",
    "is cut by an install or a reset",
    "still lives when the report ends",
    "goes on behind this picture",
    "faults",
    "handler and version installed",
    "post dropped: all contexts busy",
    "post dropped: no code",
    "reset",
    "vector sent",
    "status sent",
    "fragment sent",
    "message sent",
    "other bytes sent",
    "hollow: no node hears it",
    "comes to a node",
    "lost for a node above or below",
    "noise heard",
    "interval of the timer",
    "vector kept back (suppressed)",
    "packets sent, and losses in red: too many to draw each",
];

/// The shape of an entry.
#[derive(Clone, Copy)]
enum Shape {
    /// A bar of this height.
    Bar(u64),
    /// A path that begins so far right, in tenths of pixels, and so far above the line, in pixels.
    Path(u64, u64, &'static str),
    /// A rising line.
    Way,
}

impl Entry {
    /// The word with the bit of this entry.
    fn bit(self) -> u32 {
        1u32.wrapping_shl(u32::from(self as u8))
    }

    fn text(self) -> &'static str {
        match TEXTS.get(usize::from(self as u8)) {
            Some(text) => *text,
            None => "",
        }
    }

    /// The class and the shape of the entry. Things of handlers have the colour of the first one.
    fn shown(self) -> (&'static str, Shape) {
        match self {
            Entry::Waits => ("wait c0", Shape::Bar(4)),
            Entry::Runs => ("run c0", Shape::Bar(9)),
            Entry::Ticks => ("tick c0", Shape::Path(100, 8, TICK)),
            Entry::Asks => ("ask c0", Shape::Bar(7)),
            Entry::Cut => ("cut", Shape::Path(100, 10, CUT)),
            Entry::Lives => ("open", Shape::Path(100, 10, LIVES)),
            Entry::GoesOn => ("on", Shape::Path(0, 10, GOES_ON)),
            Entry::Fault => ("x", Shape::Path(100, 4, FAULT)),
            Entry::Install => ("inst c0", Shape::Path(100, 0, INSTALLED)),
            Entry::Busy => ("drop", Shape::Path(100, 4, dropped(DropCause::AllBusy))),
            Entry::NoCode => ("drop", Shape::Path(100, 4, dropped(DropCause::NoCode))),
            Entry::Reset => ("reset", Shape::Path(100, 12, RESET)),
            Entry::Vector => of_packet(PacketKind::Vector, true),
            Entry::Status => of_packet(PacketKind::Status, true),
            Entry::Fragment => of_packet(PacketKind::Fragment, true),
            Entry::Message => of_packet(PacketKind::Message, true),
            Entry::Other => of_packet(PacketKind::Other, true),
            Entry::Unheard => of_packet(PacketKind::Vector, false),
            Entry::Came => ("came k0", Shape::Way),
            Entry::Lost => ("lost", Shape::Path(100, 10, LOST_BELOW)),
            Entry::Noise => ("noise", Shape::Path(100, 4, NOISE)),
            Entry::Interval => ("interval", Shape::Path(0, 4, "m0-4v4h20v-4")),
            Entry::Kept => ("kept", Shape::Path(100, 4, KEPT)),
            Entry::Density => (
                "many",
                Shape::Path(0, 0, "v-6h4v6zm6 0v-10h4v10zm6 0v-4h4v4z"),
            ),
        }
    }

    /// Writes the entry.
    fn write(self, x: u64, y: u64, ink: &mut Ink) {
        let (class, shape) = self.shown();
        let right = x.saturating_add(200);
        match shape {
            Shape::Bar(height) => {
                let top = y.saturating_sub(4).saturating_sub(height / 2);
                rect(class, "", x, right, top, height, ink)
            }
            Shape::Path(across, up, lines) => {
                path(
                    class,
                    "",
                    x.saturating_add(across),
                    y.saturating_sub(up),
                    lines,
                    ink,
                )
            }
            Shape::Way => line(class, x, y, right, y.saturating_sub(8), ink),
        }
        ink.text("/>\n");
        text("t", x.saturating_add(250), y, self.text(), ink);
    }
}

fn of_packet(kind: PacketKind, heard: bool) -> (&'static str, Shape) {
    let shape = Shape::Path(100, 4, packet_shape(kind));
    (packet_class(kind, heard), shape)
}

/// What occurs in a timeline.
#[derive(Clone, Copy)]
pub struct Occurring {
    entries: u32,
    /// A bit for each handler that has a colour there.
    handlers: u32,
}

impl Occurring {
    /// What occurs in a picture.
    pub fn among(picture: &Picture<'_>) -> Occurring {
        let mut occurring = Occurring {
            entries: 0,
            handlers: 0,
        };
        for mark in picture.marks {
            occurring.take(picture, mark);
        }
        occurring
    }

    fn has(&self, entry: Entry) -> bool {
        self.entries & entry.bit() != 0
    }

    fn has_handler(&self, handler: u8) -> bool {
        self.handlers & 1u32.wrapping_shl(u32::from(handler)) != 0
    }

    fn add(&mut self, entry: Entry) {
        self.entries |= entry.bit();
    }

    fn add_handler(&mut self, handler: HandlerId) {
        self.handlers |= 1u32.wrapping_shl(u32::from(handler.0));
    }

    fn take(&mut self, picture: &Picture<'_>, mark: &Mark) {
        let entry = match &mark.what {
            What::Stretch(stretch) => {
                self.take_end(picture, stretch);
                match stretch.live.phase {
                    Phase::Waiting => Entry::Waits,
                    Phase::Running if is_tick(&picture.part, stretch) => Entry::Ticks,
                    Phase::Running => Entry::Runs,
                    Phase::Asking(_) => Entry::Asks,
                }
            }
            What::Installed { handler, .. } => {
                self.add_handler(*handler);
                Entry::Install
            }
            What::Dropped { cause, .. } => match cause {
                DropCause::AllBusy => Entry::Busy,
                DropCause::NoCode => Entry::NoCode,
            },
            What::Reset => Entry::Reset,
            What::Noise { .. } => Entry::Noise,
            What::Interval { .. } => Entry::Interval,
            What::Kept => Entry::Kept,
            What::Sent { .. } | What::Came { .. } | What::Lost { .. } if picture.dense => {
                Entry::Density
            }
            What::Sent { bytes, heard, .. } => {
                if !*heard {
                    self.add(Entry::Unheard);
                }
                of_kind(PacketKind::of(bytes.as_slice()))
            }
            What::Came { .. } => Entry::Came,
            What::Lost { .. } => Entry::Lost,
        };
        self.add(entry);
    }

    /// What an invocation did ends, or goes on behind the picture.
    fn take_end(&mut self, picture: &Picture<'_>, stretch: &Stretch) {
        self.add_handler(stretch.live.handler);
        if !picture.part.is_before_end(stretch.to) {
            self.add(Entry::GoesOn);
            return;
        }
        match stretch.end {
            StretchEnd::Next | StretchEnd::Answered(_) | StretchEnd::Halted => {}
            StretchEnd::Faulted(_) => self.add(Entry::Fault),
            StretchEnd::Cut => self.add(Entry::Cut),
            StretchEnd::Open => self.add(Entry::Lives),
            StretchEnd::Unseen => self.add(Entry::GoesOn),
        }
    }
}

fn of_kind(kind: PacketKind) -> Entry {
    match kind {
        PacketKind::Vector => Entry::Vector,
        PacketKind::Status => Entry::Status,
        PacketKind::Fragment => Entry::Fragment,
        PacketKind::Message => Entry::Message,
        PacketKind::Other => Entry::Other,
    }
}

/// How high the legend is, in pixels.
pub fn legend_height(desc: &Description, occurring: &Occurring) -> u64 {
    let mut flow = Flow::from(16);
    for entry in &ENTRIES {
        if occurring.has(*entry) {
            let _ = flow.next(entry.text().len());
        }
    }
    for handler in 0..HANDLERS_MAX as u8 {
        if occurring.has_handler(handler) {
            let _ = flow.next(handler_name(desc, HandlerId(handler)).len());
        }
    }
    flow.y.saturating_add(14)
}

/// Writes the legend from this height on, in pixels.
pub fn write_legend(desc: &Description, occurring: &Occurring, top: u64, ink: &mut Ink) {
    let mut flow = Flow::from(top.saturating_add(16));
    for entry in &ENTRIES {
        if occurring.has(*entry) {
            let x = flow.next(entry.text().len());
            entry.write(x, flow.y, ink);
        }
    }
    for handler in 0..HANDLERS_MAX as u8 {
        if occurring.has_handler(handler) {
            let name = handler_name(desc, HandlerId(handler));
            let (x, y) = (flow.next(name.len()), flow.y);
            let (from, to) = (x.saturating_add(50), x.saturating_add(150));
            let tone = colour(usize::from(handler));
            rect("run", tone, from, to, y.saturating_sub(9), 9, ink);
            ink.text("/>\n");
            text("t", x.saturating_add(250), y, name, ink);
        }
    }
}
