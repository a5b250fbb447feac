//! The bounds of a world in a picture: which are kept, which are missed, which aren't promised, and which the run gives.

use crate::spread::{ROW, row_of};
use mate_num::HandlerId;
use view_bounds::{Bound, Bounds, Mismatch, Outcome, Own, Promise};
use view_records::Fill::{Number, Text};
use view_records::Ink;
use view_records::words::handler_name;
use view_svg::notes::write_nodes;
use view_svg::svg::{begin_text, path, text};
use view_svg::{Flow, Part};
use vm_shape::Description;

/// The shape of a bound, round its top.
const SHAPE: &str = "m-4 0h8m-4 0v12m-4 0h8";

/// That of one that the run gives.
const OWN: &str = "m-5 6h5m0-5v10";

/// Says what the bounds are, or why there are none.
pub fn write_bound_line(desc: &Description, bounds: &Bounds, y: u64, ink: &mut Ink) {
    let class = match bounds.mismatch {
        Some(_) => "t warn",
        None => "t",
    };
    begin_text(class, "", 100, y, ink);
    match bounds.mismatch {
        Some(Mismatch::Nodes { report, world }) => ink.line(
            "No bounds: this isn't the report of that world. The world has {} nodes, and the report {}.",
            &[Number(world), Number(report)],
        ),
        Some(Mismatch::Injection { injected }) => ink.line(
            "No bounds: this isn't the report of that world. The world injects {} {} on node {} at {} ms, which the report doesn't have.",
            &[
                Text(handler_name(desc, HandlerId(injected.handler))),
                Number(u64::from(injected.version)),
                Number(u64::from(injected.node)),
                Number(injected.time),
            ],
        ),
        None => write_rule(bounds, ink),
    }
    ink.text("</text>\n");
}

fn write_rule(bounds: &Bounds, ink: &mut Ink) {
    ink.line(
        "Bound: 3 longest intervals a hop, {} ms. It is promised only without loss, suppression and resets",
        &[Number(bounds.hop)],
    );
    if let Some(bound) = bounds.bounds.first() {
        match bounds.promise(bound) {
            Promise::Lossy => ink.text("; here links lose packets, so no bound is promised"),
            Promise::Suppressed => ink.text("; here nodes suppress, so no bound is promised"),
            Promise::Given | Promise::Reset { .. } => {}
        }
    }
    ink.text(".");
}

/// How many bounds of a handler there are of each sort.
#[derive(Clone, Copy)]
struct Tally {
    kept: u64,
    missed: u64,
    open: u64,
    /// Those that a reset keeps from being promised, by node, a bit for each.
    unpromised: u64,
    /// The nodes that are reset, a bit for each.
    reset: u64,
    /// The nodes whose bounds lie behind the picture, a bit for each.
    behind: u64,
    /// The nodes that no window of the run leads to, a bit for each.
    closed: u64,
    /// The nodes that no pairs of links lead to, a bit for each.
    apart: u64,
}

impl Tally {
    fn of(part: &Part, bounds: &Bounds, handler: HandlerId) -> Tally {
        let mut tally = Tally {
            kept: 0,
            missed: 0,
            open: 0,
            unpromised: 0,
            reset: 0,
            behind: 0,
            closed: 0,
            apart: 0,
        };
        for bound in bounds.bounds.as_slice() {
            let drawn = bound.injected.handler == handler.0 && part.has_row(bound.node);
            if drawn && !bound.replaced {
                tally.take(part, bounds, bound);
            }
        }
        tally
    }

    fn take(&mut self, part: &Part, bounds: &Bounds, bound: &Bound) {
        let bit = bit(bound.node);
        if bound.hops.is_none() {
            self.apart |= bit;
            return;
        }
        if bound.own.is_none() {
            self.closed |= bit;
        }
        match bounds.outcome(bound, bound.by) {
            Outcome::Kept => self.kept = self.kept.saturating_add(1),
            Outcome::Missed => self.missed = self.missed.saturating_add(1),
            Outcome::Open => self.open = self.open.saturating_add(1),
        }
        if let Promise::Reset { node } = bounds.promise(bound) {
            self.unpromised |= bit;
            self.reset |= self::bit(node);
        }
        if bound.by > part.scale.to {
            self.behind |= bit;
        }
    }
}

/// The word with the bit of a node.
fn bit(node: u8) -> u64 {
    1u64.wrapping_shl(u32::from(node))
}

/// Says what became of the bounds of a handler.
pub fn write_tally(part: &Part, bounds: &Bounds, handler: HandlerId, y: u64, ink: &mut Ink) {
    let tally = Tally::of(part, bounds, handler);
    let class = if tally.missed > 0 { "t warn" } else { "t" };
    begin_text(class, "", 7_600, y, ink);
    ink.line(
        "Bounds: {} kept, {} missed",
        &[Number(tally.kept), Number(tally.missed)],
    );
    if tally.open > 0 {
        ink.line(", {} not reached", &[Number(tally.open)]);
    }
    write_those("; behind the picture: ", tally.behind, ink);
    if tally.unpromised != 0 {
        ink.text("; not promised, as ");
        write_nodes(tally.reset, ink);
        ink.text(if tally.reset.count_ones() == 1 {
            " is reset: "
        } else {
            " are reset: "
        });
        write_nodes(tally.unpromised, ink);
    }
    write_those("; no window in this run to ", tally.closed, ink);
    write_those("; no links both ways to ", tally.apart, ink);
    ink.text("</text>\n");
}

/// Names some nodes, if there are any.
fn write_those(what: &str, nodes: u64, ink: &mut Ink) {
    if nodes != 0 {
        ink.text(what);
        write_nodes(nodes, ink);
    }
}

/// Draws the time by which each node has to hold a version, of any run and of this one.
pub fn draw_bounds(part: &Part, bounds: &Bounds, handler: HandlerId, rows: u64, ink: &mut Ink) {
    for place in 0..bounds.bounds.len() {
        if let Some(bound) = bounds.bounds.get(place) {
            if bound.injected.handler == handler.0 && part.has_row(bound.node) {
                let y = row_of(part, bound.node, rows);
                if !bound.replaced && bound.hops.is_some() && shows(part, bound.by) {
                    draw_bound(part, bounds, bound, y, ink);
                }
                if let Some(own) = bound.own {
                    if own.from != own.node && shows(part, own.by) {
                        draw_own(part, bounds, place, &own, y, ink);
                    }
                }
            }
        }
    }
}

fn shows(part: &Part, time: u64) -> bool {
    part.scale.from <= time && time <= part.scale.to
}

fn draw_bound(part: &Part, bounds: &Bounds, bound: &Bound, y: u64, ink: &mut Ink) {
    let (outcome, promise) = (bounds.outcome(bound, bound.by), bounds.promise(bound));
    let given = is_given(promise);
    let x = part.scale.tenths(bound.by);
    path(bound_class(outcome, given), "", x, y, SHAPE, ink);
    let hops = bound.hops.unwrap_or(0);
    ink.line(
        "><title>node {} {} version {} by {} ms, {}{} away",
        &[
            Number(u64::from(bound.node)),
            Text(if given {
                "is to hold"
            } else {
                "would have to hold"
            }),
            Number(u64::from(bound.injected.version)),
            Number(bound.by),
            Number(hops),
            Text(if hops == 1 { " hop" } else { " hops" }),
        ],
    );
    write_promise(promise, ink);
    ink.line("{}</title></path>\n", &[Text(outcome_word(outcome))]);
    if let Outcome::Missed = outcome {
        let missed = if given {
            "missed"
        } else {
            "missed, not promised"
        };
        let (x, y) = (x.saturating_add(60), y.saturating_add(ROW - 3));
        text("s warn", x, y, missed, ink);
    }
}

/// Draws the bound that the run gives, with the losses that its last window waited for.
fn draw_own(part: &Part, bounds: &Bounds, place: usize, own: &Own, y: u64, ink: &mut Ink) {
    let Some(bound) = bounds.bounds.get(place) else {
        return;
    };
    let outcome = bounds.outcome(bound, own.by);
    let class = match outcome {
        Outcome::Missed => "missed",
        Outcome::Kept | Outcome::Open => "bound",
    };
    path(class, "", part.scale.tenths(own.by), y, OWN, ink);
    ink.line(
        "><title>node {} has version {} by {} ms in this run, from node {}",
        &[
            Number(u64::from(own.node)),
            Number(u64::from(bound.injected.version)),
            Number(own.by),
            Number(u64::from(own.from)),
        ],
    );
    let mut begun = false;
    for loss in bounds.losses(place) {
        if loss.from == own.from && loss.to == own.node {
            let before = if begun {
                ", "
            } else {
                ", after the loss of packets "
            };
            ink.line("{}{}", &[Text(before), Number(u64::from(loss.number))]);
            begun = true;
        }
    }
    ink.line("{}</title></path>\n", &[Text(outcome_word(outcome))]);
}

fn outcome_word(outcome: Outcome) -> &'static str {
    match outcome {
        Outcome::Kept => ": kept",
        Outcome::Missed => ": missed",
        Outcome::Open => ": not reached",
    }
}

fn is_given(promise: Promise) -> bool {
    match promise {
        Promise::Given => true,
        Promise::Lossy | Promise::Suppressed | Promise::Reset { .. } => false,
    }
}

fn write_promise(promise: Promise, ink: &mut Ink) {
    match promise {
        Promise::Given => {}
        Promise::Lossy => ink.text(", which isn't promised, as links lose packets"),
        Promise::Suppressed => ink.text(", which isn't promised, as nodes suppress"),
        Promise::Reset { node } => ink.line(
            ", which isn't promised, as node {} is reset before",
            &[Number(u64::from(node))],
        ),
    }
}

fn bound_class(outcome: Outcome, given: bool) -> &'static str {
    match outcome {
        Outcome::Missed => "missed",
        Outcome::Kept | Outcome::Open if given => "bound",
        Outcome::Kept | Outcome::Open => "bound far",
    }
}

/// Explains the marks of bounds.
pub fn write_bound_legend(flow: &mut Flow, ink: &mut Ink) {
    for (class, shape, what) in [
        ("bound", SHAPE, "by when a node is to hold a version"),
        ("bound far", SHAPE, "the same, not promised"),
        ("missed", SHAPE, "missed"),
        ("bound", OWN, "by when it does by the windows of this run"),
    ] {
        let x = flow.next(what.len());
        let (middle, y) = (x.saturating_add(100), flow.y);
        path(class, "", middle, y.saturating_sub(11), shape, ink);
        ink.text("/>\n");
        text("t", x.saturating_add(250), y, what, ink);
    }
}
