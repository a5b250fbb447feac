//! By when each node has to hold the versions of a world, as rows.

use mate_files::Sink;
use mate_num::HandlerId;
use script_steps::World;
use std::alloc::Global;
use std::io::Read;
use view_bounds::{Bound, Bounds, Outcome, Own, Promise};
use view_records::words::handler_name;
use view_records::{Cell, Form, Ink, Source, ViewFault, write_head, write_row};
use vm_shape::Description;

const COLUMNS: [&str; 13] = [
    "handler",
    "version",
    "injected_node",
    "injected_time",
    "node",
    "hops",
    "bound",
    "promised",
    "from",
    "own_bound",
    "after_losses",
    "held",
    "why",
];

/// Writes a row for each version that a world injects and each node, once the report is read whole.
pub fn write_bounds<R: Read, S: Sink>(
    alloc: Global,
    desc: &Description,
    form: Form,
    world: &World,
    source: &mut Source<R>,
    sink: &mut S,
) -> Result<(), ViewFault> {
    let mut bounds = Bounds::of(alloc, desc, world)?;
    for _ in 0..u64::MAX {
        let Some(line) = source.next(desc)? else {
            break;
        };
        bounds.take(desc, &line)?;
    }
    let (mut ink, mut losses) = (Ink::new(alloc), Ink::new(alloc));
    write_head(form, &COLUMNS, &mut ink);
    if let Some(last) = source.last() {
        bounds.finish(&last)?;
        for place in 0..bounds.bounds.len() {
            losses.clear();
            write_losses(&bounds, place, &mut losses);
            write_bound(desc, form, &bounds, place, losses.as_bytes(), &mut ink);
        }
    }
    ink.flush(sink)
}

/// The row of a bound; `losses` has the numbers of the packets whose loss was waited for.
fn write_bound<'a>(
    desc: &'a Description,
    form: Form,
    bounds: &Bounds,
    place: usize,
    losses: &'a [u8],
    ink: &mut Ink,
) {
    let Some(bound) = bounds.bounds.get(place) else {
        return;
    };
    let injected = &bound.injected;
    let (from, own, after) = match &bound.own {
        Some(own) => (
            Cell::Number(u64::from(own.from)),
            Cell::Number(own.by),
            Cell::Bytes(losses),
        ),
        None => (Cell::Nothing, Cell::Nothing, Cell::Nothing),
    };
    let (hops, by) = match bound.hops {
        Some(hops) => (Cell::Number(hops), Cell::Number(bound.by)),
        None => (Cell::Nothing, Cell::Nothing),
    };
    let held = match bound.held {
        Some(time) => Cell::Number(time),
        None => Cell::Nothing,
    };
    let row = [
        Cell::Text(handler_name(desc, HandlerId(injected.handler))),
        Cell::Number(u64::from(injected.version)),
        Cell::Number(u64::from(injected.node)),
        Cell::Number(injected.time),
        Cell::Number(u64::from(bound.node)),
        hops,
        by,
        Cell::Text(promise_word(bounds, bound)),
        from,
        own,
        after,
        held,
        Cell::Text(reason(bounds, bound)),
    ];
    write_row(form, &COLUMNS, &row, ink);
}

/// The numbers of the packets whose loss was waited for on the last hop, with spaces between them.
fn write_losses(bounds: &Bounds, place: usize, ink: &mut Ink) {
    let Some(own) = own_of(bounds, place) else {
        return;
    };
    let mut begun = false;
    for loss in bounds.losses(place) {
        if loss.from == own.from && loss.to == own.node {
            ink.text(if begun { " " } else { "" });
            ink.number(u64::from(loss.number));
            begun = true;
        }
    }
}

fn own_of(bounds: &Bounds, place: usize) -> Option<Own> {
    match bounds.bounds.get(place) {
        Some(bound) => bound.own,
        None => None,
    }
}

/// Whether the bound of any run is promised, or why it isn't.
fn promise_word(bounds: &Bounds, bound: &Bound) -> &'static str {
    if bound.hops.is_none() {
        return "";
    }
    if bound.replaced {
        return "replaced";
    }
    match bounds.promise(bound) {
        Promise::Given => "yes",
        Promise::Lossy => "lossy",
        Promise::Suppressed => "suppressed",
        Promise::Reset { .. } => "reset",
    }
}

/// What became of the run's own bound, or why there is none.
fn reason(bounds: &Bounds, bound: &Bound) -> &'static str {
    if bounds.mismatch.is_some() {
        return "other_world";
    }
    match (bound.own, bound.hops) {
        (Some(own), _) => match bounds.outcome(bound, own.by) {
            Outcome::Kept => "kept",
            Outcome::Missed => "missed",
            Outcome::Open => "open",
        },
        (None, Some(_)) => "no_window",
        (None, None) => "no_links",
    }
}
