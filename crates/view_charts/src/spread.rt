//! How versions spread over nodes: for each handler the share of nodes that hold each version, and each node's versions.

use crate::bound_signs::{draw_bounds, write_bound_legend, write_bound_line, write_tally};
use crate::installs::{Held, Install, Installs};
use crate::versions::{CURVE, Versions, draw_rows};
use mate_files::Sink;
use mate_num::{HANDLERS_MAX, HandlerId, NODES_MAX};
use script_steps::World;
use std::alloc::Global;
use std::io::Read;
use view_bounds::Bounds;
use view_records::Fill::{Number, Text};
use view_records::words::handler_name;
use view_records::{Ink, Source, ViewFault, Window};
use view_svg::notes::write_notes;
use view_svg::plot::{begin_picture, write_band, write_heading, write_scale};
use view_svg::svg::{begin_text, line, rect, text};
use view_svg::{Flow, LEFT, Part};
use vm_shape::Description;

/// How high a node's row is, in pixels.
pub const ROW: u64 = 12;

/// How much room is above the first handler, in pixels.
const HEAD: u64 = 66;

/// How much room a handler's title and scale take, in pixels, beside a line of names.
const TITLE: u64 = 46;

/// How high a line of names is, in pixels.
const NAMES: u64 = 18;

/// How much room is below a handler's rows, in pixels.
const GAP: u64 = 24;

/// How high the legend is, in pixels.
const LEGEND: u64 = 52;

/// The height at which a node's row is, in pixels, below `rows`.
pub fn row_of(part: &Part, node: u8, rows: u64) -> u64 {
    rows.saturating_add(part.rows_before(node).saturating_mul(ROW))
}

/// What is drawn.
#[derive(Clone, Copy)]
struct Picture<'a> {
    part: Part,
    installs: &'a [Install],
    bounds: Option<&'a Bounds>,
}

/// Draws how versions spread, once the report is read whole. If the script of a world is given, its bounds are drawn, too.
pub fn draw_spread<R: Read, S: Sink>(
    alloc: Global,
    desc: &Description,
    world: Option<&World>,
    window: &Window,
    source: &mut Source<R>,
    sink: &mut S,
) -> Result<(), ViewFault> {
    let mut installs = Installs::new(alloc);
    let mut bounds = match world {
        Some(world) => Some(Bounds::of(alloc, desc, world)?),
        None => None,
    };
    for _ in 0..u64::MAX {
        let Some(line) = source.next(desc)? else {
            break;
        };
        installs.take(&line)?;
        if let Some(bounds) = &mut bounds {
            bounds.take(desc, &line)?;
        }
    }
    let mut ink = Ink::new(alloc);
    if let Some(last) = source.last() {
        if let Some(bounds) = &mut bounds {
            bounds.finish(&last)?;
        }
        let part = Part::of(window, installs.full, installs.last, &last);
        draw_part(
            desc,
            part,
            installs.installs.as_slice(),
            bounds.as_ref(),
            &mut ink,
        );
    }
    ink.flush(sink)
}

/// Draws a part of a report with these installs and bounds.
fn draw_part<'a>(
    desc: &Description,
    part: Part,
    installs: &'a [Install],
    bounds: Option<&'a Bounds>,
    ink: &mut Ink,
) {
    let picture = Picture {
        part,
        installs,
        bounds,
    };
    draw(desc, &picture, ink);
}

fn draw(desc: &Description, picture: &Picture<'_>, ink: &mut Ink) {
    let mut bottom = HEAD;
    for handler in 0..HANDLERS_MAX as u8 {
        bottom = bottom.saturating_add(height_of(picture, HandlerId(handler)));
    }
    begin_picture(bottom.saturating_add(LEGEND), ink);
    write_head(desc, picture, ink);
    let mut top = HEAD;
    for handler in 0..HANDLERS_MAX as u8 {
        let height = height_of(picture, HandlerId(handler));
        if height > 0 {
            draw_handler(desc, picture, HandlerId(handler), top, ink);
        }
        top = top.saturating_add(height);
    }
    write_legend(picture.bounds.is_some(), bottom, ink);
    ink.text("</svg>\n");
}

/// How high the part of a handler is, in pixels; 0 without an install.
fn height_of(picture: &Picture<'_>, handler: HandlerId) -> u64 {
    if !Held::of(picture.installs, handler).any {
        return 0;
    }
    let lines = Versions::of(picture.installs, handler).lines();
    row_of(&picture.part, NODES_MAX as u8, TITLE + CURVE + GAP).saturating_add(lines.saturating_mul(
        NAMES,
    ))
}

/// Says what of the report is drawn, and what the bounds are.
fn write_head(desc: &Description, picture: &Picture<'_>, ink: &mut Ink) {
    let part = &picture.part;
    write_heading("Spread of versions", &part.last, ink);
    if let Some(bounds) = picture.bounds {
        write_bound_line(desc, bounds, 38, ink);
    }
    if picture.installs.is_empty() {
        text("t warn", 100, 53, "Nothing is installed.", ink);
    } else if part.full {
        let full = "The installs behind are too many for one picture.";
        text("t warn", 100, 53, full, ink);
    } else {
        write_notes(&part.asked(), 53, ink);
    }
}

fn draw_handler(
    desc: &Description,
    picture: &Picture<'_>,
    handler: HandlerId,
    top: u64,
    ink: &mut Ink,
) {
    let (part, installs) = (&picture.part, picture.installs);
    let versions = Versions::of(installs, handler);
    write_title(desc, picture, handler, top.saturating_add(16), ink);
    versions.write_names(part, top.saturating_add(33), ink);
    let names = versions.lines().saturating_mul(NAMES);
    let curve = top.saturating_add(TITLE).saturating_add(names);
    let rows = curve.saturating_add(CURVE + 6);
    draw_bands(part, rows, ink);
    let bottom = row_of(part, NODES_MAX as u8, rows);
    write_scale(&part.scale, part.unit(), curve, bottom, ink);
    versions.draw_curves(part, installs, curve, ink);
    draw_rows(part, installs, handler, rows, ink);
    if let Some(bounds) = picture.bounds {
        if bounds.mismatch.is_none() && !part.window.by_events {
            write_tally(part, bounds, handler, top.saturating_add(16), ink);
            draw_bounds(part, bounds, handler, rows, ink);
        }
    }
}

/// Writes the newest version of a handler, and how many nodes hold it in the end.
fn write_title(
    desc: &Description,
    picture: &Picture<'_>,
    handler: HandlerId,
    y: u64,
    ink: &mut Ink,
) {
    let held = Held::of(picture.installs, handler);
    begin_text("h", "", 100, y, ink);
    ink.line(
        "{}: version {} is the newest, and {} of {} hold it in the end</text>\n",
        &[
            Text(handler_name(desc, handler)),
            Number(u64::from(held.newest)),
            Number(held.holders()),
            Number(picture.part.last.nodes),
        ],
    );
}

/// Writes the grounds of the nodes' rows, and their names.
fn draw_bands(part: &Part, rows: u64, ink: &mut Ink) {
    for node in 0..NODES_MAX as u8 {
        if part.has_row(node) {
            let y = row_of(part, node, rows);
            write_band(part.rows_before(node) % 2 == 0, y, ROW, ink);
            begin_text("e s", "", LEFT * 10 - 60, y.saturating_add(9), ink);
            ink.line("node {}</text>\n", &[Number(u64::from(node))]);
        }
    }
}

fn write_legend(bounds: bool, top: u64, ink: &mut Ink) {
    let mut flow = Flow::from(top.saturating_add(16));
    for (class, what) in [
        (
            "run",
            "a version that is the newest anywhere, in its colour",
        ),
        ("old", "one that is older than the newest anywhere"),
        ("curve", "share of the nodes that hold a version"),
    ] {
        let (x, y) = (flow.next(what.len()), flow.y);
        let right = x.saturating_add(200);
        if class == "curve" {
            line(
                "curve c1",
                x,
                y.saturating_sub(4),
                right,
                y.saturating_sub(4),
                ink,
            );
        } else {
            rect(class, " c1", x, right, y.saturating_sub(8), 8, ink);
        }
        ink.text("/>\n");
        text("t", x.saturating_add(250), y, what, ink);
    }
    if bounds {
        write_bound_legend(&mut flow, ink);
    }
}
