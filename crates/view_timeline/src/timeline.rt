//! The timeline of a report: a lane for each node, and below it one for each of its contexts.

use crate::density::{Density, is_dense};
use crate::lanes::{CONTEXT_LANE, GAP, HEAD, Lane, Lanes};
use crate::legend::{Occurring, legend_height, write_legend};
use crate::marks::{Mark, Marks, What};
use crate::node_lane::draw_node_lanes;
use crate::packets::draw_packets;
use crate::signs::{CUT, FAULT, GOES_ON, LIVES, TICK};
use crate::titles::end_mark;
use mate_files::Sink;
use mate_num::{CONTEXTS_MAX, ContextId};
use std::alloc::Global;
use std::io::Read;
use view_records::Fill::{Number, Text};
use view_records::words::handler_name;
use view_records::{Ink, Phase, Source, Stretch, StretchEnd, ViewFault, Window};
use view_svg::notes::write_notes;
use view_svg::plot::{begin_picture, write_band, write_heading, write_scale};
use view_svg::svg::{begin_text, colour, line, path, rect};
use view_svg::{LEFT, PLOT, Part};
use vm_shape::Description;

/// What is drawn.
#[derive(Clone, Copy)]
pub struct Picture<'a> {
    pub part: Part,
    /// Whether packets are too many to be drawn each.
    pub dense: bool,
    pub lanes: &'a Lanes,
    pub marks: &'a [Mark],
}

/// Draws the timeline of a report, once it is read whole. If it has too many marks, those up to a time are drawn, and
/// the picture says so.
pub fn draw_timeline<R: Read, S: Sink>(
    alloc: Global,
    desc: &Description,
    window: &Window,
    source: &mut Source<R>,
    sink: &mut S,
) -> Result<(), ViewFault> {
    let mut marks = Marks::new(alloc, *window)?;
    for _ in 0..u64::MAX {
        let Some(line) = source.next(desc)? else {
            break;
        };
        marks.take(desc, &line)?;
    }
    if marks.full.is_none() {
        marks.finish(StretchEnd::Open)?;
    }
    let mut ink = Ink::new(alloc);
    if let Some(last) = source.last() {
        let part = Part::of(window, marks.full, marks.last, &last);
        marks.settle(&part.window);
        let lanes = Lanes::of(alloc, &part, marks.marks.as_slice())?;
        draw(alloc, desc, part, &lanes, marks.marks.as_slice(), &mut ink)?;
    }
    ink.flush(sink)
}

/// Draws these marks in these lanes.
fn draw<'a>(
    alloc: Global,
    desc: &Description,
    part: Part,
    lanes: &'a Lanes,
    marks: &'a [Mark],
    ink: &mut Ink,
) -> Result<(), ViewFault> {
    let picture = Picture {
        part,
        dense: is_dense(marks),
        lanes,
        marks,
    };
    let occurring = Occurring::among(&picture);
    let height = legend_height(desc, &occurring);
    begin_picture(lanes.bottom.saturating_add(height), ink);
    draw_ground(desc, &picture, ink);
    if picture.dense {
        Density::of(alloc, &part, marks)?.draw(lanes, ink);
    } else {
        draw_packets(desc, &picture, ink);
    }
    draw_stretches(desc, &picture, ink);
    draw_node_lanes(desc, &picture, ink);
    write_legend(desc, &occurring, lanes.bottom, ink);
    ink.text("</svg>\n");
    Ok(())
}

/// Draws what is below all marks.
fn draw_ground(desc: &Description, picture: &Picture<'_>, ink: &mut Ink) {
    let (part, lanes) = (&picture.part, picture.lanes);
    write_heading("Timeline", &part.last, ink);
    write_part(part, picture.marks.len(), ink);
    write_notes(&part.asked(), 53, ink);
    let mut dark = true;
    for lane in lanes.lanes.as_slice() {
        write_band(dark, lane.top, lane.height().saturating_add(GAP), ink);
        dark = !dark;
    }
    write_scale(&part.scale, part.unit(), HEAD, lanes.bottom, ink);
    for lane in lanes.lanes.as_slice() {
        draw_lane(desc, lane, ink);
    }
}

/// Writes which part is drawn.
fn write_part(part: &Part, count: usize, ink: &mut Ink) {
    begin_text("t", "", 100, 38, ink);
    ink.line(
        "{}{}{} to {}{}",
        &[
            Number(count as u64),
            Text(if count == 1 {
                " mark from "
            } else {
                " marks from "
            }),
            Number(part.scale.from),
            Number(part.scale.to),
            Text(if part.window.by_events {
                " (events)"
            } else {
                " ms"
            }),
        ],
    );
    let full = part.window.place(part.end);
    if part.full && full > part.window.from {
        ink.line(
            "; the marks behind are too many for one picture: see them by --from {}",
            &[Number(full)],
        );
    } else if part.full {
        ink.text(
            "; there are more marks at this one place than a picture has: choose by --nodes, --only or --events",
        );
    }
    ink.text("</text>\n");
}

/// Writes the names of a node's lanes, and the line of its own.
fn draw_lane(desc: &Description, lane: &Lane, ink: &mut Ink) {
    let y = lane.middle();
    line("base", LEFT * 10, y, (LEFT + PLOT) * 10, y, ink);
    ink.text("/>\n");
    begin_text("t", "", 100, y.saturating_add(4), ink);
    ink.line("node {}</text>\n", &[Number(u64::from(lane.node))]);
    for context in 0..CONTEXTS_MAX as u8 {
        if lane.has(context) && context < desc.contexts() {
            let y = lane.context(context).saturating_add(10);
            begin_text("e s", "", LEFT * 10 - 60, y, ink);
            ink.line(
                "{}, context {}</text>\n",
                &[
                    Text(handler_name(desc, desc.handler_of(ContextId(context)))),
                    Number(u64::from(context)),
                ],
            );
        }
    }
}

fn draw_stretches(desc: &Description, picture: &Picture<'_>, ink: &mut Ink) {
    for mark in picture.marks {
        if let What::Stretch(stretch) = mark.what {
            if let Some(lane) = picture.lanes.find(mark.node) {
                let top = lane.context(stretch.live.ctx.0 % CONTEXTS_MAX as u8);
                draw_stretch(&picture.part, &stretch, top, ink);
                let element = if is_tick(&picture.part, &stretch) {
                    "path"
                } else {
                    "rect"
                };
                end_mark(desc, mark, element, ink);
                draw_end(&picture.part, &stretch, top, ink);
            }
        }
    }
}

/// Whether an invocation runs for no time.
pub fn is_tick(part: &Part, stretch: &Stretch) -> bool {
    match stretch.live.phase {
        Phase::Running => part.window.place(stretch.live.since) == part.window.place(stretch.to),
        Phase::Waiting | Phase::Asking(_) => false,
    }
}

/// Draws a bar: low and dashed while it waits to start, high and full while it runs, hatched while it waits for an
/// answer. What runs for no time is a tick.
fn draw_stretch(part: &Part, stretch: &Stretch, top: u64, ink: &mut Ink) {
    let (from, to) = (part.tenths(stretch.live.since), part.tenths(stretch.to));
    let tone = colour(usize::from(stretch.live.handler.0));
    if is_tick(part, stretch) {
        path("tick", tone, from, top.saturating_add(2), TICK, ink);
        return;
    }
    let (class, height) = match stretch.live.phase {
        Phase::Waiting => ("wait", 4),
        Phase::Running => ("run", 9),
        Phase::Asking(_) => ("ask", 7),
    };
    let y = top.saturating_add(CONTEXT_LANE.saturating_sub(height) / 2);
    rect(class, tone, from, to, y, height, ink);
}

/// Draws how an invocation ended, if it didn't halt, or that it goes on behind the picture.
fn draw_end(part: &Part, stretch: &Stretch, top: u64, ink: &mut Ink) {
    let x = part.tenths(stretch.to);
    let end = if part.shows(stretch.to) {
        stretch.end
    } else {
        StretchEnd::Unseen
    };
    match end {
        StretchEnd::Next | StretchEnd::Answered(_) | StretchEnd::Halted => return,
        StretchEnd::Faulted(_) => path("x", "", x, top.saturating_add(6), FAULT, ink),
        StretchEnd::Cut => path("cut", "", x, top, CUT, ink),
        StretchEnd::Open => path("open", "", x, top, LIVES, ink),
        StretchEnd::Unseen => path("on", "", x, top, GOES_ON, ink),
    }
    ink.text("/>\n");
}
