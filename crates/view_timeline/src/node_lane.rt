//! The signs on a node's own lane, other than packets, and their labels.

use crate::lanes::Lane;
use crate::marks::{Mark, What};
use crate::packets::beside;
use crate::signs::{INSTALLED, KEPT, NOISE, RESET, dropped};
use crate::timeline::Picture;
use crate::titles::end_mark;
use mate_num::HandlerId;
use view_records::Fill::{Number, Tenths, Text};
use view_records::Ink;
use view_records::words::handler_name;
use view_svg::svg::{begin_text, colour, path};
use view_svg::{LEFT, PLOT};
use vm_shape::Description;

/// How far a label may stand behind its sign, in tenths of pixels.
const LABEL_SHIFT: u64 = 1_500;

/// Where the last sign of a lane is, and where there is room for a label, in tenths of pixels.
#[derive(Clone, Copy)]
struct Room {
    sign: u64,
    label: u64,
}

/// Draws intervals, installs, drops, resets and noise, above all else.
pub fn draw_node_lanes(desc: &Description, picture: &Picture<'_>, ink: &mut Ink) {
    for lane in picture.lanes.lanes.as_slice() {
        let mut room = Room { sign: 0, label: 0 };
        for mark in picture.marks {
            if mark.node == lane.node {
                draw_mark(desc, picture, lane, mark, &mut room, ink);
            }
        }
    }
}

fn draw_mark(
    desc: &Description,
    picture: &Picture<'_>,
    lane: &Lane,
    mark: &Mark,
    room: &mut Room,
    ink: &mut Ink,
) {
    let (x, y) = (picture.part.tenths(mark.from), lane.middle());
    let shows = picture.part.shows(mark.from);
    match mark.what {
        What::Interval { .. } => {
            let to = picture.part.tenths(mark.to);
            ink.line(
                "<path class=\"interval\" d=\"M{} {}v4H{}\"",
                &[Tenths(x), Number(y.saturating_add(5)), Tenths(to)],
            );
        }
        What::Kept if shows => path("kept", "", x, y.saturating_add(6), KEPT, ink),
        What::Installed { .. } | What::Dropped { .. } | What::Reset | What::Noise { .. } if shows =>
            {
                room.sign = beside(x, room.sign, 85);
                draw_sign(lane, &mark.what, room.sign, ink);
            }
        _ => return,
    }
    end_mark(desc, mark, "path", ink);
    if let What::Installed { handler, version } = mark.what {
        write_version(desc, lane, handler, version, room, ink);
    }
}

/// Draws the sign of an install, a drop, a reset or noise.
fn draw_sign(lane: &Lane, what: &What, x: u64, ink: &mut Ink) {
    let y = lane.middle();
    match what {
        What::Installed { handler, .. } => {
            path("inst", colour(usize::from(handler.0)), x, y, INSTALLED, ink)
        }
        What::Dropped { cause, .. } => {
            path("drop", "", x, y.saturating_sub(5), dropped(*cause), ink)
        }
        What::Noise { .. } => path("noise", "", x, y, NOISE, ink),
        _ => path("reset", "", x, lane.top.saturating_add(10), RESET, ink),
    }
}

/// Writes the handler and the version beside an install, in the handler's colour, if there is room for them near it.
fn write_version(
    desc: &Description,
    lane: &Lane,
    handler: HandlerId,
    version: u32,
    room: &mut Room,
    ink: &mut Ink,
) {
    let name = handler_name(desc, handler);
    let width = (name.len() as u64)
        .saturating_add(digits(version))
        .saturating_mul(56)
        .saturating_add(60);
    let right = (LEFT + PLOT) * 10 + 350;
    let x = room.sign.max(room.label).min(right.saturating_sub(width));
    if x < room.label || x > room.sign.saturating_add(LABEL_SHIFT) {
        return;
    }
    let tone = colour(usize::from(handler.0));
    begin_text("s name", tone, x, lane.top.saturating_add(9), ink);
    ink.line("{} {}</text>\n", &[Text(name), Number(u64::from(version))]);
    room.label = x.saturating_add(width).saturating_add(30);
}

/// How many digits a version has, at least 2.
fn digits(version: u32) -> u64 {
    match version {
        0..=99 => 2,
        100..=99_999 => 5,
        _ => 10,
    }
}
