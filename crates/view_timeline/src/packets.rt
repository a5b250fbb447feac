//! The packets of a timeline, each drawn.

use crate::lanes::Lane;
use crate::marks::{Mark, What};
use crate::signs::{LOST_ABOVE, LOST_BELOW, came_class, packet_class, packet_shape};
use crate::timeline::Picture;
use crate::titles::end_mark;
use view_records::{Ink, PacketKind};
use view_svg::svg::{line, path};
use vm_shape::Description;

/// Draws the packets, below all else.
pub fn draw_packets(desc: &Description, picture: &Picture<'_>, ink: &mut Ink) {
    for mark in picture.marks {
        if let Some(lane) = picture.lanes.find(mark.node) {
            draw_way(desc, picture, mark, lane.middle(), ink);
        }
    }
    for lane in picture.lanes.lanes.as_slice() {
        draw_sent(desc, picture, lane, ink);
    }
}

/// Draws the way of a packet, from this height on, to a node that gets it, or that it is lost for.
fn draw_way(desc: &Description, picture: &Picture<'_>, mark: &Mark, y: u64, ink: &mut Ink) {
    let sent = picture.part.tenths(mark.from);
    match mark.what {
        What::Came { kind, to, .. } => {
            if let Some(receiver) = picture.lanes.find(to) {
                let got = picture.part.tenths(mark.to);
                line(came_class(kind), sent, y, got, receiver.middle(), ink);
                end_mark(desc, mark, "line", ink);
            }
        }
        What::Lost { to, .. } => {
            let shape = if to < mark.node {
                LOST_ABOVE
            } else {
                LOST_BELOW
            };
            path("lost", "", sent, y, shape, ink);
            end_mark(desc, mark, "path", ink);
        }
        _ => {}
    }
}

/// Draws the signs of a node's packets. Those that would hide one another stand side by side.
fn draw_sent(desc: &Description, picture: &Picture<'_>, lane: &Lane, ink: &mut Ink) {
    let mut last = 0u64;
    for mark in picture.marks {
        if let What::Sent { bytes, heard, .. } = mark.what {
            if mark.node == lane.node && picture.part.shows(mark.from) {
                last = beside(picture.part.tenths(mark.from), last, 60);
                let kind = PacketKind::of(bytes.as_slice());
                let class = packet_class(kind, heard);
                path(class, "", last, lane.middle(), packet_shape(kind), ink);
                end_mark(desc, mark, "path", ink);
            }
        }
    }
}

/// Where a sign stands that belongs to `x`, behind the last one at `last` by `width`, if that isn't far from it.
pub fn beside(x: u64, last: u64, width: u64) -> u64 {
    let next = last.saturating_add(width);
    if last > 0 && x < next && next <= x.saturating_add(400) {
        next
    } else {
        x
    }
}
