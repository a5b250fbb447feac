//! What all pictures have: the head, the scale and its lines.

use crate::scale::{LEFT, PLOT, Scale, WIDTH};
use crate::style::STYLE;
use crate::svg::{begin_text, line, text};
use report_text::last_line::LastLine;
use view_records::Fill::{Number, Text};
use view_records::Ink;

/// Writes the beginning of a picture of this height.
pub fn begin_picture(height: u64, ink: &mut Ink) {
    let (width, height) = (Number(WIDTH), Number(height));
    ink.line(
        "<svg xmlns=\"http://www.w3.org/2000/svg\" viewBox=\"0 0 {} {}\" width=\"{}\" height=\"{}\">\n{}<rect class=\"bg\" width=\"{}\" height=\"{}\"/>\n",
        &[width, height, width, height, Text(STYLE), width, height],
    );
}

/// Writes the heading: what is shown, and of which run.
pub fn write_heading(what: &str, last: &LastLine, ink: &mut Ink) {
    begin_text("h", "", 100, 20, ink);
    ink.line(
        "{}: {}{}{} records, {} events{}</text>\n",
        &[
            Text(what),
            Number(last.nodes),
            Text(if last.nodes == 1 {
                " node, "
            } else {
                " nodes, "
            }),
            Number(last.records),
            Number(last.events),
            Text(if last.whole { "" } else { "; the log was full" }),
        ],
    );
}

/// Writes the lines of the scale between two heights, each with its number above.
pub fn write_scale(scale: &Scale, unit: &str, top: u64, bottom: u64, ink: &mut Ink) {
    let step = scale.step();
    let mut place = first_step(scale.from, step);
    for _ in 0..40u8 {
        if place > scale.to {
            break;
        }
        let x = scale.tenths(place);
        line("grid", x, top, x, bottom, ink);
        ink.text("/>\n");
        begin_text("m", "", x, top.saturating_sub(5), ink);
        ink.line("{}</text>\n", &[Number(place)]);
        place = place.saturating_add(step);
        if place == u64::MAX {
            break;
        }
    }
    text("e", LEFT * 10 - 300, top.saturating_sub(5), unit, ink);
}

/// The first multiple of a step from a place on.
fn first_step(from: u64, step: u64) -> u64 {
    let whole = (from / step.max(1)).saturating_mul(step);
    if whole < from {
        whole.saturating_add(step)
    } else {
        whole
    }
}

/// Writes the ground of a row across the plot; every other one is darker.
pub fn write_band(dark: bool, top: u64, height: u64, ink: &mut Ink) {
    if dark {
        ink.line(
            "<rect class=\"band\" x=\"{}\" y=\"{}\" width=\"{}\" height=\"{}\"/>\n",
            &[Number(LEFT), Number(top), Number(PLOT), Number(height)],
        );
    }
}
