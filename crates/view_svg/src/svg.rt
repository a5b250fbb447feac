//! Elements of SVG. Places across are in tenths of pixels, and those down in pixels. The first tag of a shape is left open: what
//! comes behind is `/>`, or `>` with a title and the end of the element.

use mate_num::Stamp;
use view_records::Fill::{Number, Tenths, Text};
use view_records::Ink;

/// The classes of the colours, with a space before each.
const COLOURS: [&str; 8] = [" c0", " c1", " c2", " c3", " c4", " c5", " c6", " c7"];

/// The class of the colour of a handler, of a version or of a row.
pub fn colour(number: usize) -> &'static str {
    COLOURS[number % 8]
}

/// A path round a place: `lines` are offsets from it in pixels, a move and then lines, each `(across, down)` from the last one.
pub fn path<'a>(class: &'a str, colour: &'a str, x: u64, y: u64, lines: &'a str, ink: &mut Ink) {
    ink.line(
        "<path class=\"{}{}\" d=\"M{} {}{}\"",
        &[Text(class), Text(colour), Tenths(x), Number(y), Text(lines)],
    );
}

/// A rectangle, at least 2 pixels wide.
pub fn rect<'a>(
    class: &'a str,
    colour: &'a str,
    from: u64,
    to: u64,
    y: u64,
    height: u64,
    ink: &mut Ink,
) {
    ink.line(
        "<rect class=\"{}{}\" x=\"{}\" y=\"{}\" width=\"{}\" height=\"{}\"",
        &[
            Text(class),
            Text(colour),
            Tenths(from),
            Number(y),
            Tenths(to.saturating_sub(from).max(20)),
            Number(height),
        ],
    );
}

/// A line from one place to another.
pub fn line(class: &str, x1: u64, y1: u64, x2: u64, y2: u64, ink: &mut Ink) {
    ink.line(
        "<line class=\"{}\" x1=\"{}\" y1=\"{}\" x2=\"{}\" y2=\"{}\"",
        &[Text(class), Tenths(x1), Number(y1), Tenths(x2), Number(y2)],
    );
}

/// The beginning of a text at a place.
pub fn begin_text<'a>(class: &'a str, colour: &'a str, x: u64, y: u64, ink: &mut Ink) {
    ink.line(
        "<text class=\"{}{}\" x=\"{}\" y=\"{}\">",
        &[Text(class), Text(colour), Tenths(x), Number(y)],
    );
}

/// A whole text.
pub fn text(class: &str, x: u64, y: u64, text: &str, ink: &mut Ink) {
    begin_text(class, "", x, y, ink);
    ink.line("{}</text>\n", &[Text(text)]);
}

/// When it was, by time and by events, behind what it was.
pub fn write_when(from: Stamp, to: Stamp, ink: &mut Ink) {
    ink.line(", {}", &[Number(u64::from(from.time))]);
    if from.time != to.time {
        ink.line(" to {}", &[Number(u64::from(to.time))]);
    }
    ink.line(" ms, event {}", &[Number(from.event)]);
    if from.event != to.event {
        ink.line(" to {}", &[Number(to.event)]);
    }
}
