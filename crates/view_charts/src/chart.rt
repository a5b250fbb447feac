//! What variables hold over time, and how many values buffers have: a row for each on each node.

use mate_files::Sink;
use mate_journal::Entry;
use mate_num::{BUFFERS_MAX, NODES_MAX, SHARED_MAX, Stamp, Store};
use report_line_reader::{Line, Told};
use std::alloc::Global;
use std::io::Read;
use view_records::Fill::{Number, Tenths, Text};
use view_records::{Ink, Source, ViewFault, Window};
use view_svg::notes::write_notes;
use view_svg::plot::{begin_picture, write_band, write_heading, write_scale};
use view_svg::svg::{begin_text, colour, text, write_when};
use view_svg::{LEFT, Part};
use vm_shape::Description;

/// The most points that a picture has.
const POINTS_MAX: usize = 10_000;

/// The most values of a buffer that are told apart.
const BUFFER_SHOWN: usize = 1_000;

/// How many rows a node may have: one for each variable, and then one for each buffer.
const ROWS_A_NODE: usize = SHARED_MAX + BUFFERS_MAX;

/// How much room is above the first row, in pixels.
const HEAD: u64 = 76;

/// How high a row is, in pixels.
const HEIGHT: u64 = 42;

/// What a variable holds, or how many values a buffer has, when the store is seen.
#[derive(Clone, Copy)]
struct Point {
    row: usize,
    at: Stamp,
    value: i32,
    /// Whether the store is seen; it is emptied if not.
    seen: bool,
}

/// The least and the greatest value of a row. A row is drawn only if it isn't 0 throughout.
#[derive(Clone, Copy)]
struct Range {
    low: i32,
    high: i32,
    any: bool,
}

impl Range {
    /// The values with one more.
    fn with(self, value: i32) -> Range {
        Range {
            low: if self.any { self.low.min(value) } else { value },
            high: if self.any {
                self.high.max(value)
            } else {
                value
            },
            any: true,
        }
    }

    fn is_drawn(&self) -> bool {
        self.low != 0 || self.high != 0
    }
}

/// A row that is drawn: its number, its values, and its top in pixels.
#[derive(Clone, Copy)]
struct Row {
    number: usize,
    range: Range,
    top: u64,
}

/// The points of a report within a window.
#[derive(Drop)]
struct Points {
    window: Window,
    points: Vec<Point>,
    /// The last value of each row.
    values: Vec<i32>,
    full: Option<Stamp>,
    last: Stamp,
}

impl Points {
    /// No points.
    fn new(alloc: Global, window: Window) -> Result<Points, ViewFault> {
        let mut values = Vec::new(alloc);
        for _ in 0..NODES_MAX * ROWS_A_NODE {
            values.push(0)?;
        }
        Ok(Points {
            window,
            points: Vec::new(alloc),
            values,
            full: None,
            last: Stamp { event: 0, time: 0 },
        })
    }

    fn take(&mut self, line: &Line) -> Result<(), ViewFault> {
        self.last = line.stamp;
        if self.full.is_some() || !self.window.has_node(line.node) {
            return Ok(());
        }
        if self.points.len() > POINTS_MAX - ROWS_A_NODE {
            self.full = Some(line.stamp);
            return Ok(());
        }
        let first = usize::from(line.node) * ROWS_A_NODE;
        match &line.told {
            Told::Shown(store) => self.take_store(first, line.stamp, store),
            Told::Installed { .. } | Told::Made(Entry::Reset) => self.empty(first, line.stamp),
            Told::Made(_) | Told::OnAir(_) => Ok(()),
        }
    }

    fn add(&mut self, row: usize, at: Stamp, value: i32, seen: bool) -> Result<(), ViewFault> {
        self.points.push(Point {
            row,
            at,
            value,
            seen,
        })?;
        if row < self.values.len() {
            self.values[row] = value;
        }
        Ok(())
    }

    /// The store is seen of the node whose first row this is.
    fn take_store(&mut self, first: usize, at: Stamp, store: &Store) -> Result<(), ViewFault> {
        let mut row = first;
        for value in store.shared.as_slice() {
            self.add(row, at, i32::from(*value), true)?;
            row = row.saturating_add(1);
        }
        row = first.saturating_add(SHARED_MAX);
        for buffer in store.buffers.as_slice() {
            self.add(row, at, buffer.len().min(BUFFER_SHOWN) as i32, true)?;
            row = row.saturating_add(1);
        }
        Ok(())
    }

    /// An install or a reset empties the store of the node whose first row this is.
    fn empty(&mut self, first: usize, at: Stamp) -> Result<(), ViewFault> {
        for row in first..first.saturating_add(ROWS_A_NODE) {
            match self.values.get(row) {
                Some(0) | None => {}
                Some(_) => self.add(row, at, 0, false)?,
            }
        }
        Ok(())
    }

    /// The values of each row.
    fn ranges(&self, alloc: Global) -> Result<Vec<Range>, ViewFault> {
        let mut ranges = Vec::new(alloc);
        for _ in 0..NODES_MAX * ROWS_A_NODE {
            ranges.push(Range {
                low: 0,
                high: 0,
                any: false,
            })?;
        }
        for point in self.points.as_slice() {
            if point.row < ranges.len() {
                let range: Range = ranges[point.row];
                ranges[point.row] = range.with(point.value);
            }
        }
        Ok(ranges)
    }
}

/// Draws what variables hold and how many values buffers have, each time that a store is seen, once the report is read
/// whole. A row that is 0 throughout isn't drawn.
pub fn draw_store<R: Read, S: Sink>(
    alloc: Global,
    desc: &Description,
    window: &Window,
    source: &mut Source<R>,
    sink: &mut S,
) -> Result<(), ViewFault> {
    let mut points = Points::new(alloc, *window)?;
    for _ in 0..u64::MAX {
        let Some(line) = source.next(desc)? else {
            break;
        };
        points.take(&line)?;
    }
    let mut ink = Ink::new(alloc);
    if let Some(last) = source.last() {
        let part = Part::of(window, points.full, points.last, &last);
        let ranges = points.ranges(alloc)?;
        draw(
            desc,
            &part,
            points.points.as_slice(),
            ranges.as_slice(),
            &mut ink,
        );
    }
    ink.flush(sink)
}

fn draw(desc: &Description, part: &Part, points: &[Point], ranges: &[Range], ink: &mut Ink) {
    let mut count = 0u64;
    for range in ranges {
        if range.is_drawn() {
            count = count.saturating_add(1);
        }
    }
    let bottom = HEAD.saturating_add(count.saturating_mul(HEIGHT));
    begin_picture(bottom.saturating_add(26), ink);
    write_heading("Stores", &part.last, ink);
    if count == 0 {
        let none = "No variable and no buffer is seen with anything but 0.";
        text("t warn", 100, 38, none, ink);
    } else if part.full {
        let full = "The stores behind are too many for one picture.";
        text("t warn", 100, 38, full, ink);
    }
    write_notes(&part.asked(), 53, ink);
    write_scale(&part.scale, part.unit(), HEAD, bottom, ink);
    draw_rows(desc, part, points, ranges, ink);
    let legend =
        "a dot each time that the store is seen, 0 from an install or a reset on; of a buffer, how many values it has";
    text("t", LEFT * 10, bottom.saturating_add(16), legend, ink);
    ink.text("</svg>\n");
}

fn draw_rows(desc: &Description, part: &Part, points: &[Point], ranges: &[Range], ink: &mut Ink) {
    let (mut number, mut top) = (0usize, HEAD);
    for range in ranges {
        if range.is_drawn() {
            let row = Row {
                number,
                range: *range,
                top,
            };
            write_head(desc, &row, ink);
            draw_line(part, points, &row, ink);
            draw_dots(part, points, &row, ink);
            top = top.saturating_add(HEIGHT);
        }
        number = number.saturating_add(1);
    }
}

/// Draws the ground of a row, and writes its name and its least and greatest value.
fn write_head(desc: &Description, row: &Row, ink: &mut Ink) {
    let (top, range) = (row.top, row.range);
    write_band((top / HEIGHT) % 2 == 1, top, HEIGHT, ink);
    begin_text("t", "", 100, top.saturating_add(24), ink);
    ink.line(
        "node {} {}</text>\n",
        &[
            Number((row.number / ROWS_A_NODE) as u64),
            Text(name_of(desc, row.number % ROWS_A_NODE)),
        ],
    );
    write_value(range.high, top.saturating_add(12), ink);
    if range.low != range.high {
        write_value(range.low, top.saturating_add(38), ink);
    }
}

/// The name of the variable or the buffer of a node's row.
fn name_of(desc: &Description, place: usize) -> &str {
    let name = if place < SHARED_MAX {
        desc.shared.as_slice().get(place)
    } else {
        desc.buffers.as_slice().get(place - SHARED_MAX)
    };
    match name {
        Some(name) => name.as_str(),
        None => "",
    }
}

fn write_value(value: i32, y: u64, ink: &mut Ink) {
    begin_text("e s", "", LEFT * 10 - 60, y, ink);
    ink.value(value);
    ink.text("</text>\n");
}

/// The height of a value in its row, in pixels.
fn height_of(value: i32, row: &Row) -> u64 {
    let range = row.range;
    let span = u64::from(range.high.abs_diff(range.low)).max(1);
    let above = u64::from(value.abs_diff(range.low));
    row.top
        .saturating_add(HEIGHT - 7)
        .saturating_sub(above.saturating_mul(HEIGHT - 14) / span)
}

/// Draws the line through the points of a row.
fn draw_line(part: &Part, points: &[Point], row: &Row, ink: &mut Ink) {
    let mut begun = false;
    for point in points {
        if point.row == row.number && part.shows(point.at) {
            if !begun {
                let tone = colour(row.number);
                ink.line("<path class=\"value{}\"", &[Text(tone)]);
            }
            let before = if begun { "L" } else { " d=\"M" };
            ink.line(
                "{}{} {}",
                &[
                    Text(before),
                    Tenths(part.tenths(point.at)),
                    Number(height_of(point.value, row)),
                ],
            );
            begun = true;
        }
    }
    if begun {
        ink.text("\"/>\n");
    }
}

/// Draws a dot for each point of a row.
fn draw_dots(part: &Part, points: &[Point], row: &Row, ink: &mut Ink) {
    for point in points {
        if point.seen && point.row == row.number && part.shows(point.at) {
            ink.line(
                "<circle class=\"dot{}\" cx=\"{}\" cy=\"{}\" r=\"2\"><title>",
                &[
                    Text(colour(row.number)),
                    Tenths(part.tenths(point.at)),
                    Number(height_of(point.value, row)),
                ],
            );
            ink.value(point.value);
            write_when(point.at, point.at, ink);
            ink.text("</title></circle>\n");
        }
    }
}
