//! Packets that are too many to be drawn each: how many there are, by node and time.

use crate::lanes::{Lane, Lanes};
use crate::marks::{Mark, What};
use mate_num::NODES_MAX;
use std::alloc::Global;
use view_records::Fill::{Number, Tenths, Text};
use view_records::{Ink, ViewFault};
use view_svg::{LEFT, PLOT, Part};

/// How many packets of a picture that come to a node are drawn each.
const LINES_MAX: usize = 1_500;

/// How many columns a lane has.
const COLUMNS: usize = 300;

/// How wide a column is, in tenths of pixels.
const WIDTH: u64 = PLOT * 10 / COLUMNS as u64;

/// How high the highest column is, in pixels.
const HEIGHT: u64 = 18;

/// How many packets a node sent in a column's time, and for how many receivers one was lost.
#[derive(Clone, Copy)]
struct Column {
    sent: u64,
    lost: u64,
}

/// The columns of all nodes.
#[derive(Drop)]
pub struct Density {
    columns: Vec<Column>,
    most: u64,
}

/// Whether so many packets come to nodes that they aren't drawn each.
pub fn is_dense(marks: &[Mark]) -> bool {
    let mut count = 0usize;
    for mark in marks {
        if let What::Came { .. } = mark.what {
            count = count.saturating_add(1);
        }
    }
    count > LINES_MAX
}

/// The column of a place across, in tenths of pixels.
fn column_of(tenths: u64) -> usize {
    let across = tenths.saturating_sub(LEFT * 10);
    ((across / WIDTH) as usize).min(COLUMNS - 1)
}

impl Density {
    /// The columns of these marks.
    pub fn of(alloc: Global, part: &Part, marks: &[Mark]) -> Result<Density, ViewFault> {
        let mut columns = Vec::new(alloc);
        for _ in 0..NODES_MAX * COLUMNS {
            columns.push(Column { sent: 0, lost: 0 })?;
        }
        let mut density = Density { columns, most: 1 };
        for mark in marks {
            density.count(part, mark);
        }
        Ok(density)
    }

    fn count(&mut self, part: &Part, mark: &Mark) {
        let lane = usize::from(mark.node) * COLUMNS;
        let place = lane.saturating_add(column_of(part.tenths(mark.from)));
        let Some(found) = self.columns.get(place) else {
            return;
        };
        let mut column = *found;
        match mark.what {
            What::Sent { .. } => column.sent = column.sent.saturating_add(1),
            What::Lost { .. } => column.lost = column.lost.saturating_add(1),
            _ => return,
        }
        if place < self.columns.len() {
            self.columns[place] = column;
        }
        self.most = self.most.max(column.sent).max(column.lost);
    }

    /// Draws the columns of all lanes.
    pub fn draw(&self, lanes: &Lanes, ink: &mut Ink) {
        for lane in lanes.lanes.as_slice() {
            for number in 0..COLUMNS {
                let place = usize::from(lane.node) * COLUMNS + number;
                if let Some(column) = self.columns.get(place) {
                    let x = (LEFT * 10).saturating_add(number as u64 * WIDTH);
                    self.draw_column("many", " packets sent", column.sent, x, lane, ink);
                    self.draw_column("many miss", " losses", column.lost, x, lane, ink);
                }
            }
        }
    }

    fn draw_column<'a>(
        &self,
        class: &'a str,
        what: &'a str,
        count: u64,
        x: u64,
        lane: &Lane,
        ink: &mut Ink,
    ) {
        if count == 0 {
            return;
        }
        let height = (count.saturating_mul(HEIGHT) / self.most.max(1)).max(1);
        ink.line(
            "<rect class=\"{}\" x=\"{}\" y=\"{}\" width=\"3\" height=\"{}\"><title>node {}: {}{} here</title></rect>\n",
            &[
                Text(class),
                Tenths(x),
                Number(lane.middle().saturating_add(9).saturating_sub(height)),
                Number(height),
                Number(u64::from(lane.node)),
                Number(count),
                Text(what),
            ],
        );
    }
}
