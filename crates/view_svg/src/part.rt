//! The part of a report that a picture over nodes' rows shows.

use crate::notes::Asked;
use crate::scale::Scale;
use mate_num::Stamp;
use report_text::last_line::LastLine;
use view_records::Window;

/// The part of a report that is drawn.
#[derive(Clone, Copy)]
pub struct Part {
    pub window: Window,
    pub scale: Scale,
    /// Where it ends: at the last record, or where there were too many of what is drawn.
    pub end: Stamp,
    pub full: bool,
    pub last: LastLine,
    /// The place of the last record.
    pub reached: u64,
}

impl Part {
    /// The part that a window shows of a report whose last record is at `until`. `full` says when what is drawn was too much.
    pub fn of(window: &Window, full: Option<Stamp>, until: Stamp, last: &LastLine) -> Part {
        let end = full.unwrap_or(until);
        let window = Window {
            by_events: window.by_events || until.time == 0,
            ..*window
        };
        let to = window.to.min(window.place(end));
        let scale = Scale {
            from: window.from.min(to),
            to,
        };
        Part {
            window,
            scale,
            end,
            full: full.is_some(),
            last: *last,
            reached: window.place(until),
        }
    }

    /// Where something is, in tenths of pixels from the left.
    pub fn tenths(&self, stamp: Stamp) -> u64 {
        self.scale.tenths(self.window.place(stamp))
    }

    /// Whether something is not behind the picture.
    pub fn is_before_end(&self, stamp: Stamp) -> bool {
        self.window.place(stamp) <= self.scale.to
    }

    /// Whether something is on the scale.
    pub fn shows(&self, stamp: Stamp) -> bool {
        self.scale.from <= self.window.place(stamp) && self.is_before_end(stamp)
    }

    /// How many of the nodes below this one have a row.
    pub fn rows_before(&self, node: u8) -> u64 {
        let mut count = 0u64;
        for before in 0..node {
            if self.has_row(before) {
                count = count.saturating_add(1);
            }
        }
        count
    }

    /// Whether a node has a row.
    pub fn has_row(&self, node: u8) -> bool {
        u64::from(node) < self.last.nodes && self.window.has_node(node)
    }

    /// The unit of the places.
    pub fn unit(&self) -> &'static str {
        if self.window.by_events { "event" } else { "ms" }
    }

    /// What was asked for.
    pub fn asked(&self) -> Asked {
        Asked {
            window: self.window,
            end: self.reached,
            nodes: self.last.nodes,
        }
    }
}
