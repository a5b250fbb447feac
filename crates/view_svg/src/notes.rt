//! What a picture says of the part of a report that was asked for.

use crate::svg::begin_text;
use mate_num::NODES_MAX;
use view_records::Fill::Number;
use view_records::{Ink, Window, all_nodes};

/// The part of a report that is asked for and the part that there is.
#[derive(Clone, Copy)]
pub struct Asked {
    pub window: Window,
    /// The place of the last record.
    pub end: u64,
    /// How many nodes the report has.
    pub nodes: u64,
}

impl Asked {
    /// The nodes that are asked for and that the report doesn't have, a bit for each.
    fn lacking(&self) -> u64 {
        if self.window.nodes == all_nodes() || self.nodes >= NODES_MAX as u64 {
            return 0;
        }
        (self.window.nodes >> self.nodes) << self.nodes
    }
}

/// Writes what of the part that is asked for isn't there, at this height.
pub fn write_notes(asked: &Asked, y: u64, ink: &mut Ink) {
    let (behind, lacking) = (asked.window.from > asked.end, asked.lacking());
    if !behind && lacking == 0 {
        return;
    }
    begin_text("t warn", "", 100, y, ink);
    if behind {
        let form = if asked.window.by_events {
            "Nothing is drawn: the last record is in event {}, before --from. "
        } else {
            "Nothing is drawn: the last record is at {} ms, before --from. "
        };
        ink.line(form, &[Number(asked.end)]);
    }
    if lacking != 0 {
        ink.text("Not in this report: ");
        write_nodes(lacking, ink);
        ink.text(".");
    }
    ink.text("</text>\n");
}

/// The nodes whose bits are in a word, in words.
pub fn write_nodes(nodes: u64, ink: &mut Ink) {
    ink.text(if nodes.count_ones() == 1 {
        "node "
    } else {
        "nodes "
    });
    let mut begun = false;
    for node in 0..NODES_MAX as u8 {
        if (nodes >> node) & 1 == 1 {
            ink.text(if begun { ", " } else { "" });
            ink.number(u64::from(node));
            begun = true;
        }
    }
}
