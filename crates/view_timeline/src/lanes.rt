//! Where nodes and their contexts are drawn.

use crate::marks::{Mark, What};
use mate_num::{CONTEXTS_MAX, NODES_MAX};
use std::alloc::Global;
use view_records::ViewFault;
use view_svg::Part;

/// How much room is above the lanes, in pixels.
pub const HEAD: u64 = 76;

/// How high the lane of a node's own marks is, in pixels.
pub const NODE_LANE: u64 = 30;

/// How high the lane of a context is, in pixels.
pub const CONTEXT_LANE: u64 = 13;

/// How much room is below a node's lanes, in pixels.
pub const GAP: u64 = 5;

/// A node's lanes.
#[derive(Clone, Copy)]
pub struct Lane {
    pub node: u8,
    /// The top of its own lane, in pixels.
    pub top: u64,
    /// A bit for each context that has a lane.
    pub contexts: u64,
}

impl Lane {
    /// The height of all lanes of the node.
    pub fn height(&self) -> u64 {
        self.context(CONTEXTS_MAX as u8).saturating_sub(self.top)
    }

    /// Where the line of the node's own lane is: labels are above it, and intervals below.
    pub fn middle(&self) -> u64 {
        self.top.saturating_add(19)
    }

    /// The top of the lane of a context: below the node's own lane and those of the contexts before this one.
    pub fn context(&self, context: u8) -> u64 {
        let mut y = self.top.saturating_add(NODE_LANE);
        for before in 0..context {
            if self.has(before) {
                y = y.saturating_add(CONTEXT_LANE);
            }
        }
        y
    }

    /// Whether a context has a lane.
    pub fn has(&self, context: u8) -> bool {
        context < 64 && (self.contexts >> context) & 1 == 1
    }
}

/// The lanes of all nodes that are drawn, from the top.
#[derive(Drop)]
pub struct Lanes {
    pub lanes: Vec<Lane>,
    /// The bottom of the last lane, in pixels.
    pub bottom: u64,
}

impl Lanes {
    /// The lanes of the nodes of a part: one for each context that has a mark.
    pub fn of(alloc: Global, part: &Part, marks: &[Mark]) -> Result<Lanes, ViewFault> {
        let mut lanes = Vec::new(alloc);
        let mut bottom = HEAD;
        for node in 0..NODES_MAX as u8 {
            if part.has_row(node) {
                let lane = Lane {
                    node,
                    top: bottom,
                    contexts: contexts_of(marks, node),
                };
                lanes.push(lane)?;
                bottom = bottom.saturating_add(lane.height()).saturating_add(GAP);
            }
        }
        Ok(Lanes { lanes, bottom })
    }

    /// The lanes of a node.
    pub fn find(&self, node: u8) -> Option<Lane> {
        for lane in self.lanes.as_slice() {
            if lane.node == node {
                return Some(*lane);
            }
        }
        None
    }
}

/// A bit for each context of a node that has a mark.
fn contexts_of(marks: &[Mark], node: u8) -> u64 {
    let mut contexts = 0u64;
    for mark in marks {
        if mark.node == node {
            if let What::Stretch(stretch) = mark.what {
                contexts |= 1 << (stretch.live.ctx.0 % CONTEXTS_MAX as u8);
            }
        }
    }
    contexts
}
