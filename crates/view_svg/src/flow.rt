//! The places of a legend's entries.

use crate::scale::{LEFT, PLOT};

/// Where the next entry of a legend comes: from left to right, and on the next line if there is no room.
#[derive(Clone, Copy)]
pub struct Flow {
    x: u64,
    /// The base of the line, in pixels.
    pub y: u64,
}

impl Flow {
    /// From a height on.
    pub fn from(y: u64) -> Flow {
        Flow { x: LEFT * 10, y }
    }

    /// Where an entry comes that has a text of this length.
    pub fn next(&mut self, length: usize) -> u64 {
        let width = (length as u64).saturating_mul(62).saturating_add(460);
        if self.x > LEFT * 10 && self.x.saturating_add(width) > (LEFT + PLOT) * 10 {
            self.x = LEFT * 10;
            self.y = self.y.saturating_add(18);
        }
        let x = self.x;
        self.x = x.saturating_add(width);
        x
    }
}
