//! Moments of a run, whose times are measured.

use crate::pattern::Pattern;
use crate::seen::{Sighting, sightings};
use mate_journal::Report;
use mate_num::NoMemory;
use std::alloc::Global;

/// When a pattern is seen for the first time, or when it has been seen on each node.
#[derive(Drop)]
pub struct Moment {
    pub pattern: Pattern,
    pub on_each: bool,
}

impl Moment {
    /// Its time in a report, in ms; None if it doesn't come. `NoMemory` is the only refusal.
    pub fn time_in(&self, alloc: Global, report: &Report) -> Result<Option<u32>, NoMemory> {
        let seen = sightings(alloc, &self.pattern, report)?;
        if !self.on_each {
            return Ok(first_time(seen.as_slice(), None));
        }
        Ok(last_of_first(seen.as_slice(), report.nodes().len()))
    }
}

/// The time of the first sighting on a node, or on any.
fn first_time(seen: &[Sighting], node: Option<usize>) -> Option<u32> {
    let mut first: Option<u32> = None;
    for sighting in seen {
        if node.unwrap_or(sighting.node) == sighting.node {
            let time = sighting.stamp.time;
            first = match first {
                Some(before) if before <= time => Some(before),
                _ => Some(time),
            };
        }
    }
    first
}

/// The last of the times at which nodes have their first sighting; None if one has none.
fn last_of_first(seen: &[Sighting], nodes: usize) -> Option<u32> {
    let mut last = 0;
    for node in 0..nodes {
        last = first_time(seen, Some(node))?.max(last);
    }
    Some(last)
}
