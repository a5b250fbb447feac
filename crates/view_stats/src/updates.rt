//! How long versions take to come to nodes.

use crate::table::{Heads, Label, Table};
use mate_num::{HandlerId, NODES_MAX};
use std::alloc::Global;
use view_records::ViewFault;
use view_records::words::handler_name;
use vm_shape::Description;

const COLUMNS: [&str; 7] = [
    "version",
    "first_ms",
    "first_node",
    "nodes",
    "median_ms",
    "p95_ms",
    "worst_ms",
];

/// A version, where and when it was installed first, and how much later on each other node that installed it, in order of time.
#[derive(Clone, Copy)]
struct Update {
    handler: u8,
    version: u32,
    node: u8,
    first: u32,
    later: [u32; NODES_MAX],
    count: usize,
}

impl Update {
    /// Another node installs the version.
    fn take(&mut self, time: u32) {
        if self.count < NODES_MAX {
            self.later[self.count] = time.saturating_sub(self.first);
            self.count = self.count.saturating_add(1);
        }
    }

    /// How much later the version had come to this share of the other nodes that installed it, in percent; 0 without any.
    fn latency(&self, percent: usize) -> u64 {
        let rank = self.count.saturating_mul(percent).saturating_add(99) / 100;
        match self.later.get(rank.saturating_sub(1)) {
            Some(latency) if self.count > 0 => u64::from(*latency),
            Some(_) | None => 0,
        }
    }
}

/// All versions that were installed, in the order in which each was installed first.
#[derive(Drop)]
pub struct Updates {
    updates: Vec<Update>,
}

impl Updates {
    /// No versions.
    pub fn new(alloc: Global) -> Updates {
        Updates {
            updates: Vec::new(alloc),
        }
    }

    /// A node installs a version.
    pub fn take(
        &mut self,
        handler: HandlerId,
        version: u32,
        node: u8,
        time: u32,
    ) -> Result<(), ViewFault> {
        match self.find(handler.0, version) {
            Some(place) => {
                if place < self.updates.len() {
                    self.updates[place].take(time);
                }
            }
            None => self.updates.push(Update {
                handler: handler.0,
                version,
                node,
                first: time,
                later: [0; NODES_MAX],
                count: 0,
            })?,
        }
        Ok(())
    }

    /// Where a version is, looked for from the newest one back.
    fn find(&self, handler: u8, version: u32) -> Option<usize> {
        let mut place = self.updates.len();
        for update in self.updates.as_slice().iter().rev() {
            place = place.saturating_sub(1);
            if update.handler == handler && update.version == version {
                return Some(place);
            }
        }
        None
    }

    /// The table of the versions.
    pub fn table<'a>(&self, alloc: Global, desc: &'a Description) -> Result<Table<'a>, ViewFault> {
        let mut table = Table::new(
            alloc,
            Heads {
                table: "update",
                first: "update",
                columns: &COLUMNS,
            },
        );
        for update in self.updates.as_slice() {
            let cells = [
                u64::from(update.version),
                u64::from(update.first),
                u64::from(update.node),
                update.count.saturating_add(1) as u64,
                update.latency(50),
                update.latency(95),
                update.latency(100),
            ];
            let name = handler_name(desc, HandlerId(update.handler));
            table.add(Label::Name(name), &cells)?;
        }
        Ok(table)
    }
}
