//! The installs of a report.

use mate_num::{HandlerId, NODES_MAX, Stamp};
use report_line_reader::{Line, Told};
use std::alloc::Global;
use view_records::ViewFault;

/// The most installs that a picture has.
const INSTALLS_MAX: usize = 10_000;

/// A version that a node gets.
#[derive(Clone, Copy)]
pub struct Install {
    pub node: u8,
    pub handler: u8,
    pub version: u32,
    pub at: Stamp,
}

/// The installs of a report, in order.
#[derive(Drop)]
pub struct Installs {
    pub installs: Vec<Install>,
    /// When the installs became too many, if they did.
    pub full: Option<Stamp>,
    /// The stamp of the last record.
    pub last: Stamp,
}

impl Installs {
    /// No installs.
    pub fn new(alloc: Global) -> Installs {
        Installs {
            installs: Vec::new(alloc),
            full: None,
            last: Stamp { event: 0, time: 0 },
        }
    }

    /// Takes what a line records.
    pub fn take(&mut self, line: &Line) -> Result<(), ViewFault> {
        self.last = line.stamp;
        let Told::Installed {
            handler,
            version,
            image: _,
        } = &line.told
        else {
            return Ok(());
        };
        if self.full.is_some() {
            return Ok(());
        }
        if self.installs.len() >= INSTALLS_MAX {
            self.full = Some(line.stamp);
            return Ok(());
        }
        self.installs.push(Install {
            node: line.node,
            handler: handler.0,
            version: *version,
            at: line.stamp,
        })?;
        Ok(())
    }
}

/// When a version of the same handler is replaced that a node holds: on that node, and first on any one.
#[derive(Clone, Copy)]
pub struct Replaced {
    pub here: Option<Stamp>,
    pub anywhere: Option<Stamp>,
}

impl Replaced {
    /// When newer versions come than this install's.
    pub fn of(installs: &[Install], install: &Install) -> Replaced {
        let mut replaced = Replaced {
            here: None,
            anywhere: None,
        };
        for other in installs {
            if other.handler == install.handler && other.version > install.version {
                if replaced.anywhere.is_none() {
                    replaced.anywhere = Some(other.at);
                }
                if other.node == install.node {
                    replaced.here = Some(other.at);
                    return replaced;
                }
            }
        }
        replaced
    }
}

/// The version of a handler that each node holds after all installs.
#[derive(Clone, Copy)]
pub struct Held {
    versions: [u32; NODES_MAX],
    pub newest: u32,
    /// Whether the handler is installed anywhere.
    pub any: bool,
}

impl Held {
    /// The versions of a handler.
    pub fn of(installs: &[Install], handler: HandlerId) -> Held {
        let mut held = Held {
            versions: [0; NODES_MAX],
            newest: 0,
            any: false,
        };
        for install in installs {
            let node = usize::from(install.node);
            if install.handler == handler.0 && node < NODES_MAX {
                held.versions[node] = install.version;
                held.any = true;
            }
        }
        for version in &held.versions {
            held.newest = held.newest.max(*version);
        }
        held
    }

    /// How many nodes hold the newest version.
    pub fn holders(&self) -> u64 {
        let mut count = 0u64;
        for version in &self.versions {
            if *version == self.newest {
                count = count.saturating_add(1);
            }
        }
        count
    }
}
