//! What is known of the nodes of a report between two of its lines.

use crate::fault::ViewFault;
use crate::locks::ProgramLocks;
use crate::stretch::{Blocker, Live, Phase, Stretch, StretchEnd};
use mate_journal::Entry;
use mate_num::{CONTEXTS_MAX, HANDLERS_MAX, LockSet, NODES_MAX, Stamp};
use report_line_reader::{Line, Told};
use std::alloc::Global;
use vm_shape::Description;

/// The live invocations, by node and context, and the versions that nodes hold.
#[derive(Drop)]
pub struct Nodes {
    live: Vec<Option<Live>>,
    versions: Vec<u32>,
    locks: ProgramLocks,
    /// How many invocations are live.
    count: usize,
    /// The stamp of the last line.
    pub now: Stamp,
}

impl Nodes {
    /// Nodes on which nothing has happened.
    pub fn new(alloc: Global) -> Result<Nodes, ViewFault> {
        let mut live = Vec::new(alloc);
        for _ in 0..NODES_MAX * CONTEXTS_MAX {
            live.push(None)?;
        }
        let mut versions = Vec::new(alloc);
        for _ in 0..NODES_MAX * HANDLERS_MAX {
            versions.push(0)?;
        }
        Ok(Nodes {
            live,
            versions,
            locks: ProgramLocks::new(alloc)?,
            count: 0,
            now: Stamp { event: 0, time: 0 },
        })
    }

    /// The place of a node's live invocation.
    fn place_of(&self, node: u8, inv: u32) -> Option<usize> {
        let first = usize::from(node) * CONTEXTS_MAX;
        for place in first..first + CONTEXTS_MAX {
            if let Some(Some(live)) = self.live.get(place) {
                if live.inv == inv {
                    return Some(place);
                }
            }
        }
        None
    }

    /// A node's invocation, if it is live.
    pub fn live(&self, node: u8, inv: u32) -> Option<Live> {
        let place = self.place_of(node, inv)?;
        self.at(place)
    }

    fn at(&self, place: usize) -> Option<Live> {
        match self.live.get(place) {
            Some(live) => *live,
            None => None,
        }
    }

    /// A node's invocation in a context, if one is live there.
    pub fn in_context(&self, node: u8, context: u8) -> Option<Live> {
        if usize::from(context) < CONTEXTS_MAX {
            self.at(usize::from(node) * CONTEXTS_MAX + usize::from(context))
        } else {
            None
        }
    }

    /// How many invocations are live.
    pub fn count(&self) -> usize {
        self.count
    }

    fn set(&mut self, place: usize, live: Option<Live>) {
        if place < self.live.len() {
            self.count = match (self.live[place].is_some(), live.is_some()) {
                (false, true) => self.count.saturating_add(1),
                (true, false) => self.count.saturating_sub(1),
                (false, false) | (true, true) => self.count,
            };
            self.live[place] = live;
        }
    }

    /// The oldest of a node's live invocations that these locks have to wait for.
    fn blocker_of(&self, node: u8, locks: &LockSet) -> Option<Blocker> {
        let mut found: Option<Blocker> = None;
        for context in 0..CONTEXTS_MAX as u8 {
            if let Some(live) = self.in_context(node, context) {
                if !live.locks.compatible(locks) && is_older(&live, &found) {
                    found = Some(Blocker {
                        inv: live.inv,
                        handler: live.handler,
                        locks: live.locks,
                    });
                }
            }
        }
        found
    }

    /// The version of a handler that a node holds; 0 for none.
    pub fn version(&self, node: u8, handler: u8) -> u32 {
        let place = usize::from(node) * HANDLERS_MAX + usize::from(handler);
        match self.versions.get(place) {
            Some(version) => *version,
            None => 0,
        }
    }

    fn install(&mut self, node: u8, handler: u8, version: u32) {
        let place = usize::from(node) * HANDLERS_MAX + usize::from(handler);
        if usize::from(handler) < HANDLERS_MAX && place < self.versions.len() {
            self.versions[place] = version;
        }
    }

    /// The newest version of a handler that any node holds; 0 for none.
    pub fn newest(&self, handler: u8) -> u32 {
        let mut newest = 0;
        for node in 0..NODES_MAX as u8 {
            newest = self.version(node, handler).max(newest);
        }
        newest
    }

    /// How many nodes hold this version of a handler.
    pub fn holders(&self, handler: u8, version: u32) -> u64 {
        let mut count = 0u64;
        for node in 0..NODES_MAX as u8 {
            if self.version(node, handler) == version {
                count = count.saturating_add(1);
            }
        }
        count
    }

    /// Follows the next line. The stretches that end there are appended to `ended`.
    pub fn follow(
        &mut self,
        desc: &Description,
        line: &Line,
        ended: &mut Vec<Stretch>,
    ) -> Result<(), ViewFault> {
        self.now = line.stamp;
        match &line.told {
            Told::Made(entry) => self.entry(line.stamp, line.node, entry, ended),
            Told::Installed {
                handler,
                version,
                image,
            } => {
                self.install(line.node, handler.0, *version);
                self.locks
                    .install(desc, line.node, handler.0, image.as_slice());
                self.cut(line.node, line.stamp, StretchEnd::Cut, ended)
            }
            Told::OnAir(_) | Told::Shown(_) => Ok(()),
        }
    }

    fn entry(
        &mut self,
        now: Stamp,
        node: u8,
        entry: &Entry,
        ended: &mut Vec<Stretch>,
    ) -> Result<(), ViewFault> {
        match entry {
            Entry::Post {
                inv,
                handler,
                ctx,
                payload: _,
            } => {
                let locks = self.locks.of(node, handler.0);
                let live = Live {
                    inv: *inv,
                    handler: *handler,
                    ctx: *ctx,
                    phase: Phase::Waiting,
                    since: now,
                    locks,
                    blocker: self.blocker_of(node, &locks),
                };
                self.open(node, live, ended)
            }
            Entry::Start { inv } => {
                self.go_on(node, *inv, now, Phase::Running, StretchEnd::Next, ended)
            }
            Entry::Ask { inv, fun, args: _ } => {
                self.go_on(
                    node,
                    *inv,
                    now,
                    Phase::Asking(*fun),
                    StretchEnd::Next,
                    ended,
                )
            }
            Entry::Answer { inv, value } => {
                let end = StretchEnd::Answered(*value);
                self.go_on(node, *inv, now, Phase::Running, end, ended)
            }
            Entry::Halt { inv } => self.close(node, *inv, now, StretchEnd::Halted, ended),
            Entry::Fault { inv, kind } => {
                self.close(node, *inv, now, StretchEnd::Faulted(*kind), ended)
            }
            Entry::Reset => self.cut(node, now, StretchEnd::Cut, ended),
            _ => Ok(()),
        }
    }

    /// An invocation begins; one that is still in its context is cut.
    fn open(&mut self, node: u8, live: Live, ended: &mut Vec<Stretch>) -> Result<(), ViewFault> {
        let ctx = usize::from(live.ctx.0);
        if ctx >= CONTEXTS_MAX {
            return Ok(());
        }
        let place = usize::from(node) * CONTEXTS_MAX + ctx;
        self.end_at(place, node, live.since, StretchEnd::Cut, ended)?;
        self.set(place, Some(live));
        Ok(())
    }

    /// The stretch of an invocation ends, and another begins.
    fn go_on(
        &mut self,
        node: u8,
        inv: u32,
        now: Stamp,
        phase: Phase,
        end: StretchEnd,
        ended: &mut Vec<Stretch>,
    ) -> Result<(), ViewFault> {
        let Some(place) = self.place_of(node, inv) else {
            return Ok(());
        };
        let Some(live) = self.at(place) else {
            return Ok(());
        };
        ended.push(Stretch {
            node,
            live,
            to: now,
            end,
        })?;
        self.set(
            place,
            Some(Live {
                phase,
                since: now,
                ..live
            }),
        );
        Ok(())
    }

    /// An invocation ends.
    fn close(
        &mut self,
        node: u8,
        inv: u32,
        now: Stamp,
        end: StretchEnd,
        ended: &mut Vec<Stretch>,
    ) -> Result<(), ViewFault> {
        match self.place_of(node, inv) {
            Some(place) => self.end_at(place, node, now, end, ended),
            None => Ok(()),
        }
    }

    /// What is live at a place ends.
    fn end_at(
        &mut self,
        place: usize,
        node: u8,
        now: Stamp,
        end: StretchEnd,
        ended: &mut Vec<Stretch>,
    ) -> Result<(), ViewFault> {
        if let Some(live) = self.at(place) {
            ended.push(Stretch {
                node,
                live,
                to: now,
                end,
            })?;
            self.set(place, None);
        }
        Ok(())
    }

    /// All that is live on a node ends.
    fn cut(
        &mut self,
        node: u8,
        now: Stamp,
        end: StretchEnd,
        ended: &mut Vec<Stretch>,
    ) -> Result<(), ViewFault> {
        let first = usize::from(node) * CONTEXTS_MAX;
        for place in first..first + CONTEXTS_MAX {
            self.end_at(place, node, now, end, ended)?;
        }
        Ok(())
    }

    /// Nothing is followed any more, for this reason: the stretches of all that is live are appended to `ended`.
    pub fn finish(&mut self, end: StretchEnd, ended: &mut Vec<Stretch>) -> Result<(), ViewFault> {
        let now = self.now;
        for node in 0..NODES_MAX as u8 {
            self.cut(node, now, end, ended)?;
        }
        Ok(())
    }
}

/// Whether an invocation is older than the one that was found so far.
fn is_older(live: &Live, found: &Option<Blocker>) -> bool {
    match found {
        Some(blocker) => live.inv < blocker.inv,
        None => true,
    }
}
