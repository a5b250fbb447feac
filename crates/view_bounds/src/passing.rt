//! How a version passes over pairs of links in a run: what the law of windows promises of it (`docs/NETWORK.md`, "Where packets are lost").

use crate::around::Pair;
use mate_num::NODES_MAX;
use std::alloc::Global;
use view_records::ViewFault;

/// The bound that a run gives a node: it has what the sender of the hop had, or something newer, by then.
#[derive(Clone, Copy)]
pub struct Own {
    pub node: u8,
    /// The sender of the hop whose window ended; the node itself where the version is injected.
    pub from: u8,
    /// In ms.
    pub by: u64,
}

/// A packet that was lost between the nodes of a hop while its window was waited for.
#[derive(Clone, Copy)]
pub struct Loss {
    pub from: u8,
    pub to: u8,
    pub number: u32,
}

/// What happens, as far as it concerns windows of one handler.
#[derive(Clone, Copy)]
pub enum Happening {
    /// The node installs this version.
    Installed { node: u8, version: u32 },
    Reset { node: u8 },
    /// The node hears of this version.
    Heard { node: u8, version: u32 },
    /// The node sends its Vector.
    Vector { node: u8 },
    Lost { from: u8, to: u8, number: u32 },
}

/// A hop, and the window that may be open.
#[derive(Clone, Copy)]
struct Hop {
    from: u8,
    to: u8,
    /// Whether the sender has what is passed on.
    begun: bool,
    /// Since when nothing closes a window, in ms; None if none can begin now.
    clear: Option<u64>,
    /// When the sender's first Vector came since then.
    heard: Option<u64>,
}

/// What a node heard of.
#[derive(Clone, Copy)]
struct Ears {
    /// The newest version since its last reset began, 0 for none.
    newest: u32,
    /// The newest version at this time, in ms.
    now: u32,
    time: u64,
}

impl Ears {
    /// What was heard at a time so far.
    fn at(&self, time: u64) -> u32 {
        if self.time == time { self.now } else { 0 }
    }
}

/// A version that was injected, on its way.
#[derive(Drop)]
pub struct Passing {
    /// Where and when it was injected.
    source: Own,
    /// The longest interval, in ms.
    longest: u64,
    suppressed: bool,
    /// The hops to nodes that have no bound yet.
    hops: Vec<Hop>,
    losses: Vec<Loss>,
    /// The version that each node holds, 0 for none.
    held: [u32; NODES_MAX],
    ears: [Ears; NODES_MAX],
    owns: Vec<Own>,
    /// No window ends before.
    due: u64,
}

impl Passing {
    /// A version that is going to be injected.
    pub fn new(
        alloc: Global,
        source: Own,
        longest: u64,
        suppressed: bool,
        pairs: &[Pair],
    ) -> Result<Passing, ViewFault> {
        let mut hops = Vec::new(alloc);
        for pair in pairs {
            hops.push(Hop {
                from: pair.from,
                to: pair.to,
                begun: false,
                clear: None,
                heard: None,
            })?;
        }
        Ok(Passing {
            source,
            longest,
            suppressed,
            hops,
            losses: Vec::new(alloc),
            held: [0; NODES_MAX],
            ears: [Ears {
                newest: 0,
                now: 0,
                time: 0,
            }; NODES_MAX],
            owns: Vec::new(alloc),
            due: 0,
        })
    }

    /// The bounds that the run gave so far, in order of time.
    pub fn owns(&self) -> &[Own] {
        self.owns.as_slice()
    }

    /// The packets whose loss was waited for, or is, on all hops.
    pub fn losses(&self) -> &[Loss] {
        self.losses.as_slice()
    }

    /// All that happened before this time is known, so that windows end that nothing closed; then something may happen.
    pub fn follow(&mut self, what: Option<&Happening>, now: u64) -> Result<(), ViewFault> {
        self.advance(now)?;
        match what {
            Some(what) => self.take(what, now),
            None => Ok(()),
        }
    }

    fn advance(&mut self, now: u64) -> Result<(), ViewFault> {
        for _ in 0..NODES_MAX + 1 {
            if now <= self.due {
                return Ok(());
            }
            let next = self.next();
            if next.by >= now {
                self.due = next.by.min(now.saturating_add(self.longest));
                return Ok(());
            }
            self.settle(&next)?;
        }
        Ok(())
    }

    /// The bound that comes next if nothing happens.
    fn next(&self) -> Own {
        let mut next = self.source;
        if !self.owns.is_empty() {
            next.by = u64::MAX;
        }
        for hop in self.hops.as_slice() {
            let end = self.end_of(hop);
            if end < next.by {
                next = Own {
                    node: hop.to,
                    from: hop.from,
                    by: end,
                };
            }
        }
        next
    }

    /// When the window of a hop ends if nothing closes it: one longest interval after a Vector, or three without
    /// suppression.
    fn end_of(&self, hop: &Hop) -> u64 {
        let vector = match hop.heard {
            Some(time) => time.saturating_add(self.longest),
            None => u64::MAX,
        };
        match hop.clear {
            Some(time) if !self.suppressed => {
                vector.min(time.saturating_add(self.longest.saturating_mul(3)))
            }
            Some(_) => vector,
            None => u64::MAX,
        }
    }

    /// A node has its bound, and its own hops begin.
    fn settle(&mut self, own: &Own) -> Result<(), ViewFault> {
        self.owns.push(*own)?;
        let node = own.node;
        self.hops.retain(|hop| hop.to != node);
        for place in 0..self.hops.len() {
            if place < self.hops.len() && self.hops[place].from == node {
                self.hops[place] = self.anew(self.hops[place], own.by);
            }
        }
        Ok(())
    }

    /// A hop whose window can begin at a time, if the receiver heard of nothing newer than the sender holds.
    fn anew(&self, hop: Hop, time: u64) -> Hop {
        let (from, to) = (usize::from(hop.from), usize::from(hop.to));
        let free = from < NODES_MAX && to < NODES_MAX && self.ears[to].newest <= self.held[from];
        Hop {
            begun: true,
            clear: if free { Some(time) } else { None },
            heard: None,
            ..hop
        }
    }

    /// Something happens.
    fn take(&mut self, what: &Happening, now: u64) -> Result<(), ViewFault> {
        self.learn(what, now);
        for place in 0..self.hops.len() {
            if place < self.hops.len() && self.hops[place].begun {
                self.hops[place] = self.changed(self.hops[place], what, now);
            }
        }
        match what {
            Happening::Lost { from, to, number } => self.lose(*from, *to, *number),
            _ => Ok(()),
        }
    }

    /// Keeps the number of a packet that was lost on a hop that is waited for.
    fn lose(&mut self, from: u8, to: u8, number: u32) -> Result<(), ViewFault> {
        for hop in self.hops.as_slice() {
            if hop.begun && is_between(hop, from, to) {
                self.losses.push(Loss {
                    from: hop.from,
                    to: hop.to,
                    number,
                })?;
            }
        }
        Ok(())
    }

    /// A hop after something happened.
    fn changed(&self, hop: Hop, what: &Happening, now: u64) -> Hop {
        if self.closes(&hop, what) {
            return self.anew(hop, now);
        }
        match (what, hop.clear) {
            (Happening::Vector { node }, Some(time))
                if *node == hop.from && hop.heard.is_none() && now > time => {
                Hop {
                    heard: Some(now),
                    ..hop
                }
            }
            _ => hop,
        }
    }

    /// Follows what nodes hold and heard of.
    fn learn(&mut self, what: &Happening, time: u64) {
        let (node, version) = match what {
            Happening::Installed { node, version } | Happening::Heard { node, version } => {
                (usize::from(*node), *version)
            }
            Happening::Reset { node } => (usize::from(*node), 0),
            Happening::Vector { .. } | Happening::Lost { .. } => return,
        };
        if node >= NODES_MAX {
            return;
        }
        let ears = self.ears[node];
        match what {
            Happening::Installed { .. } => self.held[node] = version,
            Happening::Heard { .. } => {
                self.ears[node] = Ears {
                    newest: ears.newest.max(version),
                    now: ears.at(time).max(version),
                    time,
                }
            }
            _ => self.ears[node].newest = ears.at(time),
        }
    }

    /// Whether a window of the hop ends here, so that another one is waited for.
    fn closes(&self, hop: &Hop, what: &Happening) -> bool {
        match what {
            Happening::Installed { node, .. } => *node == hop.from,
            Happening::Reset { node } => *node == hop.from || *node == hop.to,
            Happening::Heard { node, version } => {
                let from = usize::from(hop.from);
                *node == hop.to && from < NODES_MAX && *version > self.held[from]
            }
            Happening::Vector { .. } => false,
            Happening::Lost { from, to, .. } => is_between(hop, *from, *to),
        }
    }
}

/// Whether a link between two nodes is one of the hop's.
fn is_between(hop: &Hop, from: u8, to: u8) -> bool {
    (from == hop.from && to == hop.to) || (from == hop.to && to == hop.from)
}
