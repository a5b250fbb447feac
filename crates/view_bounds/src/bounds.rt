//! The bounds of a world: the time by which each node has to hold a version, three longest intervals for each hop
//! from where it was injected; and the bound that the run of a report gives, whatever it lost.

use crate::around::{Pair, hops_from, pairs_of};
use crate::passing::{Happening, Loss, Own, Passing};
use mate_journal::{Air, Entry};
use mate_num::{HANDLERS_MAX, NODES_MAX};
use packet_codec::{Packet, decode};
use report_line_reader::{Line, Told};
use report_text::last_line::LastLine;
use script_steps::{Link, What, World};
use std::alloc::Global;
use view_records::{Flight, Flights, PacketKind, ViewFault};
use vm_shape::Description;

/// A version that a world injects.
#[derive(Clone, Copy)]
pub struct Injected {
    pub node: u8,
    pub handler: u8,
    pub version: u32,
    /// In ms.
    pub time: u64,
}

/// By when a node has to hold a version.
#[derive(Clone, Copy)]
pub struct Bound {
    pub node: u8,
    pub injected: Injected,
    /// How many hops it is from where the version was injected; None if no pairs of links lead there.
    pub hops: Option<u64>,
    /// Three longest intervals a hop after the injection, in ms.
    pub by: u64,
    /// Whether a later injection for the same handler comes before that.
    pub replaced: bool,
    /// When the node held the version, or a newer one, in ms.
    pub held: Option<u64>,
    /// What this run gives.
    pub own: Option<Own>,
}

/// Whether a bound is promised: it is only where no packet can be lost, nothing is suppressed, and no node is reset until then.
#[derive(Clone, Copy)]
pub enum Promise {
    Given,
    /// Links lose packets.
    Lossy,
    /// Nodes may keep their vectors back.
    Suppressed,
    /// This node is reset before.
    Reset { node: u8 },
}

/// What became of a bound.
#[derive(Clone, Copy)]
pub enum Outcome {
    /// The node held the version, or a newer one, by then.
    Kept,
    /// It didn't.
    Missed,
    /// The report ends before.
    Open,
}

/// Why a report isn't the report of a world.
#[derive(Clone, Copy)]
pub enum Mismatch {
    /// It has so many nodes, and the world has others.
    Nodes { report: u64, world: u64 },
    /// A version is injected there that the report doesn't have.
    Injection { injected: Injected },
}

/// A reset of a world.
#[derive(Clone, Copy)]
struct ResetAt {
    time: u64,
    node: u8,
}

/// The bounds of all injections of a world, in order, those of one by nodes.
#[derive(Drop)]
pub struct Bounds {
    pub bounds: Vec<Bound>,
    /// Each injection on its way, in the same order.
    passings: Vec<Passing>,
    flights: Flights,
    nodes: usize,
    /// Three longest intervals, in ms.
    pub hop: u64,
    until: u64,
    /// How far the run came, in ms.
    reached: u64,
    lossy: bool,
    suppressed: bool,
    resets: Vec<ResetAt>,
    /// The first thing in which the report differs from the world's, if there is one: then there are no bounds.
    pub mismatch: Option<Mismatch>,
}

impl Bounds {
    /// The bounds of a world, before the first line of a report.
    pub fn of(alloc: Global, desc: &Description, world: &World) -> Result<Bounds, ViewFault> {
        let mut bounds = Bounds {
            bounds: Vec::new(alloc),
            passings: Vec::new(alloc),
            flights: Flights::new(alloc),
            nodes: usize::from(world.nodes).min(NODES_MAX),
            hop: hop_of(desc),
            until: u64::from(world.until),
            reached: 0,
            lossy: has_loss(world.links.as_slice()),
            suppressed: world.suppress,
            resets: Vec::new(alloc),
            mismatch: None,
        };
        let pairs = pairs_of(alloc, world.links.as_slice())?;
        for planned in world.events.as_slice() {
            let (node, time) = (planned.node, u64::from(planned.time));
            match &planned.what {
                What::Inject {
                    program: _,
                    handler,
                    version,
                } => {
                    let injected = Injected {
                        node,
                        handler: handler.0,
                        version: *version,
                        time,
                    };
                    bounds.add(alloc, pairs.as_slice(), &injected)?;
                }
                What::Reset => bounds.resets.push(ResetAt { time, node })?,
                What::Post { .. } | What::Show | What::Noise { .. } => {}
            }
        }
        Ok(bounds)
    }

    /// Adds the bounds of an injection. It replaces the bounds of the handler's older versions that end later.
    fn add(&mut self, alloc: Global, pairs: &[Pair], injected: &Injected) -> Result<(), ViewFault> {
        for place in 0..self.bounds.len() {
            if place < self.bounds.len() {
                let bound = self.bounds[place];
                if bound.injected.handler == injected.handler && bound.by >= injected.time {
                    self.bounds[place].replaced = true;
                }
            }
        }
        let hops = hops_from(pairs, injected.node);
        for node in 0..NODES_MAX {
            if node < self.nodes {
                let far = self.hop.saturating_mul(hops[node].unwrap_or(0));
                self.bounds.push(Bound {
                    node: node as u8,
                    injected: *injected,
                    hops: hops[node],
                    by: injected.time.saturating_add(far),
                    replaced: false,
                    held: None,
                    own: None,
                })?;
            }
        }
        let source = Own {
            node: injected.node,
            from: injected.node,
            by: injected.time,
        };
        let longest = self.hop / 3;
        self.passings.push(Passing::new(alloc, source, longest, self.suppressed, pairs)?)?;
        Ok(())
    }

    /// Follows the next line of the report.
    pub fn take(&mut self, desc: &Description, line: &Line) -> Result<(), ViewFault> {
        let now = u64::from(line.stamp.time);
        self.reached = now;
        match &line.told {
            Told::OnAir(Air::Sent { number, bytes }) => {
                let mut flight = Flight::of(line, *number, bytes.as_slice());
                flight.versions = versions_in(desc, bytes.as_slice());
                self.flights.send(flight)?;
            }
            Told::Installed {
                handler,
                version,
                ..
            } => self.install(line.node, handler.0, *version, now),
            Told::OnAir(_) | Told::Made(_) | Told::Shown(_) => {}
        }
        for place in 0..self.passings.len() {
            let handler = self.handler_of(place);
            let what = self.happening(line, handler);
            if place < self.passings.len() {
                self.passings[place].follow(what.as_ref(), now)?;
            }
        }
        Ok(())
    }

    /// The handler of an injection.
    fn handler_of(&self, place: usize) -> u8 {
        match self.bounds.get(place.saturating_mul(self.nodes)) {
            Some(bound) => bound.injected.handler,
            None => 0,
        }
    }

    /// A node holds a version from now on.
    fn install(&mut self, node: u8, handler: u8, version: u32, now: u64) {
        for place in 0..self.bounds.len() {
            if place < self.bounds.len() {
                let bound = self.bounds[place];
                let same = bound.node == node && bound.injected.handler == handler;
                if same && bound.held.is_none() && version >= bound.injected.version {
                    self.bounds[place].held = Some(now);
                }
            }
        }
    }

    /// What a line says of a handler's windows.
    fn happening(&self, line: &Line, handler: u8) -> Option<Happening> {
        let node = line.node;
        match &line.told {
            Told::Installed {
                handler: other,
                version,
                image: _,
            } if other.0 == handler => Some(Happening::Installed {
                node,
                version: *version,
            }),
            Told::Made(Entry::Reset) => Some(Happening::Reset { node }),
            Told::OnAir(Air::Sent { number: _, bytes }) => {
                match PacketKind::of(bytes.as_slice()) {
                    PacketKind::Vector => Some(Happening::Vector { node }),
                    _ => None,
                }
            }
            Told::OnAir(Air::Lost { number, to }) => Some(Happening::Lost {
                from: node,
                to: *to,
                number: *number,
            }),
            Told::OnAir(Air::Got { number, from: _ }) => {
                let flight = self.flights.find(*number)?;
                let version = *flight.versions.get(usize::from(handler))?;
                Some(Happening::Heard { node, version })
            }
            _ => None,
        }
    }

    /// The report has ended: what its run gives is known, and whether it is one of the world.
    pub fn finish(&mut self, last: &LastLine) -> Result<(), ViewFault> {
        let end = if last.whole {
            self.reached = self.until;
            self.until.saturating_add(1)
        } else {
            self.reached
        };
        self.compare(last);
        for place in 0..self.passings.len() {
            if place < self.passings.len() {
                self.passings[place].follow(None, end)?;
            }
            if self.mismatch.is_none() {
                self.give(place);
            }
        }
        Ok(())
    }

    /// Gives the nodes of an injection the bounds of the run.
    fn give(&mut self, place: usize) {
        let first = place.saturating_mul(self.nodes);
        if place < self.passings.len() {
            for own in self.passings[place].owns() {
                let at = first.saturating_add(usize::from(own.node));
                if at < self.bounds.len() {
                    self.bounds[at].own = Some(*own);
                }
            }
        }
    }

    /// Compares the world with the report, which has an injection if its node held the version, or a newer one, at once.
    fn compare(&mut self, last: &LastLine) {
        if self.nodes as u64 != last.nodes {
            self.mismatch = Some(Mismatch::Nodes {
                report: last.nodes,
                world: self.nodes as u64,
            });
            return;
        }
        for bound in self.bounds.as_slice() {
            let injected = bound.injected;
            if bound.node == injected.node && injected.time < self.reached {
                if !is_by(bound.held, injected.time) {
                    self.mismatch = Some(Mismatch::Injection { injected });
                    return;
                }
            }
        }
    }

    /// The packets whose loss was waited for on the last hop to a node, in order; `bound` is the place of the node's bound.
    pub fn losses(&self, bound: usize) -> &[Loss] {
        match self.passings.get(bound / self.nodes.max(1)) {
            Some(passing) => passing.losses(),
            None => &[],
        }
    }

    /// Whether a bound is promised.
    pub fn promise(&self, bound: &Bound) -> Promise {
        if self.lossy {
            return Promise::Lossy;
        }
        if self.suppressed {
            return Promise::Suppressed;
        }
        for reset in self.resets.as_slice() {
            if bound.injected.time <= reset.time && reset.time <= bound.by {
                return Promise::Reset { node: reset.node };
            }
        }
        Promise::Given
    }

    /// What became of a bound at this time.
    pub fn outcome(&self, bound: &Bound, by: u64) -> Outcome {
        if is_by(bound.held, by) {
            Outcome::Kept
        } else if by <= self.reached {
            Outcome::Missed
        } else {
            Outcome::Open
        }
    }
}

fn is_by(held: Option<u64>, by: u64) -> bool {
    match held {
        Some(time) => time <= by,
        None => false,
    }
}

/// Three longest intervals, in ms.
fn hop_of(desc: &Description) -> u64 {
    u64::from(desc.trickle.longest()).saturating_mul(3)
}

fn has_loss(links: &[Link]) -> bool {
    for link in links {
        if link.loss > 0 {
            return true;
        }
    }
    false
}

/// The version of each handler that a packet names, 0 for none.
fn versions_in(desc: &Description, bytes: &[u8]) -> [u32; HANDLERS_MAX] {
    let mut named = [0; HANDLERS_MAX];
    match decode(desc, bytes) {
        Ok(Packet::Vector { versions }) => {
            let mut place = 0usize;
            for version in versions.as_slice() {
                if place < HANDLERS_MAX {
                    named[place] = *version;
                }
                place = place.saturating_add(1);
            }
        }
        Ok(
            Packet::Fragment {
                handler,
                version,
                ..
            },
        ) => {
            if usize::from(handler.0) < HANDLERS_MAX {
                named[usize::from(handler.0)] = version;
            }
        }
        Ok(_) | Err(_) => {}
    }
    named
}
