//! The parts of a report, while its lines are read.

ghost use Rattle.std.specs.Prelude.{◌≡◌, ◌≤◌, ◌<◌, ◌+◌, ◌∷◌, ◌++◌, [], List, ℕ, length, take, max, All, OnOk, MatchResult, IfOk, Err};
ghost use Rattle.mate_num.specs.declared.bounds.TheConstants.{NODES_MAX};
ghost use Rattle.std.specs.Prelude.{IsTrue, ◌↔◌};
ghost use Rattle.vm_shape.specs.declared.description.Description.{Description};
ghost use Rattle.mate_journal.specs.Log.{Log, IsSameLog};
ghost use Rattle.mate_journal.specs.declared.report.Report.{Report};
ghost use Rattle.report_line_reader.specs.declared.line.Line.{Line};
ghost use Rattle.report_line_reader.specs.LightLine.{told_with, bulky_line};
ghost use Rattle.report_text.specs.Fits.{IsSound};
ghost use Rattle.report_text.specs.Parts.{log_with_line, log_of, node_in_air, node_named, nodes_in, nodes_of, report_of, IsSameReport};
ghost use Rattle.report_text.specs.Steps.{AreShort, AddsLine, HasRead, TakesLine, fits_last};
ghost use Rattle.report_text.specs.declared.fault.TextFault.TheVariants as fault;

use crate::fault::TextFault;
use crate::last_line::LastLine;
use crate::place::{Place, admits_next, place_after};
use mate_journal::{Air, Aired, Airs, NodeLog, NodeLogs, Report, Stamped};
use mate_num::{NODES_MAX, NoMemory, Stamp};
use report_line_reader::{Bulk, LightLine, LightTold};
use std::alloc::Global;

/// What the lines of a text recorded so far.
#[derive(Drop)]
pub struct Parts {
    /// A log for each node that there can be.
    pub logs: Vec<NodeLog>,
    pub air: Airs,
    pub place: Option<Place>,
    /// How many lines were read.
    pub count: u32,
    /// A number above each number of a node in these lines.
    pub nodes: u64,
}

/// The number of the other node that a line names, or 0.
fn node_named(told: &LightTold, bulk: &Bulk) -> u8
    ensures { result ≡ node_named (told_with bulk.now told.now) }
{
    let _bulk = bulk;
    match told {
        LightTold::OnAir(air) => node_in_air(air),
        LightTold::Made(_) | LightTold::Installed { .. } | LightTold::Shown => 0,
    }
}

fn node_in_air(air: &Air) -> u8
    ensures { result ≡ node_in_air air.now }
{
    match air {
        Air::Lost { number: _, to } => *to,
        Air::Got { number: _, from } => *from,
        Air::Interval { .. } | Air::Keep | Air::Sent { .. } | Air::Noise { .. } => 0,
    }
}

/// A number above each number of a node in a line.
fn nodes_in(line: &LightLine, bulk: &Bulk) -> u64
    ensures { result ≡ nodes_in (bulky_line bulk.now line.now) }
{
    line.node.max(node_named(&line.told, bulk)) as u64 + 1
}

/// Appends what a line records to the log of its node; a line about the air changes nothing.
fn add_to_log(log: &mut NodeLog, stamp: Stamp, told: LightTold, bulk: &Bulk) -> Result<(), NoMemory>
    requires images { length log.old.images < 4100000000 }
    requires stores { length log.old.stores < 4100000000 }
    ensures { OnOk result (IsSameLog log.new (log_with_line log.old stamp (told_with bulk.now told))) }
{
    log.reserve(1)?;
    match told {
        LightTold::OnAir(_) => {}
        LightTold::Made(entry) => log.push(Stamped { stamp, entry }),
        LightTold::Installed { handler, version } => {
            log.push_install(stamp, handler, version, &bulk.image);
        }
        LightTold::Shown => log.push_seen(stamp, bulk.store.copy()),
    }
    Ok(())
}

impl Parts {
    /// Before the first line.
    pub fn new(alloc: Global) -> Result<Parts, NoMemory>
        ensures { IfOk result (λ p. (d : Description) → HasRead d [] p) }
    {
        let mut logs = Vec::new(alloc);
        for _node in 0..NODES_MAX {
            logs.push(NodeLog::new(alloc))?;
        }
        Ok(Parts {
            logs,
            air: Airs::new(alloc),
            place: None,
            count: 0,
            nodes: 0,
        })
    }

    /// The fault if the line after those that were read is bad.
    pub fn bad_line(&self) -> TextFault
        requires { self.now.count ≤ 4000000000 }
        ensures { result ≡ fault.BadLine (self.now.count + 1) }
    {
        TextFault::BadLine {
            line: self.count + 1,
        }
    }

    /// Takes the next line, whose image or store is in `bulk`. A line that doesn't fit after those before it is the bad line.
    pub fn take(&mut self, line: LightLine, bulk: &Bulk) -> Result<(), TextFault>
        requires node { line.node < NODES_MAX }
        requires few { self.old.count < 4000000000 }
        requires read { (d : Description) × (ls : List Line) × HasRead d ls self.old }
        ensures { (d : Description) (ls : List Line) → HasRead d ls self.old → IsSound d (bulky_line bulk.now line)
            → TakesLine d ls (bulky_line bulk.now line) self.new result }
    {
        if !admits_next(&self.place, &line, bulk) {
            return Err(self.bad_line());
        }
        self.add(line, bulk)?;
        Ok(())
    }

    fn add(&mut self, line: LightLine, bulk: &Bulk) -> Result<(), NoMemory>
        requires node { line.node < length self.old.logs.items }
        requires few { self.old.count < 4000000000 }
        requires short { AreShort self.old.logs.items }
        ensures { OnOk result (AddsLine (bulky_line bulk.now line) self.old self.new) }
    {
        let place = place_after(&self.place, &line, bulk);
        let nodes = nodes_in(&line, bulk);
        let LightLine { stamp, node, told } = line;
        match told {
            LightTold::OnAir(air) => self.air.push(Aired { stamp, node, air })?,
            told => add_to_log(&mut self.logs[node as usize], stamp, told, bulk)?,
        }
        self.place = Some(place);
        self.count += 1;
        self.nodes = self.nodes.max(nodes);
        Ok(())
    }

    /// Whether a last line fits after the lines that were read.
    pub fn fits_last(&self, last: &LastLine) -> bool
        ensures { result ≡ fits_last self.now last.now }
    {
        last.records == self.count as u64
            && 1 <= last.nodes
            && last.nodes <= NODES_MAX as u64
            && self.nodes <= last.nodes
    }

    /// The report of the lines that were read, with this last line.
    pub fn into_report(self, alloc: Global, last: LastLine) -> Result<Report, NoMemory>
        requires { last.nodes ≤ NODES_MAX }
        ensures { IfOk result (λ r. (d : Description) (ls : List Line) → HasRead d ls self → IsSameReport r (report_of ls last)) }
    {
        let Parts { logs, air, .. } = self;
        let nodes = first_logs(alloc, logs, last.nodes as usize)?;
        Ok(Report::new(nodes, air, last.events, last.whole))
    }
}

/// The first logs, as many as a run has nodes.
fn first_logs(alloc: Global, mut logs: Vec<NodeLog>, count: usize) -> Result<NodeLogs, NoMemory>
    ensures { IfOk result (λ nodes. nodes ≡ take count logs.items) }
{
    logs.truncate(count);
    let mut nodes = NodeLogs::new(alloc);
    for log in logs {
        nodes.push(log)?;
    }
    Ok(nodes)
}
