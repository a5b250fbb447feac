//! The summary of a report.

ghost use Rattle.std.specs.Prelude.{◌≡◌, ◌==◌, if◌then◌else◌, ◌+◌, ◌<◌, ◌≤◌, ◌^◌, length, max, fold, flat_map, count_by};
ghost use Rattle.mate_num.specs.declared.bounds.TheConstants.{NODES_MAX};
ghost use Rattle.mate_files.specs.Pen.{Prints};
ghost use Rattle.mate_files.specs.Sink.{Puts};
ghost use Rattle.mate_journal.specs.Tidy.{below};
ghost use Rattle.report_writer.specs.Tidy.{IsTidy};
ghost use Rattle.report_writer.specs.Brief.{installed, versions, newest, last, newest_line, count_lines, brief};
ghost use Rattle.report_writer.specs.Counts.{holders_after};

use crate::counts::{count_records, entry_counts};
use crate::entry_line::handler_name;
use crate::text::end_word;
use crate::words::{number, word};
use crate::{AirTally, Versions, text_of_counts};
use mate_files::{Pen, Sink, SinkFault};
use mate_journal::{Entry, NodeLog, Report};
use mate_num::HandlerId;
use vm_shape::Description;

/// Writes the summary of a tidy report: how many nodes, events and records it has, and how many records of each
/// counted kind; per handler the greatest version that was installed and the number of nodes that have it last, both
/// 0 if nothing was installed; and at last `end`, or `full` if the run is not whole.
///
/// A fault is the sink's, which then holds a prefix of the summary. It takes no memory.
pub fn brief<S: Sink>(desc: &Description, report: &Report, out: &mut S) -> Result<(), SinkFault>
    requires { IsTidy desc.now report.now }
    ensures { Puts (S.written out.old) (S.faults out.old) (S.written out.new) (S.faults out.new) result (brief desc.now report.now) }
{
    let mut pen = Pen::new();
    count_lines(&mut pen, out, report);
    newest_lines(&mut pen, out, desc, report.nodes());
    pen.text(out, end_word(report.whole()));
    pen.text(out, "\n");
    pen.finish()
}

fn count_lines<S: Sink>(pen: &mut Pen, out: &mut S, report: &Report)
    requires { length report.now.nodes ≤ NODES_MAX }
    ensures { Prints (S.written out.old) (S.faults out.old) pen.old.result (S.written out.new) (S.faults out.new) pen.new.result
        (count_lines report.now) }
{
    let nodes = report.nodes();
    let counts = entry_counts(nodes);
    let mut air = AirTally::new();
    air.add_all(report.air());
    text_of_counts(
        pen,
        out,
        nodes.len() as u64,
        report.events(),
        count_records(report),
        &counts,
        &air,
    );
}

fn newest_lines<S: Sink>(pen: &mut Pen, out: &mut S, desc: &Description, logs: &[NodeLog])
    ensures { Prints (S.written out.old) (S.faults out.old) pen.old.result (S.written out.new) (S.faults out.new) pen.new.result
        (flat_map (newest_line desc.now logs.now) (below (length desc.now.handlers.items))) }
{
    for handler in 0..desc.handlers.len() {
        newest_line(pen, out, desc, logs, HandlerId(handler as u8));
    }
}

fn newest_line<S: Sink>(
    pen: &mut Pen,
    out: &mut S,
    desc: &Description,
    logs: &[NodeLog],
    handler: HandlerId,
)
    ensures { Prints (S.written out.old) (S.faults out.old) pen.old.result (S.written out.new) (S.faults out.new) pen.new.result
        (newest_line desc.now logs.now handler.0) }
{
    pen.text(out, "newest");
    word(pen, out, handler_name(desc, handler));
    let newest = newest(logs, handler);
    number(pen, out, newest.version as u64);
    number(pen, out, newest.held_by());
    pen.text(out, "\n");
}

/// The greatest version that was installed for a handler, 0 for none.
#[derive(Clone, Copy)]
struct NewestVersion {
    version: u32,
    // How many nodes have it as their last one; this counts also if it is 0.
    holders: u64,
}

impl NewestVersion {
    /// How many nodes have it as their last one; 0 if there is none.
    fn held_by(&self) -> u64
        ensures { result ≡ (if self.now.version == 0 then 0 else self.now.holders) }
    {
        if self.version == 0 { 0 } else { self.holders }
    }
}

fn newest(logs: &[NodeLog], handler: HandlerId) -> NewestVersion
    ensures version { result.version ≡ newest handler.0 logs.now }
    ensures holders { result.holders ≡ count_by (λ l. last handler.0 l == newest handler.0 logs.now) logs.now }
{
    let mut version = 0;
    let mut holders = 0;
    for log in logs {
        let versions = versions_in(log, handler, version);
        holders = holders_after(version, holders, versions);
        version = versions.newest;
    }
    NewestVersion { version, holders }
}

/// How many nodes have the newest version as their last one, with one log more.
fn holders_after(version: u32, holders: u64, versions: Versions) -> u64
    requires { holders < 2 ^ 63 }
    ensures value { result ≡ holders_after version holders versions.newest versions.last }
    ensures most { result ≤ holders + 1 }
{
    let kept = if versions.newest == version {
        holders
    } else {
        0
    };
    if versions.last == versions.newest {
        kept + 1
    } else {
        kept
    }
}

/// The greatest of a version and those that a node installed for a handler, and the last of these; 0 for none.
fn versions_in(log: &NodeLog, handler: HandlerId, mut newest: u32) -> Versions
    ensures newest { result.newest ≡ fold max newest (versions handler.0 log.now) }
    ensures last { result.last ≡ last handler.0 log.now }
{
    let mut last = 0;
    for stamped in log.entries() {
        if let Some(version) = installed(&stamped.entry, handler) {
            newest = newest.max(version);
            last = version;
        }
    }
    Versions { newest, last }
}

/// The version that an entry installs for a handler, if it does.
fn installed(entry: &Entry, handler: HandlerId) -> Option<u32>
    ensures { result ≡ installed handler.0 entry.now }
{
    match entry {
        Entry::Install {
            handler: of,
            version,
            ..
        } => (of.0 == handler.0).then_some(*version),
        _ => None,
    }
}
