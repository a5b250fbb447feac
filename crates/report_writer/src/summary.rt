//! The summary of a run's report, and its text.

ghost use Rattle.std.specs.Prelude.{◌≡◌, ◌≤◌, ◌*◌, ◌^◌, ◌==◌, if◌then◌else◌, length, max, sum_by, count_by, flat_map, IfOk};
ghost use Rattle.mate_files.specs.Pen.{Prints};
ghost use Rattle.mate_files.specs.Sink.{Puts};
ghost use Rattle.mate_journal.specs.Tidy.{below};
ghost use Rattle.report_writer.specs.Brief.{count_line, text_of_counts};
ghost use Rattle.report_writer.specs.Tally.{versions_at};
ghost use Rattle.report_writer.specs.Summary.{entries_summed, newest_counted, counted_lines, newest_line_counted, summary_text, AreSmall};
ghost use Rattle.report_writer.specs.Summary.{IsSmall, IsOfNode, IsNewTally};

use crate::entry_line::handler_name;
use crate::kinds::EntryKind;
use crate::tally::{AirTally, EntryCounts, LogTally, one_if};
use crate::text::end_word;
use crate::words::{number, word};
use mate_files::{Pen, Sink, SinkFault};
use mate_num::{HandlerId, NoMemory};
use std::alloc::Global;
use vm_shape::Description;

/// What is counted of a run so far: of the log of each of its nodes, and of the air.
#[derive(Drop)]
pub struct RunTally {
    pub nodes: Vec<LogTally>,
    pub air: AirTally,
}

impl RunTally {
    /// The counts of a run on `nodes` nodes with `handlers` handlers, before anything happened. `NoMemory` is the only refusal.
    pub fn new(alloc: Global, nodes: u8, handlers: usize) -> Result<RunTally, NoMemory>
        ensures { IfOk result (IsNewTally handlers nodes) }
    {
        let mut tallies = Vec::new(alloc);
        for _node in 0..nodes {
            tallies.push(LogTally::new(alloc, handlers)?)?;
        }
        Ok(RunTally {
            nodes: tallies,
            air: AirTally::new(),
        })
    }

    /// The summary of the run after `events` events. It takes no memory.
    pub fn summary(self, events: u64, whole: bool) -> Summary
        ensures { result ≡ record { nodes = self.nodes; air = self.air; events = events; whole = whole } }
    {
        let RunTally { nodes, air } = self;
        Summary {
            nodes,
            air,
            events,
            whole,
        }
    }
}

/// What is counted of a run: of the log of each of its nodes and of the air; the number of its last event; and whether it is whole.
#[derive(Drop)]
pub struct Summary {
    pub nodes: Vec<LogTally>,
    pub air: AirTally,
    pub events: u64,
    pub whole: bool,
}

impl Summary {
    /// The summary of a run of `events` events on one node, with nothing on the air.
    pub fn of_node(
        alloc: Global,
        tally: LogTally,
        events: u64,
        whole: bool,
    ) -> Result<Summary, NoMemory>
        ensures { IfOk result (IsOfNode tally events whole) }
    {
        let mut nodes = Vec::new(alloc);
        nodes.push(tally)?;
        Ok(Summary {
            nodes,
            air: AirTally::new(),
            events,
            whole,
        })
    }

    /// Writes the summary: how many nodes, events and records there are, and how many records of each counted kind; per handler
    /// the greatest version that was installed and the number of nodes that have it last, both 0 if nothing was installed; and
    /// at last `end`, or `full` if the run is not whole.
    ///
    /// A fault is the sink's, which then holds a prefix of the summary. It takes no memory.
    pub fn write<S: Sink>(&self, desc: &Description, out: &mut S) -> Result<(), SinkFault>
        requires { IsSmall self.now }
        ensures { Puts (S.written out.old) (S.faults out.old) (S.written out.new) (S.faults out.new) result
            (summary_text desc.now self.now) }
    {
        let mut pen = Pen::new();
        self.count_lines(&mut pen, out);
        newest_lines(&mut pen, out, desc, self.nodes.as_slice());
        pen.text(out, end_word(self.whole));
        pen.text(out, "\n");
        pen.finish()
    }

    fn count_lines<S: Sink>(&self, pen: &mut Pen, out: &mut S)
        requires { IsSmall self.now }
        ensures { Prints (S.written out.old) (S.faults out.old) pen.old.result (S.written out.new) (S.faults out.new) pen.new.result
            (counted_lines self.now) }
    {
        let nodes = self.nodes.as_slice();
        let counts = EntryCounts {
            posts: entries_of(nodes, EntryKind::Post),
            drops: entries_of(nodes, EntryKind::Drop),
            halts: entries_of(nodes, EntryKind::Halt),
            faults: entries_of(nodes, EntryKind::Fault),
            installs: entries_of(nodes, EntryKind::Install),
        };
        let records = self.air.records + entries(nodes);
        text_of_counts(
            pen,
            out,
            nodes.len() as u64,
            self.events,
            records,
            &counts,
            &self.air,
        );
    }
}

/// Writes the lines of the counts of a run: how many nodes, events and records it has, and how many records of each counted kind.
pub fn text_of_counts<S: Sink>(
    pen: &mut Pen,
    out: &mut S,
    nodes: u64,
    events: u64,
    records: u64,
    counts: &EntryCounts,
    air: &AirTally,
)
    ensures { Prints (S.written out.old) (S.faults out.old) pen.old.result (S.written out.new) (S.faults out.new) pen.new.result
        (text_of_counts nodes events records counts.now.posts counts.now.drops counts.now.halts counts.now.faults counts.now.installs
        air.now.sent air.now.got air.now.lost) }
{
    count_line(pen, out, "nodes", nodes);
    count_line(pen, out, "events", events);
    count_line(pen, out, "records", records);
    count_line(pen, out, "posts", counts.posts);
    count_line(pen, out, "drops", counts.drops);
    count_line(pen, out, "halts", counts.halts);
    count_line(pen, out, "faults", counts.faults);
    count_line(pen, out, "installs", counts.installs);
    count_line(pen, out, "sent", air.sent);
    count_line(pen, out, "got", air.got);
    count_line(pen, out, "lost", air.lost);
}

fn count_line<S: Sink>(pen: &mut Pen, out: &mut S, name: &str, n: u64)
    ensures { Prints (S.written out.old) (S.faults out.old) pen.old.result (S.written out.new) (S.faults out.new) pen.new.result
        (count_line name.now n) }
{
    pen.text(out, name);
    number(pen, out, n);
    pen.text(out, "\n");
}

/// How many entries there are.
fn entries(nodes: &[LogTally]) -> u64
    requires { AreSmall nodes.now }
    ensures value { result ≡ sum_by (λ t. t.entries) nodes.now }
    ensures fits { result ≤ 3 * 2 ^ 62 }
{
    let mut count = 0;
    for tally in nodes {
        count += tally.entries;
    }
    count
}

/// How many entries of a kind there are.
fn entries_of(nodes: &[LogTally], kind: EntryKind) -> u64
    requires { AreSmall nodes.now }
    ensures { result ≡ entries_summed kind nodes.now }
{
    let mut count = 0;
    for tally in nodes {
        count += tally.counts.of(kind);
    }
    count
}

fn newest_lines<S: Sink>(pen: &mut Pen, out: &mut S, desc: &Description, nodes: &[LogTally])
    ensures { Prints (S.written out.old) (S.faults out.old) pen.old.result (S.written out.new) (S.faults out.new) pen.new.result
        (flat_map (newest_line_counted desc.now nodes.now) (below (length desc.now.handlers.items))) }
{
    for handler in 0..desc.handlers.len() {
        newest_line(pen, out, desc, nodes, HandlerId(handler as u8));
    }
}

fn newest_line<S: Sink>(
    pen: &mut Pen,
    out: &mut S,
    desc: &Description,
    nodes: &[LogTally],
    handler: HandlerId,
)
    ensures { Prints (S.written out.old) (S.faults out.old) pen.old.result (S.written out.new) (S.faults out.new) pen.new.result
        (newest_line_counted desc.now nodes.now handler.0) }
{
    pen.text(out, "newest");
    word(pen, out, handler_name(desc, handler));
    let version = newest(nodes, handler);
    number(pen, out, version as u64);
    number(pen, out, holders(nodes, handler, version));
    pen.text(out, "\n");
}

/// The greatest version that was installed for a handler, 0 for none.
fn newest(nodes: &[LogTally], handler: HandlerId) -> u32
    ensures { result ≡ newest_counted handler.0 nodes.now }
{
    let mut version = 0;
    for tally in nodes {
        let found = tally.versions_at(handler);
        version = greater(version, found.newest);
    }
    version
}

fn greater(a: u32, b: u32) -> u32
    ensures { result ≡ max a b }
{
    a.max(b)
}

/// How many nodes have a version of a handler as their last one; 0 if there is none.
fn holders(nodes: &[LogTally], handler: HandlerId, version: u32) -> u64
    ensures { result ≡ (if version == 0 then 0 else count_by (λ t. (versions_at handler.0 t.versions.items).last == version) nodes.now) }
{
    if version == 0 {
        0
    } else {
        holding(nodes, handler, version)
    }
}

/// How many nodes have this version of a handler as their last one.
fn holding(nodes: &[LogTally], handler: HandlerId, version: u32) -> u64
    ensures { result ≡ count_by (λ t. (versions_at handler.0 t.versions.items).last == version) nodes.now }
{
    let mut count = 0;
    for tally in nodes {
        let found = tally.versions_at(handler);
        count += one_if(found.last == version);
    }
    count
}
