//! The pieces of a report's text: the lines of an event, and the last line.

ghost use Rattle.std.specs.Prelude.{◌≡◌, ◌≤◌, ◌++◌, length, flat_map};
ghost use Rattle.mate_files.specs.Pen.{Prints};
ghost use Rattle.mate_files.specs.Sink.{Puts};
ghost use Rattle.report_writer.specs.Text.{air_line, event_piece, lines, entry_line, end_word, end_line};
ghost use Rattle.report_writer.specs.Pieces.{AddsPiece};
ghost use Rattle.mate_journal.specs.declared.report.Report.{Report};

use crate::air_line::air_line;
use crate::entry_line::entry_line;
use crate::words::number;
use mate_files::{Pen, Sink, SinkFault};
use mate_journal::{Aired, NodeLog, Stamped};
use vm_shape::Description;

/// The lines of entries of a node's log.
fn entry_lines<S: Sink>(
    pen: &mut Pen,
    out: &mut S,
    desc: &Description,
    log: &NodeLog,
    node: u8,
    entries: &[Stamped],
)
    ensures { Prints (S.written out.old) (S.faults out.old) pen.old.result (S.written out.new) (S.faults out.new) pen.new.result
        (flat_map (entry_line desc.now log.now node) entries.now) }
{
    for stamped in entries {
        entry_line(pen, out, desc, log, node, stamped);
    }
}

/// The lines of what happened on the air.
fn air_lines<S: Sink>(pen: &mut Pen, out: &mut S, air: &[Aired])
    ensures { Prints (S.written out.old) (S.faults out.old) pen.old.result (S.written out.new) (S.faults out.new) pen.new.result
        (flat_map air_line air.now) }
{
    for aired in air {
        air_line(pen, out, aired);
    }
}

/// The word of the last line: `end`, or `full` if the run is not whole.
pub fn end_word(whole: bool) -> &'static str
    ensures { result.now ≡ end_word whole }
{
    if whole { "end" } else { "full" }
}

/// Prints the last line of a report: `end` or `full`, and the numbers of records, events and nodes.
pub fn end_line<S: Sink>(
    pen: &mut Pen,
    out: &mut S,
    records: u64,
    events: u64,
    nodes: u64,
    whole: bool,
)
    ensures { Prints (S.written out.old) (S.faults out.old) pen.old.result (S.written out.new) (S.faults out.new) pen.new.result
        (end_line records events nodes whole) }
{
    pen.text(out, end_word(whole));
    number(pen, out, records);
    number(pen, out, events);
    number(pen, out, nodes);
    pen.text(out, "\n");
}

/// Writes the lines of what happened on the air, and then those of a log's entries from position `from`.
///
/// A part that the description or the log doesn't have is written as no bytes. If a run's report is written piece by
/// piece, each piece goes after the lines so far, and `write_end` makes a text of them (`makes_up`).
pub fn write_event<S: Sink>(
    desc: &Description,
    air: &[Aired],
    log: &NodeLog,
    from: usize,
    node: u8,
    out: &mut S,
) -> Result<(), SinkFault>
    requires { from ≤ length log.now.entries }
    ensures writes { Puts (S.written out.old) (S.faults out.old) (S.written out.new) (S.faults out.new) result
        (event_piece desc.now air.now log.now from node) }
    ensures makes_up { (before after : Report) → AddsPiece before after air.now log.now from node
        → lines desc.now after ≡ lines desc.now before ++ event_piece desc.now air.now log.now from node }
{
    let mut pen = Pen::new();
    air_lines(&mut pen, out, air);
    entry_lines(&mut pen, out, desc, log, node, &log.entries()[from..]);
    pen.finish()
}

/// Writes the last line of a report: `end`, or `full` if the run is not whole, and the numbers of records, events
/// and nodes.
pub fn write_end<S: Sink>(
    records: u64,
    events: u64,
    nodes: u8,
    whole: bool,
    out: &mut S,
) -> Result<(), SinkFault>
    ensures { Puts (S.written out.old) (S.faults out.old) (S.written out.new) (S.faults out.new) result
        (end_line records events nodes whole) }
{
    let mut pen = Pen::new();
    end_line(&mut pen, out, records, events, nodes as u64, whole);
    pen.finish()
}
