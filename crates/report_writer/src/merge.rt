//! The records of a report, event by event.
//!
//! A position in each list says how far it was written: on the air, and in the log of each node.

ghost use Rattle.std.specs.Prelude.{◌≡◌, ◌<◌, ◌+◌, length, flat_map, slice_get, slice_index, All, EachIndex, IfSome};
ghost use Rattle.std.specs.Option.{option_map};
ghost use Rattle.mate_files.specs.Pen.{Prints};
ghost use Rattle.mate_journal.specs.Log.{Log};
ghost use Rattle.mate_journal.specs.Tidy.{below, entry_event, EventsRise};
ghost use Rattle.report_writer.specs.Text.{air_line, entry_line, entry_lines, event_lines, events_end};
ghost use Rattle.report_writer.specs.Progress.{air_event, at_event, IsOrdered, IsCut, AreCuts, AreLeftFrom, IsGreatest, lesser};

use crate::air_line::air_line;
use crate::entry_line::entry_line;
use mate_files::{Pen, Sink};
use mate_journal::{Aired, NodeLog, Report};
use vm_shape::Description;

/// The lines of all records, event by event. The positions, one for each node, begin at 0.
pub(crate) fn records<S: Sink>(
    pen: &mut Pen,
    out: &mut S,
    desc: &Description,
    report: &Report,
    cursors: &mut [usize],
)
    requires count { length report.now.nodes < 256 }
    requires same { length cursors.old ≡ length report.now.nodes }
    requires begin { EachIndex cursors.old (λ k. slice_index cursors.old k ≡ 0) }
    requires ordered { IsOrdered report.now }
    ensures { Prints (S.written out.old) (S.faults out.old) pen.old.result (S.written out.new) (S.faults out.new) pen.new.result
        (flat_map (event_lines desc.now report.now) (below (events_end report.now))) }
{
    let mut air = 0;
    let mut next = next_event(report, air, cursors);
    while let Some(event) = next {
        air = air_of_event(pen, out, report.air(), air, event);
        logs_of_event(pen, out, desc, report.nodes(), cursors, event);
        next = next_event(report, air, cursors);
    }
}

/// The lines of what happened on the air in an event. Returns the position after them.
fn air_of_event<S: Sink>(
    pen: &mut Pen,
    out: &mut S,
    air: &[Aired],
    from: usize,
    event: u64,
) -> usize
    requires ordered { EventsRise air_event 0 air.now }
    requires cut { IsCut air_event event air.now from }
    ensures prints { Prints (S.written out.old) (S.faults out.old) pen.old.result (S.written out.new) (S.faults out.new) pen.new.result
        (flat_map air_line (at_event air_event event air.now)) }
    ensures cut { IsCut air_event (event + 1) air.now result }
{
    let mut next = from;
    while next < air.len() {
        let aired = &air[next];
        if aired.stamp.event != event {
            return next;
        }
        air_line(pen, out, aired);
        next += 1;
    }
    next
}

/// The lines of a log's entries in an event. Returns the position after them.
fn log_of_event<S: Sink>(
    pen: &mut Pen,
    out: &mut S,
    desc: &Description,
    log: &NodeLog,
    node: u8,
    from: usize,
    event: u64,
) -> usize
    requires ordered { EventsRise entry_event 0 log.now.entries }
    requires cut { IsCut entry_event event log.now.entries from }
    ensures prints { Prints (S.written out.old) (S.faults out.old) pen.old.result (S.written out.new) (S.faults out.new) pen.new.result
        (flat_map (entry_line desc.now log.now node) (at_event entry_event event log.now.entries)) }
    ensures cut { IsCut entry_event (event + 1) log.now.entries result }
{
    let entries = log.entries();
    let mut next = from;
    while next < entries.len() {
        let stamped = &entries[next];
        if stamped.stamp.event != event {
            return next;
        }
        entry_line(pen, out, desc, log, node, stamped);
        next += 1;
    }
    next
}

/// The lines of the entries of an event, node by node. The positions move past them.
fn logs_of_event<S: Sink>(
    pen: &mut Pen,
    out: &mut S,
    desc: &Description,
    logs: &[NodeLog],
    cursors: &mut [usize],
    event: u64,
)
    requires count { length logs.now < 256 }
    requires same { length cursors.old ≡ length logs.now }
    requires ordered { All (λ (l : Log). EventsRise entry_event 0 l.entries) logs.now }
    requires cut { AreCuts event logs.now cursors.old }
    ensures prints { Prints (S.written out.old) (S.faults out.old) pen.old.result (S.written out.new) (S.faults out.new) pen.new.result
        (entry_lines desc.now event 0 logs.now) }
    ensures cut { AreCuts (event + 1) logs.now cursors.new }
{
    for (node, log) in logs.iter().enumerate() {
        cursors[node] = log_of_event(pen, out, desc, log, node as u8, cursors[node], event);
    }
}

/// The first event with a record that is left; None if no record is left.
fn next_event(report: &Report, air: usize, cursors: &[usize]) -> Option<u64>
    requires same { length cursors.now ≡ length report.now.nodes }
    requires ordered { IsOrdered report.now }
    ensures first { IsGreatest result (AreLeftFrom report.now air cursors.now) }
    ensures end { IfSome result (λ event. event < events_end report.now) }
{
    let mut next = air_head(report.air(), air);
    for (node, log) in report.nodes().iter().enumerate() {
        next = lesser(next, log_head(log, cursors[node]));
    }
    next
}

/// The event of what happened on the air at a position; None at the end.
fn air_head(air: &[Aired], position: usize) -> Option<u64>
    ensures { result ≡ option_map air_event (slice_get air.now position) }
{
    match air.get(position) {
        Some(aired) => Some(aired.stamp.event),
        None => None,
    }
}

/// The event of the entry at a position; None at the end.
fn log_head(log: &NodeLog, position: usize) -> Option<u64>
    ensures { result ≡ option_map entry_event (slice_get log.now.entries position) }
{
    match log.entries().get(position) {
        Some(stamped) => Some(stamped.stamp.event),
        None => None,
    }
}

/// The lesser of two numbers, or the one that there is.
fn lesser(a: Option<u64>, b: Option<u64>) -> Option<u64>
    ensures { result ≡ lesser a b }
{
    match (a, b) {
        (Some(a), Some(b)) => Some(a.min(b)),
        (Some(a), None) => Some(a),
        (None, b) => b,
    }
}
