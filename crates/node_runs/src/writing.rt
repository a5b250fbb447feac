//! The run of a node script whose lines are written as its events end.

ghost use Rattle.std.specs.Prelude.{◌≡◌, ◌≤◌, ◌+◌, [], length, false, Err};
ghost use Rattle.mate_files.specs.Sink.{Puts};
ghost use Rattle.report_writer.specs.Text.{event_piece};
ghost use Rattle.node_state.specs.Meaning.{machine_in};
ghost use Rattle.node_open.specs.Journal.{KeepsJournal};
ghost use Rattle.node_programs.specs.ScriptSteps.{AreProgramsOf};
ghost use Rattle.node_runs.specs.Running.{IsReportOf, report_with};
ghost use Rattle.node_runs.specs.Keeping.{IsNewNode, StaysAsToldTo};
ghost use Rattle.node_runs.specs.Writing.{PassWrites};
ghost use Rattle.report_writer.specs.Writing.{PutsLastLine, WritesRun};
ghost use Rattle.report_writer.specs.declared.write_fault.WriteFault.TheVariants.{NoMemory as OutOfMemory};

use crate::heap_node::{HeapNode, Written};
use crate::running::is_full;
use mate_files::{Sink, SinkFault};
use mate_journal::StoredPrograms;
use mate_num::Stamp;
use node_open::SETTLING_ENTRIES;
use report_writer::{Pass, WriteFault, ended, stopped, write_end, write_event};
use script_steps::Steps;
use std::alloc::Global;
use vm_shape::Description;

/// Memory was refused before an event.
fn no_room(node: &HeapNode, events: u64) -> Pass
    ensures is { result ≡ record { events = events; whole = false; result = Err OutOfMemory } }
    ensures keeps { KeepsJournal node.now.description (machine_in node.now.description) node.now.log }
{
    let _told = node.told();
    Pass {
        events,
        whole: false,
        result: Err(WriteFault::NoMemory),
    }
}

/// How many entries of the node are at hand: the next one has this position among them.
fn next_position(node: &HeapNode) -> usize
    ensures position { node.now.gone.entries + result ≡ length node.now.log.entries }
    ensures keeps { KeepsJournal node.now.description (machine_in node.now.description) node.now.log }
{
    node.kept().entries().len()
}

/// Writes the lines of the entries from a position on, among those that are at hand.
fn write_new<S: Sink>(
    desc: &Description,
    node: &HeapNode,
    from: usize,
    out: &mut S,
) -> Result<(), SinkFault>
    requires { node.now.gone.entries + from ≤ length node.now.log.entries }
    ensures writes { Puts (S.written out.old) (S.faults out.old) (S.written out.new) (S.faults out.new) result
        (event_piece desc.now [] node.now.log (node.now.gone.entries + from) 0) }
    ensures keeps { KeepsJournal node.now.description (machine_in node.now.description) node.now.log }
{
    let kept = node.kept();
    // (most steps of a few instructions record nothing)
    if kept.entries().len() <= from {
        return Ok(());
    }
    write_event(desc, &[], kept, from, 0, out)
}

/// Writes the last line of the report of a run on a node, behind its other lines.
fn write_last<S: Sink>(node: &HeapNode, events: u64, whole: bool, out: &mut S) -> Pass
    ensures { PutsLastLine (report_with node.now.log events whole) (S.written out.old) (S.faults out.old) (S.written out.new)
        (S.faults out.new) result }
{
    let put = write_end(node.told() as u64, events, 1, whole, out);
    Pass {
        events,
        whole,
        result: ended(whole, put),
    }
}

/// Runs the steps of a script on a new node, and writes each event's lines when it ends, and then the last line. After a fault
/// of the sink no further event is begun.
pub fn write_run<S: Sink>(
    desc: &Description,
    steps: &Steps,
    programs: &StoredPrograms,
    node: &mut HeapNode,
    written: Written,
    out: &mut S,
) -> Pass
    requires programs { AreProgramsOf desc.now steps.now programs.now }
    requires fresh { IsNewNode desc.now node.old }
    ensures gives { PassWrites desc.now steps.now programs.now (S.written out.old) (S.written out.new) (S.faults out.old)
        (S.faults out.new) node.new.log result }
    ensures later { S.faults out.old ≤ S.faults out.new }
    ensures gone { StaysAsToldTo written node.old.gone node.new.gone }
{
    let _contexts = desc.contexts();
    let mut events = 0;
    let list = steps.steps();
    for step in list {
        if is_full(node) {
            return write_last(node, events, false, out);
        }
        if node.make_room(written, SETTLING_ENTRIES).is_err() {
            return no_room(node, events);
        }
        let from = next_position(node);
        events += 1;
        let at = Stamp {
            event: events,
            time: 0,
        };
        node.make(step, programs, at);
        if let Err(fault) = write_new(desc, node, from, out) {
            return Pass {
                events,
                whole: false,
                result: Err(stopped(fault)),
            };
        }
    }
    if node.reserve(1).is_err() {
        return no_room(node, events);
    }
    let from = next_position(node);
    let at = Stamp {
        event: events + 1,
        time: 0,
    };
    node.seen(at);
    if let Err(fault) = write_new(desc, node, from, out) {
        return Pass {
            events,
            whole: true,
            result: Err(stopped(fault)),
        };
    }
    write_last(node, events, true, out)
}

/// Runs the steps of a script on a node of this machine, with the programs of its files: the k-th step is event k, at time 0, and
/// at the end the store is recorded. Each event's lines are written when it ends, and then the last line. Its entries are forgotten
/// once their lines are written, so that a long run takes no more memory than its longest event.
pub fn write_steps<S: Sink>(
    alloc: Global,
    desc: &Description,
    steps: &Steps,
    programs: &StoredPrograms,
    out: &mut S,
) -> Result<(), WriteFault>
    requires { AreProgramsOf desc.now steps.now programs.now }
    ensures gives { WritesRun desc.now (IsReportOf desc.now steps.now programs.now) (S.written out.old) (S.written out.new)
        (S.faults out.old) (S.faults out.new) result }
    ensures later { S.faults out.old ≤ S.faults out.new }
{
    let Ok(mut node) = HeapNode::new(alloc, desc, programs) else {
        return Err(WriteFault::NoMemory);
    };
    write_run(desc, steps, programs, &mut node, Written::Forgotten, out).result
}
