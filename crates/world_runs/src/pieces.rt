//! The parts of a run of a world whose lines are written as its events end: its start, one event's lines, and its end.

ghost use Rattle.std.specs.Prelude.{◌≡◌, ◌≤◌, ◌<◌, ◌+◌, List, length, drop, sum_by, slice_get, All, Some, IfSome, Err, false};
ghost use Rattle.mate_num.specs.declared.bounds.TheConstants.{NODES_MAX};
ghost use Rattle.mate_files.specs.Sink.{Puts};
ghost use Rattle.mate_journal.specs.NodeScript.{Whole};
ghost use Rattle.mate_journal.specs.declared.air.Aired.{Aired as Happened};
ghost use Rattle.report_writer.specs.Text.{event_piece};
ghost use Rattle.report_writer.specs.Writing.{PutsLastLine, last_line};
ghost use Rattle.world_run_laws.specs.Coming.{code_world};
ghost use Rattle.node_programs.specs.WorldPrograms.{AreProgramsOfWorld};
ghost use Rattle.world_state.specs.declared.mote.Mote.{Mote as MoteState};
ghost use Rattle.world_state.specs.Keeping.{IsWhole};
ghost use Rattle.world_state.specs.Ranging.{AreInRange};
ghost use Rattle.world_state.specs.Reporting.{mote_logs, told_report};
ghost use Rattle.world_state.specs.Running.{StandsAfter};
ghost use Rattle.world_state.specs.Telling.{LogsAreKept};
ghost use Rattle.world_runs.specs.Recording.{IsRecorded, has_record};
ghost use Rattle.world_runs.specs.Writing.{EndsSo, IsStartWritten, StandsAtEnd, report_of};
ghost use Rattle.world_laws.specs.EventText.{store_lines};

use crate::record::Record;
use crate::recording::record_stores;
use mate_files::{Sink, SinkFault};
use mate_journal::StoredPrograms;
use mate_num::{NoMemory, Stamp};
use report_writer::{Pass, WriteFault, ended, stopped, write_end, write_event};
use script_steps::World;
use std::mem;
use vm_shape::Description;
use world_laws::text_grows_by_events;
use world_state::{Mote, Simulation, forget_all, see_stores};

/// The run stopped behind so many events, and was cut.
pub fn stopped_at(events: u64, fault: WriteFault) -> Pass
    ensures { result ≡ record { events = events; whole = false; result = Err fault } }
{
    Pass {
        events,
        whole: false,
        result: Err(fault),
    }
}

/// Writes the lines of the start: the first interval of each node.
#[inline(never)]
pub fn write_start<S: Sink>(
    desc: &Description,
    world: &World,
    programs: &StoredPrograms,
    sim: &Simulation,
    out: &mut S,
) -> Result<(), WriteFault>
    requires right { AreProgramsOfWorld desc.now world.now programs.now }
    requires stands { StandsAfter (code_world desc.now world.now programs.now) 0 sim.now }
    requires whole { IsWhole sim.now }
    ensures writes { IsStartWritten desc.now (code_world desc.now world.now programs.now) sim.now (S.written out.old) (S.faults out.old)
        (S.written out.new) (S.faults out.new) result }
    ensures later { S.faults out.old ≤ S.faults out.new }
{
    text_grows_by_events();
    logs_are_kept(sim.motes.as_slice());
    match write_piece(desc, sim, 0, out) {
        Ok(()) => Ok(()),
        Err(fault) => Err(stopped(fault)),
    }
}

/// Each node's store is seen; they are recorded, if a record is kept; and their lines are written, and the last line. The memory of the
/// radio is free for these stores. That of the nodes isn't freed piece by piece: to free them takes about as long as to make them.
#[inline(never)]
pub fn write_ending<S: Sink>(
    desc: &Description,
    world: &World,
    programs: &StoredPrograms,
    sim: Simulation,
    events: u64,
    records: &mut Option<Record>,
    out: &mut S,
) -> Pass
    requires right { AreProgramsOfWorld desc.now world.now programs.now }
    requires ends { StandsAtEnd (code_world desc.now world.now programs.now) Whole events sim }
    requires few { events < 18446744073709551615 }
    requires recorded { IsRecorded records.old sim }
    requires ranges { AreInRange sim }
    ensures writes { EndsSo desc.now (code_world desc.now world.now programs.now) sim (S.written out.old) (S.faults out.old)
        (S.written out.new) (S.faults out.new) result records.new }
    ensures kept { has_record records.new ≡ has_record records.old }
    ensures later { S.faults out.old ≤ S.faults out.new }
{
    text_grows_by_events();
    let at = Stamp {
        event: events + 1,
        time: world.until,
    };
    let Simulation {
        radio,
        mut motes,
        ..
    } = sim;
    let happened = radio.aired();
    drop(radio);
    let Ok(()) = forget_all(&mut motes) else {
        return stopped_at(events, WriteFault::NoMemory);
    };
    let Ok(()) = see_stores(&mut motes, at) else {
        return stopped_at(events, WriteFault::NoMemory);
    };
    logs_are_kept(motes.as_slice());
    let Ok(()) = record_stores(records, motes.as_slice()) else {
        return stopped_at(events, WriteFault::NoMemory);
    };
    if let Err(fault) = write_stores(desc, motes.as_slice(), out) {
        return Pass {
            events,
            whole: true,
            result: Err(stopped(fault)),
        };
    }
    let pass = end_with(motes.as_slice(), happened, events, true, out);
    mem::forget(motes);
    pass
}

/// Writes what a node and the radio have at hand.
#[inline(never)]
pub fn write_piece<S: Sink>(
    desc: &Description,
    sim: &Simulation,
    node: u8,
    out: &mut S,
) -> Result<(), SinkFault>
    requires { node < length sim.now.motes.items }
    ensures { (mote : MoteState) → slice_get sim.now.motes.items node ≡ Some mote
        → Puts (S.written out.old) (S.faults out.old) (S.written out.new) (S.faults out.new) result
        (event_piece desc.now (drop sim.now.radio.gone sim.now.radio.air) mote.node.log mote.node.gone.entries node) }
{
    let mote = &sim.motes[usize::from(node)];
    write_event(desc, sim.radio.air(), mote.node.kept(), 0, node, out)
}

/// Writes the line of the last entry of each node.
#[inline(never)]
fn write_stores<S: Sink>(desc: &Description, motes: &[Mote], out: &mut S) -> Result<(), SinkFault>
    requires some { All (λ (m : MoteState). m.node.gone.entries < length m.node.log.entries) motes.now }
    requires few { length motes.now ≤ NODES_MAX }
    ensures { Puts (S.written out.old) (S.faults out.old) (S.written out.new) (S.faults out.new) result
        (store_lines desc.now 0 (mote_logs motes.now)) }
{
    let mut node: u8 = 0;
    for mote in motes {
        let log = mote.node.kept();
        let last = log.entries().len() - 1;
        if let Err(fault) = write_event(desc, &[], log, last, node, out) {
            return Err(fault);
        }
        node += 1;
    }
    Ok(())
}

/// Writes the last line of the report so far, behind its other lines, and so ends the run.
#[inline(never)]
pub fn write_last<S: Sink>(sim: &Simulation, events: u64, whole: bool, out: &mut S) -> Pass
    requires { length sim.now.motes.items ≤ NODES_MAX }
    ensures { PutsLastLine (told_report sim.now events whole) (S.written out.old) (S.faults out.old) (S.written out.new) (S.faults out.new)
        result }
{
    end_with(sim.motes.as_slice(), sim.radio.aired(), events, whole, out)
}

/// Writes that line of nodes and of so many records of the air.
fn end_with<S: Sink>(motes: &[Mote], aired: usize, events: u64, whole: bool, out: &mut S) -> Pass
    requires { length motes.now ≤ NODES_MAX }
    ensures { (air : List Happened) → length air ≡ aired → PutsLastLine (report_of motes.now air events whole) (S.written out.old)
        (S.faults out.old) (S.written out.new) (S.faults out.new) result }
{
    let put = put_last(motes, aired, events, whole, out);
    Pass {
        events,
        whole,
        result: ended(whole, put),
    }
}

/// Writes it. (`NoMemory` comes also if 64 bits don't count the records; nothing is written then.)
fn put_last<S: Sink>(
    motes: &[Mote],
    aired: usize,
    events: u64,
    whole: bool,
    out: &mut S,
) -> Result<(), SinkFault>
    requires { length motes.now ≤ NODES_MAX }
    ensures { (air : List Happened) → length air ≡ aired → Puts (S.written out.old) (S.faults out.old) (S.written out.new)
        (S.faults out.new) result (last_line (report_of motes.now air events whole)) }
{
    match records_in(motes, aired) {
        Some(records) => write_end(records, events, motes.len() as u8, whole, out),
        None => Err(SinkFault::NoMemory),
    }
}

/// How many records there are; None if 64 bits don't count them.
fn records_in(motes: &[Mote], aired: usize) -> Option<u64>
    ensures { IfSome result (λ n. n ≡ aired + sum_by (λ l. length l.entries) (mote_logs motes.now)) }
{
    let told = entries_in(motes)?;
    (aired as u64).checked_add(told)
}

/// How many entries the nodes recorded; None if 64 bits don't count them.
fn entries_in(motes: &[Mote]) -> Option<u64>
    ensures { IfSome result (λ n. n ≡ sum_by (λ l. length l.entries) (mote_logs motes.now)) }
{
    let mut count: u64 = 0;
    for mote in motes {
        count = count.checked_add(mote.node.told() as u64)?;
    }
    Some(count)
}

/// What each node keeps of its log.
pub fn logs_are_kept(motes: &[Mote])
    ensures { LogsAreKept motes.now }
{
    for mote in motes {
        let _kept = mote.node.kept();
    }
}
