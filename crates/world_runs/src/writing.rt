//! The run of a world whose lines are written as its events end, with a record of its report or without one.

ghost use Rattle.std.specs.Prelude.{◌≡◌, ◌≤◌, ◌<◌, ◌+◌, Some, OnOk, Err, false};
ghost use Rattle.mate_journal.specs.Log.{IsEmpty};
ghost use Rattle.report_writer.specs.Writing.{WritesRun};
ghost use Rattle.world_rules.specs.Report.{IsWorldReport};
ghost use Rattle.world_run_laws.specs.Coming.{code_world};
ghost use Rattle.node_programs.specs.WorldPrograms.{AreProgramsOfWorld};
ghost use Rattle.world_state.specs.Motes.{plain_effect};
ghost use Rattle.world_run_laws.specs.Promise.{IsReportOfWorld};
ghost use Rattle.world_state.specs.Keeping.{IsWhole};
ghost use Rattle.world_state.specs.Ranging.{AreInRange};
ghost use Rattle.world_state.specs.Running.{StandsAfter, StandsAtNext};
ghost use Rattle.world_state.specs.Telling.{LogsAreKept};
ghost use Rattle.world_runs.specs.Recording.{IsRecorded, has_record};
ghost use Rattle.world_runs.specs.Writing.{IsStepWritten, WritesRecorded};

use crate::pieces::{stopped_at, write_ending, write_last, write_piece, write_start};
use crate::record::Record;
use crate::recording::record_event;
use journal_laws::stamp_is_in_range;
use mate_files::Sink;
use mate_journal::{NodeLog, RECORDS_MAX, StoredPrograms};
use mate_num::Stamp;
use radio_sim::SharedEvent;
use report_writer::{Pass, WriteFault, stopped};
use script_steps::World;
use std::alloc::Global;
use vm_shape::Description;
use world_event::step;
use world_run_laws::{reports_keep_the_promise, states_are_sound};
use world_state::{Effect, Simulation, Written, may_tell};

/// Runs a world on nodes of this machine, with the programs of its files, and writes each event's lines when it ends, and then the last
/// line. After a fault of the sink no further event is begun. No report is kept: what a node recorded in an event, and what happened on
/// the air in it, is forgotten before the next one, and the room of its log goes to the node of the next one. So a long run takes no
/// more memory than its nodes and its longest event. The memory of the nodes is left to the end of the process.
pub fn write_world<S: Sink>(
    alloc: Global,
    desc: &Description,
    world: &World,
    programs: &StoredPrograms,
    out: &mut S,
) -> Result<(), WriteFault>
    requires { AreProgramsOfWorld desc.now world.now programs.now }
    ensures gives { WritesRun desc.now (IsReportOfWorld desc.now world.now programs.now) (S.written out.old) (S.written out.new)
        (S.faults out.old) (S.faults out.new) result }
    ensures later { S.faults out.old ≤ S.faults out.new }
{
    reports_keep_the_promise();
    let Ok(sim) = Simulation::start(alloc, desc, world, programs) else {
        return Err(WriteFault::NoMemory);
    };
    let mut none = None;
    write_run(alloc, desc, world, programs, sim, &mut none, out).result
}

/// Runs a world from its start, and writes each event's lines when it ends, and then the last line. If a record is kept, it has what
/// the report has that was written, or a part of it. The memory of the nodes is left to the end of the process, if the run ends by itself.
#[inline(never)]
pub fn write_run<S: Sink>(
    alloc: Global,
    desc: &Description,
    world: &World,
    programs: &StoredPrograms,
    mut sim: Simulation,
    records: &mut Option<Record>,
    out: &mut S,
) -> Pass
    requires right { AreProgramsOfWorld desc.now world.now programs.now }
    requires stands { StandsAfter (code_world desc.now world.now programs.now) 0 sim }
    requires whole { IsWhole sim }
    requires recorded { IsRecorded records.old sim }
    requires ranges { AreInRange sim }
    ensures gives { WritesRecorded desc.now (IsWorldReport (code_world desc.now world.now programs.now)) (S.written out.old)
        (S.written out.new) (S.faults out.old) (S.faults out.new) result records.new }
    ensures kept { has_record records.new ≡ has_record records.old }
    ensures later { S.faults out.old ≤ S.faults out.new }
{
    states_are_sound();
    if let Err(fault) = write_start(desc, world, programs, &sim, out) {
        return stopped_at(0, fault);
    }
    let mut room = NodeLog::new(alloc);
    let mut effect = Effect::none();
    let mut event = SharedEvent::Planned(0);
    for events in 0..u64::MAX {
        let Some(time) = sim.radio.next_into(&mut event) else {
            return write_ending(desc, world, programs, sim, events, records, out);
        };
        if sim.records >= RECORDS_MAX {
            return write_last(&sim, events, false, out);
        }
        let at = Stamp {
            event: events + 1,
            time,
        };
        if let Err(pass) = write_step(
            desc,
            world,
            programs,
            &mut sim,
            &event,
            at,
            &mut room,
            &mut effect,
            records,
            out,
        ) {
            return pass;
        }
    }
    // (more events than 64 bits count)
    stopped_at(u64::MAX, WriteFault::NoMemory)
}

/// The event comes, with this stamp; it is recorded, if a record is kept, and its lines are written. If a next one may come, what
/// was recorded is then forgotten, and the room of the node's log is spare again.
fn write_step<S: Sink>(
    desc: &Description,
    world: &World,
    programs: &StoredPrograms,
    sim: &mut Simulation,
    event: &SharedEvent,
    at: Stamp,
    room: &mut NodeLog,
    effect: &mut Effect,
    records: &mut Option<Record>,
    out: &mut S,
) -> Result<(), Pass>
    requires right { AreProgramsOfWorld desc.now world.now programs.now }
    requires stands { StandsAtNext (code_world desc.now world.now programs.now) event.now at sim.old }
    requires kept { LogsAreKept sim.old.motes.items }
    requires empty { IsEmpty room.old }
    requires plain { effect.old ≡ plain_effect }
    requires recorded { IsRecorded records.old sim.old }
    requires ranges { AreInRange sim.old }
    ensures writes { IsStepWritten desc.now (code_world desc.now world.now programs.now) at.event sim.old sim.new (S.written out.old)
        (S.faults out.old) (S.written out.new) (S.faults out.new) records.new result }
    ensures empty { IsEmpty room.new }
    ensures plain { OnOk result (effect.new ≡ plain_effect) }
    ensures kept { has_record records.new ≡ has_record records.old }
    ensures later { S.faults out.old ≤ S.faults out.new }
{
    stamp_is_in_range(&at);
    let trades = may_tell(desc, event);
    let Ok(node) = step(
        sim,
        desc,
        world,
        programs,
        event,
        at,
        Written::Forgotten,
        trades,
        room,
        effect,
    ) else {
        return Err(stopped_at(at.event - 1, WriteFault::NoMemory));
    };
    let Ok(()) = record_event(records, sim, node) else {
        return Err(stopped_at(at.event - 1, WriteFault::NoMemory));
    };
    if let Err(fault) = write_piece(desc, sim, node, out) {
        return Err(stopped_at(at.event, stopped(fault)));
    }
    sim.leave(node, trades, room);
    Ok(())
}
