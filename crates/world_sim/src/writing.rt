//! The run of a world whose lines are written as its events end, and whose report may be handed out.

ghost use Rattle.std.specs.Prelude.{◌≤◌, ◌<◌, Some, IfOk, Err};
ghost use Rattle.report_writer.specs.Writing.{RunsInto};
ghost use Rattle.node_programs.specs.WorldPrograms.{AreProgramsOfWorld};
ghost use Rattle.world_runs.specs.Writing.{StartsRecorded};
ghost use Rattle.world_run_laws.specs.Promise.{IsReportOfWorld};
ghost use Rattle.world_run_laws.specs.Coming.{code_world};

use mate_files::Sink;
use mate_journal::{IntoFault, Programs, Report, StoredPrograms, stored};
use mate_num::NoMemory;
use report_writer::nothing_run;
use script_steps::World;
use std::alloc::Global;
use vm_shape::Description;
use world_run_laws::reports_keep_the_promise;
use world_runs::{Record, add_event, write_run};
use world_state::Simulation;

/// The world before its first event, and the record of its start.
fn start_recorded(
    alloc: Global,
    desc: &Description,
    world: &World,
    programs: &StoredPrograms,
) -> Result<(Simulation, Record), NoMemory>
    requires { AreProgramsOfWorld desc.now world.now programs.now }
    ensures { IfOk result (λ made. StartsRecorded (code_world desc.now world.now programs.now) made.0 made.1) }
{
    let mut record = Record::new(alloc, world.nodes)?;
    let sim = Simulation::start(alloc, desc, world, programs)?;
    add_event(&mut record, &sim, 0)?;
    Ok((sim, record))
}

/// Runs a world as `run` does, and writes each event's lines when it ends, and then the last line. After a fault of the sink no
/// further event is begun; the report then has the events that ended. The memory of the nodes is left to the end of the process.
/// It is for callers from outside: it copies the programs' images, and runs with these.
pub fn run_into<S: Sink>(
    alloc: Global,
    desc: &Description,
    world: &World,
    programs: &Programs,
    out: &mut S,
) -> Result<Report, IntoFault>
    requires { AreProgramsOfWorld desc.now world.now programs.now }
    ensures gives { RunsInto desc.now (IsReportOfWorld desc.now world.now programs.now) (S.written out.old) (S.written out.new)
        (S.faults out.old) (S.faults out.new) result }
    ensures later { S.faults out.old ≤ S.faults out.new }
{
    let Ok(programs) = stored(alloc, programs) else {
        return Err(IntoFault::NoMemory(nothing_run(alloc)));
    };
    run_stored_into(alloc, desc, world, &programs, out)
}

/// Runs a world as `run_into` does, with programs that are stored.
pub fn run_stored_into<S: Sink>(
    alloc: Global,
    desc: &Description,
    world: &World,
    programs: &StoredPrograms,
    out: &mut S,
) -> Result<Report, IntoFault>
    requires { AreProgramsOfWorld desc.now world.now programs.now }
    ensures gives { RunsInto desc.now (IsReportOfWorld desc.now world.now programs.now) (S.written out.old) (S.written out.new)
        (S.faults out.old) (S.faults out.new) result }
    ensures later { S.faults out.old ≤ S.faults out.new }
{
    reports_keep_the_promise();
    let Ok((sim, record)) = start_recorded(alloc, desc, world, programs) else {
        return Err(IntoFault::NoMemory(nothing_run(alloc)));
    };
    let mut record = Some(record);
    let pass = write_run(alloc, desc, world, programs, sim, &mut record, out);
    let Some(record) = record else { unreachable!() };
    let report = record.into_report(pass.events, pass.whole);
    match pass.result {
        Ok(()) => Ok(report),
        Err(fault) => Err(fault.with_report(report)),
    }
}
