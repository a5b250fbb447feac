//! The run of a node script, whose report is written as its events end, and handed out.

ghost use Rattle.std.specs.Prelude.{◌≤◌};
ghost use Rattle.node_programs.specs.ScriptSteps.{AreProgramsOf};
ghost use Rattle.node_runs.specs.Running.{IsReportOf};
ghost use Rattle.report_writer.specs.Writing.{RunsInto};

use crate::heap_node::{HeapNode, Written};
use crate::kept_run::report_of;
use crate::writing::write_run;
use mate_files::Sink;
use mate_journal::{IntoFault, NodeLogs, Programs, Report, StoredPrograms, stored};
use report_writer::nothing_run;
use script_steps::Steps;
use std::alloc::Global;
use vm_shape::Description;

/// Runs the steps of a script as `run_steps` does, and writes each event's lines when it ends, and then the last line. After
/// a fault of the sink no further event is begun; the report then has the events that ended. It is for callers from outside: it
/// copies the programs' images, and runs with these.
pub fn run_steps_into<S: Sink>(
    alloc: Global,
    desc: &Description,
    steps: &Steps,
    programs: &Programs,
    out: &mut S,
) -> Result<Report, IntoFault>
    requires { AreProgramsOf desc.now steps.now programs.now }
    ensures gives { RunsInto desc.now (IsReportOf desc.now steps.now programs.now) (S.written out.old) (S.written out.new)
        (S.faults out.old) (S.faults out.new) result }
    ensures later { S.faults out.old ≤ S.faults out.new }
{
    let Ok(programs) = stored(alloc, programs) else {
        return Err(IntoFault::NoMemory(nothing_run(alloc)));
    };
    run_stored_steps_into(alloc, desc, steps, &programs, out)
}

/// Runs the steps as `run_steps_into` does, with programs that are stored.
pub fn run_stored_steps_into<S: Sink>(
    alloc: Global,
    desc: &Description,
    steps: &Steps,
    programs: &StoredPrograms,
    out: &mut S,
) -> Result<Report, IntoFault>
    requires { AreProgramsOf desc.now steps.now programs.now }
    ensures gives { RunsInto desc.now (IsReportOf desc.now steps.now programs.now) (S.written out.old) (S.written out.new)
        (S.faults out.old) (S.faults out.new) result }
    ensures later { S.faults out.old ≤ S.faults out.new }
{
    let Ok(mut node) = HeapNode::new(alloc, desc, programs) else {
        return Err(IntoFault::NoMemory(nothing_run(alloc)));
    };
    let Ok(logs) = NodeLogs::empty(alloc, 1) else {
        return Err(IntoFault::NoMemory(nothing_run(alloc)));
    };
    let pass = write_run(desc, steps, programs, &mut node, Written::Kept, out);
    let report = report_of(alloc, logs, node, pass.events, pass.whole);
    match pass.result {
        Ok(()) => Ok(report),
        Err(fault) => Err(fault.with_report(report)),
    }
}
