//! The run of a node script, whose report is handed out.

ghost use Rattle.std.specs.Prelude.{◌≡◌, length};
ghost use Rattle.node_state.specs.Meaning.{machine_in};
ghost use Rattle.node_open.specs.Journal.{KeepsJournal};
ghost use Rattle.node_programs.specs.ScriptSteps.{AreProgramsOf};
ghost use Rattle.mate_journal.specs.OpenLog.{nothing_gone};
ghost use Rattle.node_runs.specs.Running.{RunGives, report_with};

use crate::heap_node::HeapNode;
use crate::running::is_full;
use mate_journal::{Airs, NodeLogs, Programs, Report, RunFault, StoredPrograms, stored};
use mate_num::Stamp;
use node_open::SETTLING_ENTRIES;
use script_steps::Steps;
use std::alloc::Global;
use vm_shape::Description;

/// The report of a run on one node. It takes no memory.
pub(crate) fn report_of(
    alloc: Global,
    logs: NodeLogs,
    node: HeapNode,
    events: u64,
    whole: bool,
) -> Report
    requires one { length logs ≡ 1 }
    requires all { node.gone ≡ nothing_gone }
    ensures is { result ≡ report_with node.log events whole }
    ensures keeps { KeepsJournal node.description (machine_in node.description) node.log }
{
    let mut logs = logs;
    logs.put(0, node.into_log());
    Report::new(logs, Airs::new(alloc), events, whole)
}

/// Runs the steps of a script on a node of this machine, with the programs of its files: the k-th step is event k, at time
/// 0, and at the end the store is recorded. `LogFull` comes exactly if a step is left after 1,000,000 records or more, with
/// the report so far. It is for callers from outside: it copies the programs' images, and runs with these.
pub fn run_steps(
    alloc: Global,
    desc: &Description,
    steps: &Steps,
    programs: &Programs,
) -> Result<Report, RunFault>
    requires { AreProgramsOf desc.now steps.now programs.now }
    ensures { RunGives desc.now steps.now programs.now result }
{
    let programs = stored(alloc, programs)?;
    run_stored_steps(alloc, desc, steps, &programs)
}

/// Runs the steps as `run_steps` does, with programs that are stored.
pub fn run_stored_steps(
    alloc: Global,
    desc: &Description,
    steps: &Steps,
    programs: &StoredPrograms,
) -> Result<Report, RunFault>
    requires { AreProgramsOf desc.now steps.now programs.now }
    ensures { RunGives desc.now steps.now programs.now result }
{
    let _contexts = desc.contexts();
    let logs = NodeLogs::empty(alloc, 1)?;
    let mut node = HeapNode::new(alloc, desc, programs)?;
    let mut events = 0;
    let list = steps.steps();
    for step in list {
        if is_full(&node) {
            return Err(RunFault::LogFull(report_of(alloc, logs, node, events, false)));
        }
        node.reserve(SETTLING_ENTRIES)?;
        events += 1;
        let at = Stamp {
            event: events,
            time: 0,
        };
        node.make(step, programs, at);
    }
    node.reserve(1)?;
    let _told = node.told();
    let at = Stamp {
        event: events + 1,
        time: 0,
    };
    node.seen(at);
    Ok(report_of(alloc, logs, node, events, true))
}
