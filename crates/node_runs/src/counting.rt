//! The run of a node script whose entries are counted as its events end.

ghost use Rattle.std.specs.Prelude.{◌^◌, length, take, IfOk};
ghost use Rattle.vm_shape.specs.declared.description.Description.{Description};
ghost use Rattle.node_programs.specs.ScriptSteps.{AreProgramsOf};
ghost use Rattle.report_writer.specs.Runs.{IsRunSummary};
ghost use Rattle.report_writer.specs.Tally.{IsLogTally, IsUpTo};
ghost use Rattle.node_runs.specs.Counting.{Sums};
ghost use Rattle.node_runs.specs.Running.{IsReportOf};

use crate::heap_node::HeapNode;
use crate::running::is_full;
use mate_journal::StoredPrograms;
use mate_num::{NoMemory, Stamp};
use node_open::SETTLING_ENTRIES;
use report_writer::{LogTally, Summary};
use script_steps::Steps;
use std::alloc::Global;
use vm_shape::Description;

/// The summary of a run of this number of events on the node. All entries are counted already but those at hand.
fn summary_of(
    alloc: Global,
    node: &HeapNode,
    mut tally: LogTally,
    events: u64,
    whole: bool,
) -> Result<Summary, NoMemory>
    requires { IsUpTo (2 ^ 56) tally }
    ensures { IfOk result (Sums node.now tally events whole) }
{
    node.count_kept(&mut tally);
    Summary::of_node(alloc, tally, events, whole)
}

/// Runs the steps of a script as `run_steps` does, and gives the summary of its report. An event's entries are counted and
/// forgotten before the next event, so that a long run takes no more memory than its longest event.
pub fn sum_steps(
    alloc: Global,
    desc: &Description,
    steps: &Steps,
    programs: &StoredPrograms,
) -> Result<Summary, NoMemory>
    requires { AreProgramsOf desc.now steps.now programs.now }
    ensures { IfOk result (IsRunSummary desc.now (IsReportOf desc.now steps.now programs.now)) }
{
    let _contexts = desc.contexts();
    let mut tally = LogTally::new(alloc, desc.handlers.len())?;
    let mut node = HeapNode::new(alloc, desc, programs)?;
    let mut events = 0;
    let list = steps.steps();
    for step in list {
        if is_full(&node) {
            return summary_of(alloc, &node, tally, events, false);
        }
        node.count(&mut tally, SETTLING_ENTRIES)?;
        events += 1;
        let at = Stamp {
            event: events,
            time: 0,
        };
        node.make(step, programs, at);
    }
    let _told = node.told();
    node.count(&mut tally, 1)?;
    let at = Stamp {
        event: events + 1,
        time: 0,
    };
    node.seen(at);
    let _all = node.told();
    summary_of(alloc, &node, tally, events, true)
}
