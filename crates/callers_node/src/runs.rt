//! The run of a node's script, and its text.

ghost use Rattle.std.specs.Prelude.{◌≡◌, ◌<◌, ◌++◌, ◌∷◌, [], suc, false, List, length, IfOk, IfErr, IsSomeAnd, slice_get};
ghost use Rattle.mate_files.specs.Sink.{Sent, SentPart};
ghost use Rattle.mate_journal.specs.Described.{machine_of};
ghost use Rattle.mate_journal.specs.Log.{Log};
ghost use Rattle.mate_journal.specs.NodeScript.{Step};
ghost use Rattle.mate_journal.specs.declared.report.IntoFault.TheVariants.{NoMemory as MemoryRanOut};
ghost use Rattle.mate_journal.specs.declared.report.Report.{Report as Reported};
ghost use Rattle.node_programs.specs.ScriptSteps.{AreProgramsOf, steps_of};
ghost use Rattle.node_programs.specs.Sources.{meaning_by};
ghost use Rattle.report_writer.specs.Text.{lines, text};
ghost use Rattle.callers_node.specs.Runs.{MakesThere, IsSeenLast};

use mate_files::Sink;
use mate_journal::{IntoFault, Programs, Report, RunFault};
use node_runs::{run_steps, run_steps_into};
use script_steps::Steps;
use std::alloc::Global;
use vm_shape::Description;

/// Each step of a whole run is one event, which begins with fewer than 1,000,000 records before it, and records what the step makes: a
/// turn has as many instructions as its line says, and one in a context where nobody is ready is told to be not ready.
pub fn each_step_records_what_it_makes(
    alloc: Global,
    desc: &Description,
    steps: &Steps,
    programs: &Programs,
) -> Result<Report, RunFault>
    requires { AreProgramsOf desc.now steps.now programs.now }
    ensures { IfOk result (λ report. (before after : List Step) (step : Step)
        → steps_of steps.now programs.now ≡ before ++ step ∷ after
        → MakesThere (machine_of desc.now (meaning_by desc.now programs.now)) before step report) }
{
    run_steps(alloc, desc, steps, programs)
}

/// The text of a whole run is written once and to its end, where the last entry shows the store, under the next number.
pub fn a_whole_run_is_written_to_its_last_store<S: Sink>(
    alloc: Global,
    desc: &Description,
    steps: &Steps,
    programs: &Programs,
    out: &mut S,
) -> Result<Report, IntoFault>
    requires { AreProgramsOf desc.now steps.now programs.now }
    ensures sent { IfOk result (λ report. Sent (S.written out.old) (S.written out.new) (text desc.now report)) }
    ensures seen { IfOk result (λ report. IsSomeAnd (slice_get report.nodes 0) (IsSeenLast (suc report.events))) }
{
    run_steps_into(alloc, desc, steps, programs, out)
}

/// Where memory runs out before an event, with fewer than 1,000,000 records, what was written has no last line.
pub fn a_cut_run_has_no_last_line<S: Sink>(
    alloc: Global,
    desc: &Description,
    steps: &Steps,
    programs: &Programs,
    out: &mut S,
) -> Result<Report, IntoFault>
    requires { AreProgramsOf desc.now steps.now programs.now }
    ensures { IfErr result (λ fault. (report : Reported) (log : Log) → fault ≡ MemoryRanOut report → report.whole ≡ false
        → report.nodes ≡ log ∷ [] → length log.entries < 1000000
        → SentPart (S.written out.old) (S.written out.new) (lines desc.now report)) }
{
    run_steps_into(alloc, desc, steps, programs, out)
}
