//! The command `node`.

ghost use Rattle.std.specs.Prelude.{IfOk};
ghost use Rattle.mate_cli.specs.Node.{node, run_of_script};
ghost use Rattle.command_documents.specs.Outputs.{CanBeWritten, owed_in};
ghost use Rattle.command_steps.specs.Parts.{ReadsFiles};

use crate::runs::run_output;
use command_documents::{BoxedMachine, Output, Run};
use command_line::ScriptRun;
use command_programs::{programs_of, script_of};
use command_refusals::Refusal;
use mate_files::Files;
use std::alloc::Global;

/// The run of a node script, whose report is written while it runs; or the summary of its report, counted while it runs.
#[inline(never)]
pub fn output<F: Files>(
    alloc: Global,
    files: &mut F,
    words: ScriptRun<'_>,
) -> Result<Output, Refusal>
    ensures does { node (record { told = F.contents files.old; steady = F.steady files.old }) words.entry.fold words.entry.brief
        words.entry.machine.now words.entry.script.now (owed_in result) }
    ensures reads { ReadsFiles (F.contents files.old) (F.steady files.old) (F.faults files.old) (F.contents files.new)
        (F.steady files.new) (F.faults files.new) result }
    ensures writable { IfOk result CanBeWritten }
{
    let machine = BoxedMachine::named(alloc, files, words.machine)?;
    run_of_script(alloc, files, machine, words)
}

/// The run of the script in a file on this machine, or the summary of its report.
#[inline(never)]
fn run_of_script<F: Files>(
    alloc: Global,
    files: &mut F,
    machine: BoxedMachine,
    words: ScriptRun<'_>,
) -> Result<Output, Refusal>
    ensures does { run_of_script (record { told = F.contents files.old; steady = F.steady files.old }) words.entry.fold words.entry.brief
        machine words.entry.script.now (owed_in result) }
    ensures reads { ReadsFiles (F.contents files.old) (F.steady files.old) (F.faults files.old) (F.contents files.new)
        (F.steady files.new) (F.faults files.new) result }
    ensures writable { IfOk result CanBeWritten }
{
    let desc = machine.description();
    let script = script_of(alloc, files, desc, words.script)?;
    let programs = programs_of(alloc, files, desc, words.fold, &script)?;
    run_output(alloc, words.brief, Run::Script(machine, script, programs))
}
