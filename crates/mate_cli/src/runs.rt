//! What is written of a run: its report, or the summary of it.

ghost use Rattle.std.specs.Prelude.{◌≡◌, IfOk, IfErr, true};
ghost use Rattle.mate_cli.specs.Runs.{run_output};
ghost use Rattle.command_documents.specs.Outputs.{CanBeWritten, HasPrograms, owed_in};
ghost use Rattle.command_refusals.specs.declared.refusal.Refusal.TheVariants.{NoMemory};

use command_documents::{Output, Run};
use command_refusals::Refusal;
use node_runs::sum_steps;
use std::alloc::Global;
use world_runs::sum_world;

/// The run, whose report is written while it runs; or the summary of its report, counted while it runs.
#[inline(never)]
pub(crate) fn run_output(alloc: Global, brief: bool, run: Run) -> Result<Output, Refusal>
    requires { HasPrograms run }
    ensures does { run_output brief run (owed_in result) }
    ensures memory { IfErr result (λ r. r ≡ NoMemory) }
    ensures writable { IfOk result CanBeWritten }
{
    if brief {
        summary(alloc, run)
    } else {
        Ok(Output::Run(run))
    }
}

/// The summary of the report of a run, whole or until its log is full. No report is kept.
#[inline(never)]
fn summary(alloc: Global, run: Run) -> Result<Output, Refusal>
    requires { HasPrograms run }
    ensures does { run_output true run (owed_in result) }
    ensures memory { IfErr result (λ r. r ≡ NoMemory) }
    ensures writable { IfOk result CanBeWritten }
{
    match run {
        Run::Script(machine, script, programs) => {
            match sum_steps(alloc, machine.description(), &script, &programs) {
                Ok(summary) => Ok(Output::Summary(machine, summary)),
                Err(_) => Err(Refusal::NoMemory),
            }
        }
        Run::World(machine, world, programs) => {
            match sum_world(alloc, machine.description(), &world, &programs) {
                Ok(summary) => Ok(Output::Summary(machine, summary)),
                Err(_) => Err(Refusal::NoMemory),
            }
        }
    }
}
