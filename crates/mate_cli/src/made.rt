//! The command `gen`.

ghost use Rattle.std.specs.Prelude.{◌≡◌, IfOk, IfErr};
ghost use Rattle.mate_cli.specs.Worlds.{made_run, run_of_number};
ghost use Rattle.command_documents.specs.Outputs.{CanBeWritten, owed_in};
ghost use Rattle.command_refusals.specs.declared.refusal.Refusal.TheVariants.{NoMemory};
ghost use Rattle.command_steps.specs.Parts.{ReadsFiles};

use crate::runs::run_output;
use command_documents::{BoxedMachine, Output, Run};
use command_line::MadeRun;
use command_programs::made_world;
use command_refusals::Refusal;
use mate_files::Files;
use std::alloc::Global;

/// The report of the run of a number's world, or its summary.
#[inline(never)]
pub fn output<F: Files>(alloc: Global, files: &mut F, words: MadeRun<'_>) -> Result<Output, Refusal>
    ensures does { made_run (record { told = F.contents files.old; steady = F.steady files.old }) words.entry.fold words.entry.brief
        words.entry.number words.entry.machine.now (owed_in result) }
    ensures reads { ReadsFiles (F.contents files.old) (F.steady files.old) (F.faults files.old) (F.contents files.new)
        (F.steady files.new) (F.faults files.new) result }
    ensures writable { IfOk result CanBeWritten }
{
    let machine = BoxedMachine::named(alloc, files, words.machine)?;
    run_of_number(alloc, machine, words)
}

/// The same on this machine.
#[inline(never)]
fn run_of_number(
    alloc: Global,
    machine: BoxedMachine,
    words: MadeRun<'_>,
) -> Result<Output, Refusal>
    ensures does { run_of_number words.entry.fold words.entry.brief machine words.entry.number (owed_in result) }
    ensures memory { IfErr result (λ r. r ≡ NoMemory) }
    ensures writable { IfOk result CanBeWritten }
{
    let made = made_world(alloc, machine.description(), words.fold, words.number)?;
    run_output(
        alloc,
        words.brief,
        Run::World(machine, made.world, made.programs),
    )
}
