//! The command `check`.

ghost use Rattle.std.specs.Prelude.{◌≡◌, IfOk};
ghost use Rattle.command_documents.specs.Outputs.{CanBeWritten, owed_in};
ghost use Rattle.command_steps.specs.Parts.{ReadsFiles};
ghost use Rattle.command_documents.specs.Check.{check};

use crate::boxed_machine::BoxedMachine;
use crate::document::Document;
use crate::output::Output;
use command_refusals::Refusal;
use command_steps::capsule_of;
use mate_files::Files;
use std::alloc::Global;

/// The text of the capsule in a file.
#[inline(never)]
pub fn output<F: Files>(
    alloc: Global,
    files: &mut F,
    vm: &str,
    name: &str,
) -> Result<Output, Refusal>
    ensures does { check (record { told = F.contents files.old; steady = F.steady files.old }) vm.now name.now (owed_in result) }
    ensures reads { ReadsFiles (F.contents files.old) (F.steady files.old) (F.faults files.old) (F.contents files.new)
        (F.steady files.new) (F.faults files.new) result }
    ensures writable { IfOk result CanBeWritten }
{
    let machine = BoxedMachine::named(alloc, files, vm)?;
    let capsule = capsule_of(alloc, files, machine.description(), name)?;
    Ok(Output::Document(Document::Listing(machine, capsule)))
}
