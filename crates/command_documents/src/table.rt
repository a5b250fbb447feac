//! The command `table`.

ghost use Rattle.std.specs.Prelude.{◌≡◌, IfOk};
ghost use Rattle.command_documents.specs.Outputs.{CanBeWritten, owed_in};
ghost use Rattle.command_steps.specs.Parts.{ReadsFiles};
ghost use Rattle.command_documents.specs.Table.{opcode_table};

use crate::boxed_machine::BoxedMachine;
use crate::document::Document;
use crate::output::Output;
use command_refusals::Refusal;
use mate_files::Files;
use std::alloc::Global;

/// The opcode table of a machine.
#[inline(never)]
pub fn output<F: Files>(alloc: Global, files: &mut F, vm: &str) -> Result<Output, Refusal>
    ensures does { opcode_table (record { told = F.contents files.old; steady = F.steady files.old }) vm.now (owed_in result) }
    ensures reads { ReadsFiles (F.contents files.old) (F.steady files.old) (F.faults files.old) (F.contents files.new)
        (F.steady files.new) (F.faults files.new) result }
    ensures writable { IfOk result CanBeWritten }
{
    let machine = BoxedMachine::named(alloc, files, vm)?;
    Ok(Output::Document(Document::OpcodeTable(machine)))
}
