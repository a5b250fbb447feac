//! The command `expand`.

ghost use Rattle.std.specs.Prelude.{◌≡◌, IfOk};
ghost use Rattle.command_documents.specs.Expand.{expand};
ghost use Rattle.command_documents.specs.Outputs.{CanBeWritten, owed_in};
ghost use Rattle.command_steps.specs.Parts.{ReadsFiles};

use crate::document::Document;
use crate::output::Output;
use command_refusals::Refusal;
use command_steps::expandable_of;
use mate_files::Files;
use std::alloc::Global;

/// The plain script that the source with procedures in a file expands to.
#[inline(never)]
pub fn output<F: Files>(alloc: Global, files: &mut F, name: &str) -> Result<Output, Refusal>
    ensures does { expand (record { told = F.contents files.old; steady = F.steady files.old }) name.now (owed_in result) }
    ensures reads { ReadsFiles (F.contents files.old) (F.steady files.old) (F.faults files.old) (F.contents files.new)
        (F.steady files.new) (F.faults files.new) result }
    ensures writable { IfOk result CanBeWritten }
{
    let script = expandable_of(alloc, files, name)?;
    Ok(Output::Document(Document::Expansion(script)))
}
