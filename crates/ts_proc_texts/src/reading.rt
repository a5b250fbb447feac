//! The whole way from bytes to a script with procedures.

ghost use Rattle.std.specs.Prelude.{◌≡◌, ◌≤◌, length};
ghost use Rattle.mate_files.specs.declared.files.TheConstants.{FILE_MAX};
ghost use Rattle.ts_proc_texts.specs.Reading.{ReadsProcedures, proc_fault_of as named_fault};

use std::alloc::Global;
use ts_parser::{SourceFault, read_procedures};
use ts_proc_names::{PScript, ProcFault};

/// The script with procedures of a source of at most 1,048,576 bytes, or its first refusal: of its tokens over the
/// whole text, then of its grammar and depth, then of its names. `NoMemory` may come instead of any answer.
pub fn read(alloc: Global, bytes: &[u8]) -> Result<PScript, ProcFault>
    requires { length bytes.now ≤ FILE_MAX }
    ensures { ReadsProcedures bytes.now result }
{
    match read_procedures(alloc, bytes) {
        Ok(script) => PScript::new(alloc, script),
        Err(fault) => Err(fault_of(fault)),
    }
}

fn fault_of(fault: SourceFault) -> ProcFault
    ensures { result ≡ named_fault fault }
{
    match fault {
        SourceFault::BadByte { place } => ProcFault::BadByte { place },
        SourceFault::BigLiteral { place } => ProcFault::BigLiteral { place },
        SourceFault::Unexpected { place } => ProcFault::Unexpected { place },
        SourceFault::TooDeep { place } => ProcFault::TooDeep { place },
        SourceFault::NoMemory => ProcFault::NoMemory,
    }
}
