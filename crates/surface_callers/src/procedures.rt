//! TinyScript with procedures: read, named and expanded to a plain script.

ghost use Rattle.std.specs.Prelude.{◌≤◌, length};
ghost use Rattle.mate_files.specs.declared.files.TheConstants.{FILE_MAX};

use std::alloc::Global;
use ts_procs::{PBlock, PScript, PStmt, Proc, ProcFault, Words, expand, read};
use ts_syntax::Script;

/// The expansion of a source.
pub fn expanded(alloc: Global, bytes: &[u8]) -> Result<Script, ProcFault>
    requires { length bytes.now ≤ FILE_MAX }
{
    let script: PScript = read(alloc, bytes)?;
    expand(alloc, &script)
}

/// How many parameters a procedure has, and how many statements.
pub fn size_of(procedure: &Proc) -> (usize, usize) {
    let params: &Words = &procedure.params;
    let body: &PBlock = &procedure.body;
    let calls = match body.get(0) {
        Some(PStmt::Run(_, args)) => args.len(),
        _ => 0,
    };
    (params.len().max(calls), body.len())
}

/// The place at which a source with procedures is refused, if the refusal names one.
pub fn place_of(fault: ProcFault) -> Option<u32> {
    match fault {
        ProcFault::BadByte { place }
        | ProcFault::BigLiteral { place }
        | ProcFault::Unexpected { place }
        | ProcFault::TooDeep { place }
        | ProcFault::Params { place }
        | ProcFault::Reserved { place } => Some(place),
        ProcFault::NoProc { name: _, place } | ProcFault::Again { name: _, place } => Some(place),
        ProcFault::TooLarge { count: _ } | ProcFault::TooNested { depth: _ } => None,
        ProcFault::NoMemory => None,
    }
}
