//! Sources as scripts with procedures.

use cases_files::marked_bytes;
use mate_files::FILE_MAX;
use std::alloc::{AllocError, Global};
use ts_parser::{SourceFault, parse_procedures, tokens_in};
use ts_trees::{Dialect, ProcScript};

/// That a source is a script with procedures, or its first fault.
pub fn answer(alloc: Global, case: &str) -> Result<String, AllocError> {
    let bytes = marked_bytes(alloc, case)?;
    match script(alloc, bytes.as_slice()) {
        Ok(_) => "accepted".to_string(alloc),
        Err(SourceFault::BadByte { place }) => format!(in alloc; "byte {place}"),
        Err(SourceFault::BigLiteral { place }) => format!(in alloc; "literal {place}"),
        Err(SourceFault::Unexpected { place }) => format!(in alloc; "unexpected {place}"),
        Err(SourceFault::TooDeep { place }) => format!(in alloc; "deep {place}"),
        Err(SourceFault::NoMemory) => "no memory".to_string(alloc),
    }
}

/// The script, if the source has at most 1,048,576 bytes; for longer ones, that the byte after these is wrong.
fn script(alloc: Global, bytes: &[u8]) -> Result<ProcScript, SourceFault> {
    if bytes.len() > FILE_MAX {
        return Err(SourceFault::BadByte {
            place: FILE_MAX as u32,
        });
    }
    let tokens = tokens_in(alloc, Dialect::Procedures, bytes)?;
    parse_procedures(alloc, &tokens, bytes.len() as u32)
}
