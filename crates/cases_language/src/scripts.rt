//! Sources as scripts, without a machine.

use cases_files::marked_bytes;
use mate_files::{FILE_MAX, MemSink};
use std::alloc::{AllocError, Global};
use ts_parser::{SourceFault, parse, tokens};
use ts_syntax::print;
use ts_trees::Script;

/// That a source is a script, or its first fault.
pub fn answer(alloc: Global, case: &str) -> Result<String, AllocError> {
    let bytes = marked_bytes(alloc, case)?;
    match script(alloc, bytes.as_slice()) {
        Ok(_) => "script".to_string(alloc),
        Err(SourceFault::Unexpected { place }) => format!(in alloc; "unexpected {place}"),
        Err(SourceFault::TooDeep { place }) => format!(in alloc; "deep {place}"),
        Err(_) => "another fault".to_string(alloc),
    }
}

/// The script, if the source has at most 1,048,576 bytes; for longer ones, that the byte after these is wrong.
fn script(alloc: Global, bytes: &[u8]) -> Result<Script, SourceFault> {
    if bytes.len() > FILE_MAX {
        return Err(SourceFault::BadByte {
            place: FILE_MAX as u32,
        });
    }
    let tokens = tokens(alloc, bytes)?;
    parse(alloc, &tokens, bytes.len() as u32)
}

/// What a sink holds of a case `CALL | SOURCE` after the source is printed into it, and how that ended. Its call of
/// that number fails, or none if it is 0.
pub fn printed(alloc: Global, case: &str) -> Result<String, AllocError> {
    let Some((call, source)) = case.split_once(" | ") else {
        return "not two parts".to_string(alloc);
    };
    let Ok(script) = script(alloc, marked_bytes(alloc, source)?.as_slice()) else {
        return "no script".to_string(alloc);
    };
    printed_into(alloc, &script, call.parse::<u64>().unwrap_or(0))
}

fn printed_into(alloc: Global, script: &Script, failing: u64) -> Result<String, AllocError> {
    let mut out = MemSink::new(alloc);
    let _ = out.fail_at(failing);
    let outcome = print(script, &mut out);
    let text = str::from_utf8(out.bytes()).unwrap_or("no text");
    format!(in alloc; "{text:?} {outcome:?}")
}
