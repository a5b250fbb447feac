//! Sources and what they are for a machine.

use crate::tree_texts::block_text;
use cases_files::marked_bytes;
use command_steps::{SourceRefusal, accept};
use mate_files::FILE_MAX;
use std::alloc::{AllocError, Global};
use ts_checked::Checked;
use ts_checker::CheckFault;
use ts_parser::SourceFault;
use vm_shape::Description;

/// The checked tree of a source, or its first refusal.
pub fn tree(alloc: Global, machine: &Description, source: &str) -> Result<String, AllocError> {
    match accepted(alloc, machine, source)? {
        Ok(script) => block_text(alloc, script.body()),
        Err(refusal) => Ok(refusal),
    }
}

/// The checked script of a source, or the text of its first refusal.
pub fn accepted(
    alloc: Global,
    machine: &Description,
    source: &str,
) -> Result<Result<Checked, String>, AllocError> {
    let bytes = marked_bytes(alloc, source)?;
    if bytes.len() > FILE_MAX {
        return Ok(Err("too long".to_string(alloc)?));
    }
    match accept(alloc, machine, bytes.as_slice()) {
        Ok(script) => Ok(Ok(script)),
        Err(refusal) => Ok(Err(words_of(alloc, refusal)?)),
    }
}

fn words_of(alloc: Global, refusal: SourceRefusal) -> Result<String, AllocError> {
    match refusal {
        SourceRefusal::Meaning(fault) => meaning_words(alloc, &fault),
        SourceRefusal::Spelling(fault) => spelling_words(alloc, fault),
    }
}

fn spelling_words(alloc: Global, fault: SourceFault) -> Result<String, AllocError> {
    match fault {
        SourceFault::BadByte { place } => format!(in alloc; "BadByte {{ place: {place} }}"),
        SourceFault::BigLiteral { place } => format!(in alloc; "BigLiteral {{ place: {place} }}"),
        SourceFault::Unexpected { place } => format!(in alloc; "Unexpected {{ place: {place} }}"),
        SourceFault::TooDeep { place } => format!(in alloc; "TooDeep {{ place: {place} }}"),
        SourceFault::NoMemory => "NoMemory".to_string(alloc),
    }
}

fn meaning_words(alloc: Global, fault: &CheckFault) -> Result<String, AllocError> {
    match fault {
        CheckFault::Undeclared { name, place } => format!(in alloc; "undeclared {name} {place}"),
        CheckFault::NotInVm { name } => format!(in alloc; "notinvm {name}"),
        CheckFault::Twice { name } => format!(in alloc; "twice {name}"),
        CheckFault::Kind { place } => format!(in alloc; "kind {place}"),
        CheckFault::Arity { place } => format!(in alloc; "arity {place}"),
        CheckFault::TooManyPrivates => "privates".to_string(alloc),
        CheckFault::NoMemory => "no memory".to_string(alloc),
    }
}
