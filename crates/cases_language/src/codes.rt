//! The code of sources, and what they fold to.

use crate::sources::accepted;
use crate::tree_texts::block_text;
use mate_code::Table;
use std::alloc::{AllocError, Global};
use ts_compiler::{CompileFault, compile};
use ts_fold::fold;
use vm_shape::Description;

/// The code of a source in hexadecimal digits, or why it has none.
pub fn answer(alloc: Global, machine: &Description, source: &str) -> Result<String, AllocError> {
    let script = match accepted(alloc, machine, source)? {
        Ok(script) => script,
        Err(refusal) => return Ok(refusal),
    };
    match compile(&Table::of(script.shape()), &script) {
        Ok(code) => hex::encode(alloc, code.as_slice()),
        Err(CompileFault::StackDepth { need }) => format!(in alloc; "depth {need}"),
        Err(CompileFault::TooLong { size }) => format!(in alloc; "size {size}"),
    }
}

/// The folded tree of a source.
pub fn folded(alloc: Global, machine: &Description, source: &str) -> Result<String, AllocError> {
    let script = match accepted(alloc, machine, source)? {
        Ok(script) => script,
        Err(refusal) => return Ok(refusal),
    };
    match fold(alloc, &script) {
        Ok(folded) => block_text(alloc, folded.body()),
        Err(_) => "no memory".to_string(alloc),
    }
}
