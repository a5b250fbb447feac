//! Runs of sources by their meaning, all with one message and the same answers.

use crate::sources::accepted;
use cases_files::{fault_word, zero_store};
use mate_num::{End, Payload};
use std::alloc::{AllocError, Global};
use ts_checked::Checked;
use ts_meaning::play;
use vm_shape::Description;

/// What the message holds.
const MESSAGE: [i16; 3] = [3, -1, 500];

/// The answers of the calls, in their order.
const ANSWERS: [i16; 5] = [7, -2, 0, 32_767, 1];

/// How a source's run ends on the store of zeros, and the last store: the shared variables and the buffers.
pub fn answer(alloc: Global, machine: &Description, source: &str) -> Result<String, AllocError> {
    match accepted(alloc, machine, source)? {
        Ok(script) => played(alloc, machine, &script),
        Err(refusal) => Ok(refusal),
    }
}

fn played(alloc: Global, machine: &Description, script: &Checked) -> Result<String, AllocError> {
    let Ok(message) = Payload::try_from(MESSAGE.as_slice()) else {
        return "a long message".to_string(alloc);
    };
    let before = zero_store(machine.shared.len() as u8, machine.buffers.len() as u8);
    let Ok(played) = play(alloc, script, &before, &message, &ANSWERS, machine.turns) else {
        return "no memory".to_string(alloc);
    };
    let end = end_words(alloc, &played.end)?;
    let shared = played.store.shared.as_slice();
    let buffers = played.store.buffers.as_slice();
    format!(in alloc; "{end} {shared:?} {buffers:?}")
}

/// How a run ends.
fn end_words(alloc: Global, end: &End) -> Result<String, AllocError> {
    match end {
        End::Halt => "halt".to_string(alloc),
        End::Fault(kind) => fault_word(*kind).to_string(alloc),
        End::Wants { fun, args } => format!(in alloc; "wants {} {:?}", fun.0, args.as_slice()),
    }
}
