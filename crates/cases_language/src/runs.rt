//! Runs of sources on a store of zeros.

use crate::sources::accepted;
use cases_files::{call_words, end_words, store_words, zero_store};
use mate_num::{Call, Outcome, Payload};
use std::alloc::{AllocError, Global};
use ts_checked::Checked;
use ts_meaning::play;
use vm_shape::{Description, shape};

/// How the run of a case `TURNS | MESSAGE | ANSWERS | SOURCE` ends, the store that it leaves, and the calls that were
/// answered. Numbers have a space between two, and `-` is none.
pub fn answer(alloc: Global, machine: &Description, case: &str) -> Result<String, AllocError> {
    let (turns, rest) = case.split_once(" | ").unwrap_or((case, ""));
    let (msg, rest) = rest.split_once(" | ").unwrap_or((rest, ""));
    let (answers, source) = rest.split_once(" | ").unwrap_or((rest, ""));
    let Ok(turns) = turns.parse::<u32>() else {
        return "no turns".to_string(alloc);
    };
    match accepted(alloc, machine, source)? {
        Ok(script) => run(alloc, machine, &script, msg, answers, turns),
        Err(refusal) => Ok(refusal),
    }
}

/// The run of a script with a message and answers.
fn run(
    alloc: Global,
    machine: &Description,
    script: &Checked,
    msg: &str,
    answers: &str,
    turns: u32,
) -> Result<String, AllocError> {
    let msg = numbers(alloc, msg)?;
    let Ok(msg) = Payload::try_from(msg.as_slice()) else {
        return "a long message".to_string(alloc);
    };
    let answers = numbers(alloc, answers)?;
    played(alloc, machine, script, &msg, answers.as_slice(), turns)
}

fn numbers(alloc: Global, text: &str) -> Result<Vec<i16>, AllocError> {
    let mut numbers = Vec::new(alloc);
    for word in text.split(" ") {
        if let Ok(number) = word.parse::<i16>() {
            numbers.push(number)?;
        }
    }
    Ok(numbers)
}

fn played(
    alloc: Global,
    machine: &Description,
    script: &Checked,
    msg: &Payload,
    answers: &[i16],
    turns: u32,
) -> Result<String, AllocError> {
    let shape = shape(machine);
    let store = zero_store(shape.shared, shape.buffers);
    match play(alloc, script, &store, msg, answers, turns) {
        Ok(played) => outcome_words(alloc, &played),
        Err(_) => "no memory".to_string(alloc),
    }
}

fn outcome_words(alloc: Global, outcome: &Outcome) -> Result<String, AllocError> {
    let end = end_words(alloc, &outcome.end)?;
    let store = store_words(alloc, &outcome.store)?;
    let calls = calls_words(alloc, outcome.calls.as_slice())?;
    format!(in alloc; "{end} {store} [{calls}]")
}

fn calls_words(alloc: Global, calls: &[Call]) -> Result<String, AllocError> {
    let mut words = String::new(alloc);
    for (place, call) in calls.iter().enumerate() {
        if place > 0 {
            words.push_str(", ")?;
        }
        words.push_str(call_words(alloc, call)?.as_str())?;
    }
    Ok(words)
}
