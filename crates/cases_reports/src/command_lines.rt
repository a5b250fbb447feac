//! Command lines, split at single spaces, where `_` is the empty word: the flags, the command, and each word for
//! it, in brackets; or the fault.

use command_line::{CommandLine, WordsFault, read};
use std::alloc::{AllocError, Global};

pub fn answer(alloc: Global, case: &str) -> Result<String, AllocError> {
    let mut words = Vec::new(alloc);
    if !case.is_empty() {
        for word in case.split(' ') {
            let word = if word == "_" { "" } else { word };
            words.push(String::from_str(alloc, word)?)?;
        }
    }
    match read(alloc, words.as_slice()) {
        Ok(line) => told(alloc, &line),
        Err(WordsFault::NotTaken) => "NotTaken".to_string(alloc),
        Err(WordsFault::NoMemory) => "NoMemory".to_string(alloc),
    }
}

fn told(alloc: Global, line: &CommandLine<'_>) -> Result<String, AllocError> {
    let mut text = String::from_str(alloc, line.command)?;
    if line.brief {
        text.push_str(" brief")?;
    }
    if line.fold {
        text.push_str(" fold")?;
    }
    for word in line.args.as_slice() {
        text.push_str(" [")?;
        text.push_str(word)?;
        text.push_str("]")?;
    }
    Ok(text)
}
