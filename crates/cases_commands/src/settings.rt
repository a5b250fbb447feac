//! The commands of `mate` over files and sinks in memory, as their cases run them.

use mate_cli::mate;
use mate_files::{MemFiles, MemSink};
use std::alloc::{AllocError, Global};

/// The files and the sinks that a case is run on.
#[derive(Drop)]
pub struct Setting {
    pub files: MemFiles,
    pub out: MemSink,
    pub err: MemSink,
}

impl Setting {
    /// No file, and nothing written.
    pub fn new(alloc: Global) -> Setting {
        Setting {
            files: MemFiles::new(alloc),
            out: MemSink::new(alloc),
            err: MemSink::new(alloc),
        }
    }
}

/// How a command ends.
#[derive(Drop)]
pub struct Ended {
    pub status: u8,
    /// What standard output has.
    pub written: String,
    /// What standard error has.
    pub told: String,
}

/// Runs the words of a line in a setting.
pub fn run(alloc: Global, setting: &mut Setting, words: &str) -> Result<Ended, AllocError> {
    let words = words_of(alloc, words)?;
    let Setting { files, out, err } = setting;
    let status = mate(alloc, &words, files, out, err).code();
    let (Ok(written), Ok(told)) = (str::from_utf8(out.bytes()), str::from_utf8(err.bytes())) else {
        return unread(alloc);
    };
    Ok(Ended {
        status,
        written: written.to_string(alloc)?,
        told: told.to_string(alloc)?,
    })
}

/// The answer for a case that can't be read, or whose output is no text.
pub fn unread(alloc: Global) -> Result<Ended, AllocError> {
    Ok(Ended {
        status: 255,
        written: String::new(alloc),
        told: "no case\n".to_string(alloc)?,
    })
}

/// The words of a line, with single spaces between them; an empty line has none.
fn words_of(alloc: Global, line: &str) -> Result<Vec<String>, AllocError> {
    let mut words = Vec::new(alloc);
    if line.is_empty() {
        return Ok(words);
    }
    for word in line.split(' ') {
        if words.push(word.to_string(alloc)?).is_err() {
            return Err(AllocError);
        }
    }
    Ok(words)
}
