//! What the faults of files and of sinks say of themselves, each taken as any error is.

use mate_files::{FilesFault, SinkFault};
use std::alloc::{AllocError, Global};
use std::error::Error;

pub fn answer(alloc: Global, case: &str) -> Result<String, AllocError> {
    match case {
        "files failed" => told(alloc, &FilesFault::Failed),
        "files too large 1048577" => told(alloc, &FilesFault::TooLarge { len: 1_048_577 }),
        "files no memory" => told(alloc, &FilesFault::NoMemory),
        "sink failed" => told(alloc, &SinkFault::Failed),
        "sink no memory" => told(alloc, &SinkFault::NoMemory),
        _ => "no fault".to_string(alloc),
    }
}

fn told<E: Error>(alloc: Global, fault: &E) -> Result<String, AllocError> {
    format!(in alloc; "{fault}")
}
