//! Files that are read and sinks that are written: in memory, of the operating system, or your own.

use mate_files::{Files, FilesFault, MemFiles, MemSink, OsFiles, OsSink, Sink, SinkFault};
use std::alloc::Global;
use std::io::Write;

/// Copies a file into a sink, whatever both are: through the bounds alone.
pub fn copied<F: Files, S: Sink>(files: &mut F, name: &str, out: &mut S) -> Result<(), FilesFault> {
    let bytes: Vec<u8> = files.read(name)?;
    match out.put(bytes.as_slice()) {
        Ok(()) => Ok(()),
        Err(SinkFault::Failed) => Err(FilesFault::Failed),
        Err(SinkFault::NoMemory) => Err(FilesFault::NoMemory),
    }
}

/// How many bytes a file has, also one that is too long.
pub fn length_of<F: Files>(files: &mut F, name: &str) -> Option<u64> {
    match files.read(name) {
        Ok(bytes) => Some(bytes.len() as u64),
        Err(FilesFault::TooLarge { len }) => Some(len),
        Err(FilesFault::Failed | FilesFault::NoMemory) => None,
    }
}

/// Files and a sink in memory, whose second calls fail.
pub fn in_memory(alloc: Global, name: &str, bytes: &[u8]) -> Result<usize, FilesFault> {
    let mut files = MemFiles::new(alloc);
    files.add(name, bytes)?;
    files.fail_at(2)?;
    let mut sink = MemSink::new(alloc);
    if sink.fail_at(2).is_err() {
        return Err(FilesFault::NoMemory);
    }
    copied(&mut files, name, &mut sink)?;
    Ok(sink.bytes().len())
}

/// A file of the operating system goes to a writer.
pub fn of_the_system<R: std::rt::Files, W: Write + Drop>(
    alloc: Global,
    runtime: &R,
    name: &str,
    writer: W,
) -> Result<(), FilesFault> {
    let mut files = OsFiles::new(alloc, runtime);
    let mut sink = OsSink::new(writer);
    copied(&mut files, name, &mut sink)
}
