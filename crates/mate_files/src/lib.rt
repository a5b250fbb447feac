//! Files that are read and sinks that are written, as traits, of the operating system and in memory, and a pen that prints text
//! into a sink.
#![tactic(auto)]

mod files;
mod mem_files;
mod mem_sink;
mod os_files;
mod os_sink;
mod pen;
mod sink;

pub use files::{FILE_MAX, Files, FilesFault};
pub use mem_files::MemFiles;
pub use mem_sink::MemSink;
pub use os_files::OsFiles;
pub use os_sink::OsSink;
pub use pen::Pen;
pub use sink::{Sink, SinkFault};
