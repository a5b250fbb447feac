//! A sink in memory that runs out of memory at one write and at each later one.

ghost use Rattle.mate_files.specs.MemSink.{sink_told, write_faults};

use mate_files::{MemSink, Sink, SinkFault};
use std::alloc::Global;

/// A sink in memory that takes `left` more writes and none after them. A write of no bytes isn't counted.
#[derive(Drop)]
pub(crate) struct ScarceSink {
    sink: MemSink,
    // how many further writes it takes
    left: u64,
}

impl ScarceSink {
    /// A sink with no bytes, which takes `writes` writes.
    pub(crate) fn new(alloc: Global, writes: u64) -> ScarceSink {
        ScarceSink {
            sink: MemSink::new(alloc),
            left: writes,
        }
    }

    /// What was written.
    pub(crate) fn bytes(&self) -> &[u8] {
        self.sink.bytes()
    }
}

impl Sink for ScarceSink {
    ghost written = { λ s. sink_told s.sink };

    ghost faults = { λ s. write_faults s.sink };

    fn put(&mut self, bytes: &[u8]) -> Result<(), SinkFault> {
        if bytes.is_empty() {
            return Ok(());
        }
        if self.left == 0 {
            return Err(SinkFault::NoMemory);
        }
        self.left -= 1;
        self.sink.put(bytes)
    }
}
