//! A sink in memory.

use crate::{Sink, SinkFault};
use std::alloc::Global;

/// A sink in memory, some of whose writes can be made to fail.
///
/// It holds the bytes that were written, the numbers of the calls of `put` that are to fail, the
/// number of calls that were made, and the number of those that failed. A call with no bytes isn't
/// counted. Both counts stay at `u64::MAX` once they are there.
#[derive(Drop)]
pub struct MemSink {
    bytes: Vec<u8>,
    failing: Vec<u64>,
    calls: u64,
    faults: u64,
}

impl MemSink {
    ghost use Rattle.std.specs.Prelude.{◌≡◌, ◌++◌, ◌∷◌, [], IsOkUnless, OnOk, OnErr};
    ghost use Rattle.mate_files.specs.MemSink.{bytes_of, failing_of, calls_of, write_faults};

    /// No byte and no failing call.
    pub fn new(alloc: Global) -> MemSink
        ensures bytes { bytes_of result ≡ [] }
        ensures failing { failing_of result ≡ [] }
        ensures calls { calls_of result ≡ 0 }
        ensures faults { write_faults result ≡ 0 }
    {
        MemSink {
            bytes: Vec::new(alloc),
            failing: Vec::new(alloc),
            calls: 0,
            faults: 0,
        }
    }

    /// Lists a call of `put` that is to fail. The first call has the number 1.
    ///
    /// `NoMemory` is the only refusal, and leaves all as it was.
    pub fn fail_at(&mut self, call: u64) -> Result<(), SinkFault>
        ensures refusal { IsOkUnless result SinkFault.NoMemory }
        ensures ok { OnOk result (failing_of self.new ≡ failing_of self.old ++ call ∷ []) }
        ensures err { OnErr result (failing_of self.new ≡ failing_of self.old) }
        ensures bytes { bytes_of self.new ≡ bytes_of self.old }
        ensures calls { calls_of self.new ≡ calls_of self.old }
        ensures faults { write_faults self.new ≡ write_faults self.old }
    {
        match self.failing.push(call) {
            Ok(()) => Ok(()),
            Err(_) => Err(SinkFault::NoMemory),
        }
    }

    /// What was written.
    pub fn bytes(&self) -> &[u8]
        ensures { result.now ≡ bytes_of self.now }
    {
        self.bytes.as_slice()
    }
}

impl Sink for MemSink {
    ghost use Rattle.std.specs.Prelude.{◌≡◌, ◌↔◌, ◌≤◌, IsErrOf, OnErr};
    ghost use Rattle.mate_files.specs.Sink.{Writes, StopsShort, HasCause, faults_after};
    ghost use Rattle.mate_files.specs.MemSink.{bytes_of, sink_told, failing_of, calls_of, writes_made, write_faults, IsToFail};

    ghost written = { sink_told };

    ghost faults = { write_faults };

    /// Appends `bytes`, or nothing if it is refused.
    ///
    /// `Failed` comes exactly at a listed call. A call with no bytes has no number, and is never refused.
    fn put(&mut self, bytes: &[u8]) -> Result<(), SinkFault>
        // What every `Sink` promises.
        ensures writes { Writes (sink_told self.old) (sink_told self.new) result bytes.now }
        ensures short { StopsShort (sink_told self.old) (sink_told self.new) result bytes.now }
        ensures cause { HasCause (write_faults self.old) (write_faults self.new) result }
        ensures later { write_faults self.old ≤ write_faults self.new }

        // What this does beyond that.
        ensures failed { IsErrOf result SinkFault.Failed ↔ IsToFail self.old bytes.now }
        ensures err { OnErr result (bytes_of self.new ≡ bytes_of self.old) }
        ensures failing { failing_of self.new ≡ failing_of self.old }
        ensures calls { calls_of self.new ≡ writes_made (calls_of self.old) bytes.now }
        ensures faults { write_faults self.new ≡ faults_after (write_faults self.old) result }
    {
        if bytes.is_empty() {
            return Ok(());
        }
        self.calls = self.calls.saturating_add(1);
        if self.failing.contains(&self.calls) {
            self.faults = self.faults.saturating_add(1);
            return Err(SinkFault::Failed);
        }
        match self.bytes.extend_from_slice(bytes) {
            Ok(()) => Ok(()),
            Err(_) => Err(SinkFault::NoMemory),
        }
    }
}
