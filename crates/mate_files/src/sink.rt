//! A sink, which takes bytes at its end.
ghost use Rattle.std.specs.Prelude.{◌≡◌, ℕ, ◌≤◌, List, Option};
ghost use Rattle.mate_files.specs.Sink.{Writes, StopsShort, HasCause};

use thiserror::Error;

/// Why a sink didn't take all of a piece. A prefix of the piece, shorter than it, was appended.
#[derive(Clone, Copy, Debug, Error)]
pub enum SinkFault {
    /// The sink could not be written.
    #[error("the sink can't be written")]
    Failed,
    /// No memory was left for the bytes.
    #[error("no memory is left")]
    NoMemory,
}

/// Bytes that are written one piece after another, and a count of the writes that failed.
///
/// The count stops at `u64::MAX`; a write that fails later is taken as counted.
pub trait Sink {
    // The bytes that were written, if the type can say them.
    ghost written: { Self → Option (List ℕ) };

    // How many writes failed. It never falls.
    ghost faults: { Self → ℕ };

    /// Appends exactly `bytes`, or a prefix of them that lacks at least the last one if it is refused.
    /// Empty `bytes` are never refused.
    ///
    /// `Failed` comes only if the count of faults rose in this call. Memory comes from the sink's
    /// own allocator.
    fn put(&mut self, bytes: &[u8]) -> Result<(), SinkFault>
        ensures writes { Writes (written self.old) (written self.new) result bytes.now }
        ensures short { StopsShort (written self.old) (written self.new) result bytes.now }
        ensures cause { HasCause (faults self.old) (faults self.new) result }
        ensures later { faults self.old ≤ faults self.new };
}
