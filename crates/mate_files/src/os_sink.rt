//! A sink outside the program.

use super::sink::{Sink, SinkFault};
use std::io::Write;

/// A sink that writes into `writer`, as standard output.
///
/// The count of faults stays at `u64::MAX` once it is there.
#[derive(Drop)]
pub struct OsSink<W> {
    writer: W,
    faults: u64,
}

impl<W: Write> OsSink<W> {
    ghost use Rattle.std.specs.Prelude.{◌≡◌};
    ghost use Rattle.mate_files.specs.OsSink.{writer_of, faults_of};

    /// A sink with no fault, which writes after what `writer` holds.
    pub fn new(writer: W) -> OsSink<W>
        ensures writer { writer_of result ≡ writer }
        ensures faults { faults_of result ≡ 0 }
    {
        OsSink { writer, faults: 0 }
    }

    /// The writer.
    pub fn into_inner(self) -> W
        ensures { result ≡ writer_of self }
    {
        let OsSink { writer, faults: _ } = self;
        writer
    }
}

impl<W: Write> Sink for OsSink<W> {
    ghost use Rattle.std.specs.Prelude.{◌≡◌, ◌≤◌, IsOkUnless};
    ghost use Rattle.mate_files.specs.Sink.{Writes, StopsShort, HasCause, faults_after};
    ghost use Rattle.mate_files.specs.OsSink.{writer_of, faults_of};

    ghost written = { λ sink. W.contents (writer_of sink) };

    ghost faults = { faults_of };

    /// Writes `bytes`, in as many calls of the writer's `write` as it takes.
    ///
    /// `Failed` is the only refusal. It comes if a `write` fails, or takes none of the bytes that are left, and is counted.
    fn put(&mut self, bytes: &[u8]) -> Result<(), SinkFault>
        // What every `Sink` promises.
        ensures writes { Writes (W.contents (writer_of self.old)) (W.contents (writer_of self.new)) result bytes.now }
        ensures short { StopsShort (W.contents (writer_of self.old)) (W.contents (writer_of self.new)) result bytes.now }
        ensures cause { HasCause (faults_of self.old) (faults_of self.new) result }
        ensures later { faults_of self.old ≤ faults_of self.new }

        // What this does beyond that.
        ensures refusal { IsOkUnless result SinkFault.Failed }
        ensures faults { faults_of self.new ≡ faults_after (faults_of self.old) result }
    {
        let mut rest = bytes;
        while !rest.is_empty() {
            let taken = self.writer.write(rest).unwrap_or(0);
            if taken == 0 {
                self.faults = self.faults.saturating_add(1);
                return Err(SinkFault::Failed);
            }
            rest = rest.split_at(taken).1;
        }
        Ok(())
    }
}
