//! Files that can be read by their names.
ghost use Rattle.std.specs.Prelude.{◌≡◌, ℕ, ◌≤◌, Bool, Option, IsTrue, IsSome};
ghost use Rattle.mate_files.specs.Files.{Names, ReadGives};

use thiserror::Error;

/// The greatest length of a file that is read whole, in bytes: of a description, a source, a script, a report or a stream.
pub const FILE_MAX: usize = 1_048_576;

/// Why a file wasn't read.
#[derive(Clone, Copy, Debug, Error)]
pub enum FilesFault {
    /// The file could not be read, or there is none of that name.
    #[error("the file can't be read")]
    Failed,
    /// The file has more than `FILE_MAX` bytes. `len` is how many it has, as far as that is known.
    #[error("the file has {len} bytes, which are too many")]
    TooLarge { len: u64 },
    /// No memory was left for the bytes.
    #[error("no memory is left")]
    NoMemory,
}

/// Files with names, and a count of the reads that failed.
///
/// The count stops at `u64::MAX`; a read that fails later is taken as counted.
pub trait Files {
    // The bytes of each name, if the type can say them.
    ghost contents: { Self → Option Names };

    // How many reads failed, or met a file that is too large. It never falls.
    ghost faults: { Self → ℕ };

    // Whether a read fails only for a reason that `contents` shows.
    ghost steady: { Self → Bool };

    /// Reads the bytes of `name`, of which there are at most `FILE_MAX`.
    ///
    /// `Failed` and `TooLarge` come only if the count of faults rose in this call. If the files are steady, `Failed`
    /// comes exactly at a name that has no bytes, and `TooLarge` exactly at one that has too many, unless memory runs
    /// out. What the names hold stays as it is.
    fn read(&mut self, name: &str) -> Result<Vec<u8>, FilesFault>
        ensures gives { ReadGives (contents self.old) (steady self.old) name.now
            (faults self.old) (faults self.new) result }
        ensures same { contents self.new ≡ contents self.old }
        ensures steady { steady self.new ≡ steady self.old }
        ensures later { faults self.old ≤ faults self.new };

    // Steady files have contents that contracts can say.
    ghost steady_told: { (files : Self) → IsTrue (steady files) → IsSome (contents files) };
}
