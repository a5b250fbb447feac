//! Files in memory.

use crate::{FILE_MAX, Files, FilesFault};
use std::alloc::Global;
use std::collections::BTreeMap;

/// Files in memory, some of whose reads can be made to fail.
///
/// It holds the bytes of each name, the numbers of the calls of `read` that are to fail, the number
/// of calls that were made, and the number of those that failed or met a file that is too large. Both counts
/// stay at `u64::MAX` once they are there.
#[derive(Drop)]
pub struct MemFiles {
    alloc: Global,
    names: BTreeMap<String, Vec<u8>>,
    failing: Vec<u64>,
    calls: u64,
    faults: u64,
}

impl MemFiles {
    ghost use Rattle.std.specs.Prelude.{◌≡◌, ◌++◌, ◌∷◌, [], ℕ, List, None, IsOkUnless, OnOk, OnErr};
    ghost use Rattle.mate_files.specs.MemFiles.{names_of, failing_of, calls_of, read_faults, SetsName, KeepsNames, KeepsCounts};

    /// No file and no failing call.
    pub fn new(alloc: Global) -> MemFiles
        ensures names { (name : List ℕ) → names_of result name ≡ None }
        ensures failing { failing_of result ≡ [] }
        ensures calls { calls_of result ≡ 0 }
        ensures faults { read_faults result ≡ 0 }
    {
        MemFiles {
            alloc,
            names: BTreeMap::new(alloc),
            failing: Vec::new(alloc),
            calls: 0,
            faults: 0,
        }
    }

    /// Sets the bytes of `name`, in place of those that it had.
    ///
    /// `NoMemory` is the only refusal, and leaves all as it was. A name may get more bytes than a
    /// read may give.
    pub fn add(&mut self, name: &str, bytes: &[u8]) -> Result<(), FilesFault>
        ensures refusal { IsOkUnless result FilesFault.NoMemory }
        ensures ok { OnOk result (SetsName (names_of self.old) (names_of self.new) name.now bytes.now) }
        ensures err { OnErr result (KeepsNames (names_of self.old) (names_of self.new)) }
        ensures counts { KeepsCounts self.old self.new }
    {
        let Ok(key) = String::from_str(self.alloc, name) else {
            return Err(FilesFault::NoMemory);
        };
        let Ok(value) = Vec::from_slice(self.alloc, bytes) else {
            return Err(FilesFault::NoMemory);
        };
        match self.names.insert(key, value) {
            Ok(_) => Ok(()),
            Err(_) => Err(FilesFault::NoMemory),
        }
    }

    /// Lists a call of `read` that is to fail. The first call has the number 1.
    ///
    /// `NoMemory` is the only refusal, and leaves all as it was.
    pub fn fail_at(&mut self, call: u64) -> Result<(), FilesFault>
        ensures refusal { IsOkUnless result FilesFault.NoMemory }
        ensures ok { OnOk result (failing_of self.new ≡ failing_of self.old ++ call ∷ []) }
        ensures err { OnErr result (failing_of self.new ≡ failing_of self.old) }
        ensures names { KeepsNames (names_of self.old) (names_of self.new) }
        ensures calls { calls_of self.new ≡ calls_of self.old }
        ensures faults { read_faults self.new ≡ read_faults self.old }
    {
        match self.failing.push(call) {
            Ok(()) => Ok(()),
            Err(_) => Err(FilesFault::NoMemory),
        }
    }
}

impl Files for MemFiles {
    ghost use Rattle.std.specs.Prelude.{◌≡◌, ◌↔◌, ◌⊎◌, ◌≤◌, ℕ, None, IsErrOf};
    ghost use Rattle.mate_files.specs.Counts.{one_more};
    ghost use Rattle.std.proofs.Common.{rules};
    ghost use Rattle.mate_files.specs.Files.{ReadGives, faults_after};
    ghost use Rattle.mate_files.specs.MemFiles.{names_of, files_told, failing_of, calls_of, read_faults, is_steady, IsListed, IsTooLong};

    ghost contents = { files_told };

    ghost faults = { read_faults };

    ghost steady = { is_steady };

    /// Reads the bytes of `name`.
    ///
    /// `Failed` comes exactly at a listed call or at an unknown name. At every other call `TooLarge`
    /// comes exactly at a name with more than `FILE_MAX` bytes.
    fn read(&mut self, name: &str) -> Result<Vec<u8>, FilesFault>
        // What every `Files` promises.
        ensures gives { ReadGives (files_told self.old) (is_steady self.old) name.now
            (read_faults self.old) (read_faults self.new) result }
        ensures same { files_told self.new ≡ files_told self.old }
        ensures steady { is_steady self.new ≡ is_steady self.old }
        ensures later { read_faults self.old ≤ read_faults self.new }

        // What these do beyond that.
        ensures failed { IsErrOf result FilesFault.Failed
            ↔ (IsListed self.old ⊎ (names_of self.old name.now ≡ None)) }
        ensures too_large { (len : ℕ) → IsErrOf result (FilesFault.TooLarge len)
            ↔ ((¬ IsListed self.old) × IsTooLong self.old name.now len) }
        ensures failing { failing_of self.new ≡ failing_of self.old }
        ensures calls { calls_of self.new ≡ one_more (calls_of self.old) }
        ensures faults { read_faults self.new ≡ faults_after (read_faults self.old) result }
    {
        self.calls = self.calls.saturating_add(1);
        if self.failing.contains(&self.calls) {
            self.faults = self.faults.saturating_add(1);
            return Err(FilesFault::Failed);
        }
        let Some(bytes) = self.names.get(name) else {
            self.faults = self.faults.saturating_add(1);
            return Err(FilesFault::Failed);
        };
        if bytes.len() > FILE_MAX {
            let len = bytes.len() as u64;
            self.faults = self.faults.saturating_add(1);
            return Err(FilesFault::TooLarge { len });
        }
        match Vec::from_slice(self.alloc, bytes) {
            Ok(copy) => Ok(copy),
            Err(_) => Err(FilesFault::NoMemory),
        }
    }

    ghost steady_told = { Prim.search rules };
}
