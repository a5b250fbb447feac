//! Files outside the program.
ghost use Rattle.std.specs.Prelude.{◌≡◌, ◌≤◌, ◌<◌, ◌+◌, ◌++◌, ◌⊎◌, ℕ, List, IfOk, IfErr, length};
ghost use Rattle.std.specs.Io.KnownBytes.{Consumes, IsAtEnd};

use super::files::{FILE_MAX, Files, FilesFault};
use std::alloc::Global;
use std::io::Read;
use std::{fs, rt};

// How many bytes the first read of a file takes, and how many a read takes at most.
const FIRST_READ: usize = 4_096;

const LONGEST_READ: usize = 65_536;

/// The files of the folder that the program runs in, read through the runtime `R`.
///
/// The count of faults stays at `u64::MAX` once it is there.
#[derive(Drop)]
pub struct OsFiles<'a, R> {
    alloc: Global,
    runtime: &'a R,
    faults: u64,
    // What reads fill. It stays from one file to the next, so that a file takes memory for no more than its own bytes.
    room: Vec<u8>,
}

impl<'a, R: rt::Files> OsFiles<'a, R> {
    ghost use Rattle.mate_files.specs.OsFiles.{faults_of};

    /// The files that `runtime` reaches, with no fault.
    pub fn new(alloc: Global, runtime: &'a R) -> OsFiles<'a, R>
        ensures { faults_of result ≡ 0 }
    {
        OsFiles {
            alloc,
            runtime,
            faults: 0,
            room: Vec::new(alloc),
        }
    }
}

impl<R: rt::Files> Files for OsFiles<'_, R> {
    ghost use Rattle.std.specs.Prelude.{None, false, IsErrOf};
    ghost use Rattle.std.proofs.Common.{rules};
    ghost use Rattle.mate_files.specs.Files.{ReadGives, faults_after};
    ghost use Rattle.mate_files.specs.OsFiles.{faults_of};

    ghost contents = { λ _. None };

    ghost faults = { faults_of };

    ghost steady = { λ _. false };

    /// Reads the bytes of the file at `name`, a path from the current folder.
    ///
    /// `Failed` comes if the file can't be opened or a read of it fails. A file that has more than `FILE_MAX` bytes
    /// is read no further than one byte past them: `TooLarge` then gives that number. Both are counted.
    fn read(&mut self, name: &str) -> Result<Vec<u8>, FilesFault>
        // What every `Files` promises.
        ensures gives { ReadGives None false name.now (faults_of self.old) (faults_of self.new) result }
        ensures later { faults_of self.old ≤ faults_of self.new }

        // What these do beyond that.
        ensures faults { faults_of self.new ≡ faults_after (faults_of self.old) result }
        ensures too_large { (len : ℕ) → IsErrOf result (FilesFault.TooLarge len) → len ≡ FILE_MAX + 1 }
    {
        let outcome = read_file(self.alloc, self.runtime, &mut self.room, name);
        if let Err(FilesFault::Failed | FilesFault::TooLarge { .. }) = outcome {
            self.faults = self.faults.saturating_add(1);
        }
        outcome
    }

    ghost steady_told = { Prim.search rules };
}

// The bytes of the file at `name`, by way of `room`.
fn read_file<R: rt::Files>(
    alloc: Global,
    runtime: &R,
    room: &mut Vec<u8>,
    name: &str,
) -> Result<Vec<u8>, FilesFault>
    ensures short { IfOk result (λ bytes. length bytes.items ≤ FILE_MAX) }
    ensures too_large { IfErr result (λ fault. (len : ℕ) → fault ≡ FilesFault.TooLarge len → len ≡ FILE_MAX + 1) }
{
    let Ok(mut file) = fs::open(runtime, name) else {
        return Err(FilesFault::Failed);
    };
    let bytes = read_front(alloc, room, &mut file)?;
    if bytes.len() > FILE_MAX {
        let len = bytes.len() as u64;
        return Err(FilesFault::TooLarge { len });
    }
    Ok(bytes)
}

// The bytes that `file` has left, up to one past the first `FILE_MAX`, by way of `room`.
fn read_front<F: Read>(
    alloc: Global,
    room: &mut Vec<u8>,
    file: &mut F,
) -> Result<Vec<u8>, FilesFault>
    ensures short { IfOk result (λ bytes. length bytes.items ≤ FILE_MAX + 1) }
    ensures bytes { IfOk result (λ bytes. Consumes (F.remaining file.old) (F.remaining file.new) bytes.items) }
    ensures all { IfOk result (λ bytes. length bytes.items ≤ FILE_MAX → IsAtEnd (F.remaining file.new)) }
    ensures refusal { IfErr result (λ fault. (fault ≡ FilesFault.Failed) ⊎ (fault ≡ FilesFault.NoMemory)) }
{
    let mut bytes = Vec::new(alloc);
    while bytes.len() <= FILE_MAX {
        let most = next_read(bytes.len());
        if read_more(file, room, &mut bytes, most)? == 0 {
            break;
        }
    }
    Ok(bytes)
}

// How many bytes the next read takes at most, after `held` were read: about as many again, so that a long file takes
// few reads and a short one little memory.
fn next_read(held: usize) -> usize
    requires { held ≤ FILE_MAX }
    ensures some { 0 < result }
    ensures few { held + result ≤ FILE_MAX + 1 }
{
    held.clamp(FIRST_READ, LONGEST_READ)
        .min(FILE_MAX + 1 - held)
}

// Reads up to `most` bytes, in one read into `room`, and appends them to `bytes`; it returns 0 only at the end of `file`.
fn read_more<F: Read>(
    file: &mut F,
    room: &mut Vec<u8>,
    bytes: &mut Vec<u8>,
    most: usize,
) -> Result<usize, FilesFault>
    requires some { 0 < most }
    requires few { length bytes.old.items + most ≤ FILE_MAX + 1 }
    ensures appends { IfOk result (λ count. (more : List ℕ) × (bytes.new.items ≡ bytes.old.items ++ more) × (length more ≡ count)
        × (count ≤ most)
        × Consumes (F.remaining file.old) (F.remaining file.new) more) }
    ensures end { IfOk result (λ count. count ≡ 0 → IsAtEnd (F.remaining file.new)) }
    ensures refusal { IfErr result (λ fault. (fault ≡ FilesFault.Failed) ⊎ (fault ≡ FilesFault.NoMemory)) }
{
    if room.resize(most, 0).is_err() {
        return Err(FilesFault::NoMemory);
    }
    let Ok(count) = file.read(room.as_mut_slice()) else {
        return Err(FilesFault::Failed);
    };
    match bytes.extend_from_slice(&room[..count]) {
        Ok(()) => Ok(count),
        Err(_) => Err(FilesFault::NoMemory),
    }
}
