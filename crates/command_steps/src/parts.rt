//! The parts that commands share: a file's bytes, and the machine that a word names.

ghost use Rattle.std.specs.Prelude.{◌≡◌};
ghost use Rattle.command_steps.specs.Parts.{ReadsFiles, file, machine, machine_text, machine_file};

use command_refusals::{Cause, DescriptionCause, Refusal, Unread, in_file};
use mate_files::{Files, FilesFault};
use std::alloc::Global;
use vm_shape::{Description, builtin};

/// The bytes of a file.
pub fn read_file<F: Files>(alloc: Global, files: &mut F, name: &str) -> Result<Vec<u8>, Refusal>
    ensures does { file (record { told = F.contents files.old; steady = F.steady files.old }) name.now result }
    ensures reads { ReadsFiles (F.contents files.old) (F.steady files.old) (F.faults files.old) (F.contents files.new)
        (F.steady files.new) (F.faults files.new) result }
{
    match files.read(name) {
        Ok(bytes) => Ok(bytes),
        Err(FilesFault::Failed) => Err(in_file(alloc, name, Cause::Unread(Unread::Failed))),
        Err(FilesFault::TooLarge { .. }) => Err(in_file(alloc, name, Cause::Unread(Unread::Large))),
        Err(FilesFault::NoMemory) => Err(Refusal::NoMemory),
    }
}

/// The machine of a word: the built-in one, or that of a description's file.
pub fn machine_of<F: Files>(
    alloc: Global,
    files: &mut F,
    word: &str,
) -> Result<Description, Refusal>
    ensures does { machine (record { told = F.contents files.old; steady = F.steady files.old }) word.now result }
    ensures reads { ReadsFiles (F.contents files.old) (F.steady files.old) (F.faults files.old) (F.contents files.new)
        (F.steady files.new) (F.faults files.new) result }
{
    if word == "builtin" {
        Ok(builtin())
    } else {
        machine_file(alloc, files, word)
    }
}

/// The machine that a file describes.
#[inline(never)]
fn machine_file<F: Files>(alloc: Global, files: &mut F, name: &str) -> Result<Description, Refusal>
    ensures does { machine_file (record { told = F.contents files.old; steady = F.steady files.old }) name.now result }
    ensures reads { ReadsFiles (F.contents files.old) (F.steady files.old) (F.faults files.old) (F.contents files.new)
        (F.steady files.new) (F.faults files.new) result }
{
    let bytes = read_file(alloc, files, name)?;
    machine_text(alloc, bytes.as_slice())
}

/// The machine that a text describes.
#[inline(never)]
fn machine_text(alloc: Global, bytes: &[u8]) -> Result<Description, Refusal>
    ensures { machine_text bytes.now result }
{
    match vm_desc::read(alloc, bytes) {
        Ok(desc) => Ok(desc),
        Err(fault) => match DescriptionCause::of(fault) {
            Some(cause) => Err(Refusal::BadDescription(cause)),
            None => Err(Refusal::NoMemory),
        },
    }
}
