//! The programs of what a script names, whichever script it is.

ghost use Rattle.std.specs.Prelude.{◌≡◌, ◌≤◌, length, false, true, IfOk};
ghost use Rattle.mate_files.specs.declared.files.TheConstants.{FILE_MAX};
ghost use Rattle.command_steps.specs.Parts.{ReadsFiles};
ghost use Rattle.node_programs.specs.Right.{AreRightPrograms};
ghost use Rattle.command_programs.specs.Named.{is_of_world, begins_world, programs_by, programs_named};
ghost use Rattle.script_steps.specs.Lines.{split_words};

use crate::injected::programs_of_world;
use crate::world_file::world_in;
use crate::{programs_of, script_in};
use command_refusals::Refusal;
use command_steps::read_file;
use mate_files::Files;
use mate_journal::StoredPrograms;
use script_steps::{Lines, Words};
use std::alloc::Global;
use vm_shape::Description;

/// The programs of what the script in a file names, in the order of its lines; or the first refusal, of the script and then of the
/// files that it names. It is
/// read as a world's script if its first command is `nodes`, and else as a node's.
pub fn programs_named<F: Files>(
    alloc: Global,
    files: &mut F,
    desc: &Description,
    fold: bool,
    name: &str,
) -> Result<StoredPrograms, Refusal>
    ensures does { programs_named (record { told = F.contents files.old; steady = F.steady files.old }) desc.now fold name.now result }
    ensures reads { ReadsFiles (F.contents files.old) (F.steady files.old) (F.faults files.old) (F.contents files.new)
        (F.steady files.new) (F.faults files.new) result }
    ensures right { IfOk result (AreRightPrograms desc.now) }
{
    let bytes = read_file(alloc, files, name)?;
    if is_of_world(bytes.as_slice()) {
        programs_in_world(alloc, files, desc, fold, bytes.as_slice())
    } else {
        programs_in_script(alloc, files, desc, fold, bytes.as_slice())
    }
}

/// Those of the world's script in these bytes.
#[inline(never)]
fn programs_in_world<F: Files>(
    alloc: Global,
    files: &mut F,
    desc: &Description,
    fold: bool,
    bytes: &[u8],
) -> Result<StoredPrograms, Refusal>
    requires { length bytes.now ≤ FILE_MAX }
    ensures does { programs_by true (record { told = F.contents files.old; steady = F.steady files.old }) desc.now fold bytes.now result }
    ensures reads { ReadsFiles (F.contents files.old) (F.steady files.old) (F.faults files.old) (F.contents files.new)
        (F.steady files.new) (F.faults files.new) result }
    ensures right { IfOk result (AreRightPrograms desc.now) }
{
    let world = world_in(alloc, desc, bytes)?;
    programs_of_world(alloc, files, desc, fold, &world)
}

/// Those of the node script in these bytes.
#[inline(never)]
fn programs_in_script<F: Files>(
    alloc: Global,
    files: &mut F,
    desc: &Description,
    fold: bool,
    bytes: &[u8],
) -> Result<StoredPrograms, Refusal>
    requires { length bytes.now ≤ FILE_MAX }
    ensures does { programs_by false (record { told = F.contents files.old; steady = F.steady files.old }) desc.now fold bytes.now result }
    ensures reads { ReadsFiles (F.contents files.old) (F.steady files.old) (F.faults files.old) (F.contents files.new)
        (F.steady files.new) (F.faults files.new) result }
    ensures right { IfOk result (AreRightPrograms desc.now) }
{
    let script = script_in(alloc, desc, bytes)?;
    programs_of(alloc, files, desc, fold, &script)
}

/// Whether the script in these bytes is a world's: its first command is `nodes`.
fn is_of_world(bytes: &[u8]) -> bool
    ensures { result ≡ is_of_world bytes.now }
{
    let mut lines = Lines::of(bytes);
    while let Some(line) = lines.next() {
        let words = Words::of(line);
        if !words.is_skipped() {
            return begins_world(words);
        }
    }
    false
}

/// Whether the first of these words is `nodes`.
fn begins_world(mut words: Words<'_>) -> bool
    ensures { result ≡ begins_world (split_words words.entry) }
{
    match words.word() {
        Ok(word) => word == "nodes",
        Err(_) => false,
    }
}
