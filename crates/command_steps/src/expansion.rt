//! From the file of a source with procedures to the script that can be expanded.

ghost use Rattle.std.specs.Prelude.{◌≡◌, ◌≤◌, length};
ghost use Rattle.mate_files.specs.declared.files.TheConstants.{FILE_MAX};
ghost use Rattle.ts_proc_names.specs.Named.{written_of};
ghost use Rattle.command_steps.specs.Expansions.{RefusesExpansion, script_with_procedures, expanded_script, expanded_bytes, expanded_source, expansion_in};
ghost use Rattle.command_steps.specs.Parts.{ReadsFiles};

use crate::parts::read_file;
use command_refusals::{Cause, ExpansionCause, Refusal, in_file};
use mate_files::Files;
use std::alloc::Global;
use std::mem;
use ts_proc_expansion::within_limits;
use ts_proc_texts::{PScript, ProcFault, read};

/// The script with procedures that the source in a file spells, if its expansion is within the limits: that isn't built.
pub fn expandable_of<F: Files>(alloc: Global, files: &mut F, name: &str) -> Result<PScript, Refusal>
    ensures does { expanded_source (record { told = F.contents files.old; steady = F.steady files.old }) name.now
        (expansion_in result) }
    ensures reads { ReadsFiles (F.contents files.old) (F.steady files.old) (F.faults files.old) (F.contents files.new)
        (F.steady files.new) (F.faults files.new) result }
{
    let bytes = read_file(alloc, files, name)?;
    expandable_bytes(alloc, name, bytes.as_slice())
}

/// The same for the bytes of the source `name`.
fn expandable_bytes(alloc: Global, name: &str, bytes: &[u8]) -> Result<PScript, Refusal>
    requires { length bytes.now ≤ FILE_MAX }
    ensures { expanded_bytes name.now bytes.now (expansion_in result) }
{
    let script = script_with_procedures(alloc, name, bytes)?;
    expandable(alloc, name, script)
}

/// The script with procedures that the bytes of the source `name` spell.
fn script_with_procedures(alloc: Global, name: &str, bytes: &[u8]) -> Result<PScript, Refusal>
    requires { length bytes.now ≤ FILE_MAX }
    ensures { script_with_procedures name.now bytes.now result }
{
    match read(alloc, bytes) {
        Ok(script) => Ok(script),
        Err(fault) => Err(refused(alloc, name, fault)),
    }
}

/// The script of the source `name`, if its expansion is within the limits.
fn expandable(alloc: Global, name: &str, script: PScript) -> Result<PScript, Refusal>
    ensures { expanded_script name.now (written_of script) (expansion_in result) }
{
    match within_limits(alloc, &script) {
        Ok(()) => Ok(script),
        Err(fault) => {
            // a command ends soon after this: its memory goes back as a whole, not node by node
            mem::forget(script);
            Err(refused(alloc, name, fault))
        }
    }
}

/// The refusal of the source `name` for this fault, unless memory runs out.
fn refused(alloc: Global, name: &str, fault: ProcFault) -> Refusal
    ensures { RefusesExpansion name.now fault result }
{
    match ExpansionCause::of(fault) {
        Some(cause) => in_file(alloc, name, Cause::Expansion(cause)),
        None => Refusal::NoMemory,
    }
}
