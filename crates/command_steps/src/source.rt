//! From the file of a source to its code.

ghost use Rattle.std.specs.Prelude.{◌≡◌, ◌≤◌, length, IfOk};
ghost use Rattle.mate_files.specs.declared.files.TheConstants.{FILE_MAX};
ghost use Rattle.ts_checked.specs.Checked.{checked_tree, checked_shape as shape_of_script};
ghost use Rattle.vm_shape.specs.Shapes.{shape_of};
ghost use Rattle.command_steps.specs.Parts.{ReadsFiles};
ghost use Rattle.command_steps.specs.Sources.{source, compiled_bytes, accepted, compiled, tree_in};

use crate::accepting::accept_with;
use crate::causes::source_cause;
use crate::code::compiled_with;
use crate::parts::read_file;
use crate::trees::Trees;
use crate::{CodeFault, CompiledScript};
use command_refusals::{Cause, Refusal, in_file};
use mate_files::Files;
use std::alloc::Global;
use ts_checked::Checked;
use vm_shape::Description;

/// The compiled script of a source with its code, folded before it is compiled if `fold` says so. It is for a command that has one
/// source: trees that are done with stay in memory until the process ends.
pub fn source_of<F: Files>(
    alloc: Global,
    files: &mut F,
    desc: &Description,
    fold: bool,
    name: &str,
) -> Result<CompiledScript, Refusal>
    ensures does { source (record { told = F.contents files.old; steady = F.steady files.old }) desc.now fold name.now result }
    ensures reads { ReadsFiles (F.contents files.old) (F.steady files.old) (F.faults files.old) (F.contents files.new)
        (F.steady files.new) (F.faults files.new) result }
    ensures filled { IfOk result (λ c. 1 ≤ length c.code.items) }
{
    let bytes = read_file(alloc, files, name)?;
    compiled_bytes_with(alloc, desc, fold, name, bytes.as_slice(), Trees::Left)
}

/// The compiled script of the bytes of the source `name`, for a command that may have many.
pub fn compiled_bytes(
    alloc: Global,
    desc: &Description,
    fold: bool,
    name: &str,
    bytes: &[u8],
) -> Result<CompiledScript, Refusal>
    requires { length bytes.now ≤ FILE_MAX }
    ensures does { compiled_bytes desc.now fold name.now bytes.now result }
    ensures filled { IfOk result (λ c. 1 ≤ length c.code.items) }
{
    compiled_bytes_with(alloc, desc, fold, name, bytes, Trees::Freed)
}

/// The same, and what becomes of trees that are done with.
#[inline(never)]
fn compiled_bytes_with(
    alloc: Global,
    desc: &Description,
    fold: bool,
    name: &str,
    bytes: &[u8],
    trees: Trees,
) -> Result<CompiledScript, Refusal>
    requires { length bytes.now ≤ FILE_MAX }
    ensures does { compiled_bytes desc.now fold name.now bytes.now result }
    ensures filled { IfOk result (λ c. 1 ≤ length c.code.items) }
{
    let script = accepted_with(alloc, desc, name, bytes, trees)?;
    compiled(alloc, desc, fold, name, script, trees)
}

/// The script that the bytes of the source `name` spell.
pub fn accepted(
    alloc: Global,
    desc: &Description,
    name: &str,
    bytes: &[u8],
) -> Result<Checked, Refusal>
    requires { length bytes.now ≤ FILE_MAX }
    ensures does { accepted desc.now name.now bytes.now (tree_in result) }
    ensures shape { IfOk result (λ script. shape_of_script script ≡ shape_of desc.now) }
{
    accepted_with(alloc, desc, name, bytes, Trees::Freed)
}

/// The same, and what becomes of the tree that was read.
#[inline(never)]
fn accepted_with(
    alloc: Global,
    desc: &Description,
    name: &str,
    bytes: &[u8],
    trees: Trees,
) -> Result<Checked, Refusal>
    requires { length bytes.now ≤ FILE_MAX }
    ensures does { accepted desc.now name.now bytes.now (tree_in result) }
    ensures shape { IfOk result (λ script. shape_of_script script ≡ shape_of desc.now) }
{
    match accept_with(alloc, desc, bytes, trees) {
        Ok(script) => Ok(script),
        Err(refusal) => match source_cause(refusal) {
            Some(cause) => Err(in_file(alloc, name, Cause::Source(cause))),
            None => Err(Refusal::NoMemory),
        },
    }
}

/// The compiled script of the script of the source `name`.
#[inline(never)]
fn compiled(
    alloc: Global,
    desc: &Description,
    fold: bool,
    name: &str,
    script: Checked,
    trees: Trees,
) -> Result<CompiledScript, Refusal>
    requires { shape_of_script script ≡ shape_of desc.now }
    ensures does { compiled desc.now fold name.now (checked_tree script) result }
    ensures filled { IfOk result (λ c. 1 ≤ length c.code.items) }
{
    match compiled_with(alloc, desc, fold, script, trees) {
        Ok(compiled) => Ok(compiled),
        Err(CodeFault::Uncompiled(fault)) => Err(in_file(alloc, name, Cause::Code(fault))),
        Err(CodeFault::NoMemory) => Err(Refusal::NoMemory),
    }
}
