//! From an accepted script to its code.

ghost use Rattle.std.specs.Prelude.{◌≡◌, ◌≤◌, true, false, length, IfOk};
ghost use Rattle.mate_code.specs.Code.{AreBytes};
ghost use Rattle.ts_checked.specs.Checked.{checked_tree, checked_shape as shape_of_script};
ghost use Rattle.vm_shape.specs.Shapes.{shape_of};
ghost use Rattle.command_steps.specs.SourceCode.{GivesCode};

use crate::trees::Trees;
use mate_num::Code;
use opcode_gen::table;
use std::alloc::Global;
use ts_checked::Checked;
use ts_compiler::{CompileFault, compile};
use ts_fold::fold;
use vm_shape::Description;

/// A script as it is compiled, and its code.
#[derive(Drop)]
pub struct CompiledScript {
    /// The accepted script, or the folded one.
    pub script: Checked,
    /// From 1 to `CODE_MAX` bytes.
    pub code: Code,
}

/// Why an accepted script has no code.
#[derive(Clone, Copy)]
pub enum CodeFault {
    /// The tree that is compiled needs too deep a stack, or its code is too long.
    Uncompiled(CompileFault),
    /// No memory was left for the folded tree. It comes only if folding is asked for.
    NoMemory,
}

/// The code of a script that the machine accepts, folded before it is compiled if `folded` says so. `Uncompiled`
/// comes exactly if the tree that is compiled needs a stack of more than `STACK_MAX` values, or its code takes more than
/// `CODE_MAX` bytes.
pub fn compiled_script(
    alloc: Global,
    desc: &Description,
    folded: bool,
    script: Checked,
) -> Result<CompiledScript, CodeFault>
    requires { shape_of_script script ≡ shape_of desc.now }
    ensures gives { GivesCode (shape_of desc.now) folded (checked_tree script) result }
    ensures filled { IfOk result (λ c. 1 ≤ length c.code.items) }
{
    compiled_with(alloc, desc, folded, script, Trees::Freed)
}

/// The same, and what becomes of the trees that the result doesn't have.
pub(crate) fn compiled_with(
    alloc: Global,
    desc: &Description,
    folded: bool,
    script: Checked,
    trees: Trees,
) -> Result<CompiledScript, CodeFault>
    requires { shape_of_script script ≡ shape_of desc.now }
    ensures gives { GivesCode (shape_of desc.now) folded (checked_tree script) result }
    ensures filled { IfOk result (λ c. 1 ≤ length c.code.items) }
{
    if folded {
        let compiled = folded_code(alloc, desc, &script, trees);
        trees.done(script);
        compiled
    } else {
        plain_code(desc, script, trees)
    }
}

fn plain_code(
    desc: &Description,
    script: Checked,
    trees: Trees,
) -> Result<CompiledScript, CodeFault>
    requires { shape_of_script script ≡ shape_of desc.now }
    ensures gives { GivesCode (shape_of desc.now) false (checked_tree script) result }
    ensures filled { IfOk result (λ c. 1 ≤ length c.code.items) }
{
    match compile(&table(desc), &script) {
        Ok(code) => {
            bytes_are_in_range(code.as_slice());
            Ok(CompiledScript { script, code })
        }
        Err(fault) => {
            trees.done(script);
            Err(CodeFault::Uncompiled(fault))
        }
    }
}

fn folded_code(
    alloc: Global,
    desc: &Description,
    script: &Checked,
    trees: Trees,
) -> Result<CompiledScript, CodeFault>
    requires { shape_of_script script.now ≡ shape_of desc.now }
    ensures gives { GivesCode (shape_of desc.now) true (checked_tree script.now) result }
    ensures filled { IfOk result (λ c. 1 ≤ length c.code.items) }
{
    let Ok(script) = fold(alloc, script) else {
        return Err(CodeFault::NoMemory);
    };
    match compile(&table(desc), &script) {
        Ok(code) => {
            bytes_are_in_range(code.as_slice());
            Ok(CompiledScript { script, code })
        }
        Err(fault) => {
            trees.done(script);
            Err(CodeFault::Uncompiled(fault))
        }
    }
}

/// The numbers of bytes are in the range of their type.
fn bytes_are_in_range(bytes: &[u8])
    ensures { AreBytes bytes.now }
{
    let _bytes = bytes;
}
