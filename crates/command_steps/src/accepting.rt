//! The whole way from bytes to a checked script.

ghost use Rattle.std.specs.Prelude.{◌≡◌, ◌≤◌, length, IfOk};
ghost use Rattle.mate_files.specs.declared.files.TheConstants.{FILE_MAX};
ghost use Rattle.vm_shape.specs.Shapes.{shape_of as shape_of_machine};
ghost use Rattle.ts_checked.specs.Checked.{checked_shape};
ghost use Rattle.command_steps.specs.Answers.{TellsAcceptance};

use crate::refusal::SourceRefusal;
use crate::trees::Trees;
use std::alloc::Global;
use ts_checked::Checked;
use ts_checker::check;
use ts_parser::read;
use vm_shape::Description;

/// The checked script of a source of at most 1,048,576 bytes for the machine of `desc`, or its first refusal: of its
/// tokens over the whole text, then of its grammar and depth, then of its checks. `NoMemory` may come instead of any
/// answer.
pub fn accept(alloc: Global, desc: &Description, bytes: &[u8]) -> Result<Checked, SourceRefusal>
    requires { length bytes.now ≤ FILE_MAX }
    ensures tells { TellsAcceptance desc.now bytes.now result }
    ensures shape { IfOk result (λ script. checked_shape script ≡ shape_of_machine desc.now) }
{
    accept_with(alloc, desc, bytes, Trees::Freed)
}

/// The same, and what becomes of the tree that was read.
pub(crate) fn accept_with(
    alloc: Global,
    desc: &Description,
    bytes: &[u8],
    trees: Trees,
) -> Result<Checked, SourceRefusal>
    requires { length bytes.now ≤ FILE_MAX }
    ensures tells { TellsAcceptance desc.now bytes.now result }
    ensures shape { IfOk result (λ script. checked_shape script ≡ shape_of_machine desc.now) }
{
    let script = read(alloc, bytes)?;
    match check(alloc, desc, &script) {
        Ok(checked) => {
            trees.done(script);
            Ok(checked)
        }
        Err(fault) => {
            trees.done(script);
            Err(SourceRefusal::Meaning(fault))
        }
    }
}
