//! The checks of a whole script.

ghost use Rattle.std.specs.Prelude.{◌≡◌, IfOk};
ghost use Rattle.vm_shape.specs.Shapes.{shape_of as shape_of_machine};
ghost use Rattle.ts_checked.specs.Checked.{checked_shape, checked_tree};
ghost use Rattle.ts_trees.specs.Seen.{source_seen};
ghost use Rattle.ts_checker.specs.Answer.{GivesChecked};
ghost use Rattle.ts_checker.specs.Checks.{checked_source};

use crate::fault::CheckFault;
use crate::scope::Scope;
use crate::stmts::block;
use std::alloc::Global;
use ts_checked::Checked;
use ts_trees::Script;
use vm_shape::{Description, shape};

/// Checks a script for the machine of `desc`, and resolves its names. The answer is the checked tree, or the first
/// refusal: declarations from left to right, then the statements word by word. `NoMemory` may come instead of either.
pub fn check(alloc: Global, desc: &Description, script: &Script) -> Result<Checked, CheckFault>
    ensures tree { GivesChecked checked_tree result (checked_source desc.now (source_seen script.now)) }
    ensures shape { IfOk result (λ checked. checked_shape checked ≡ shape_of_machine desc.now) }
{
    let scope = Scope::of(desc, script.decls.as_slice())?;
    let body = block(alloc, &scope, &script.body)?;
    Ok(Checked::new(shape(desc), body))
}
