//! The lines of a script, their words, and those of a report's lines.

ghost use Rattle.std.specs.Prelude.{◌≡◌, ◌≤◌, ◌<◌, ◌⊎◌, None, IfOk, MatchResult};
ghost use Rattle.script_steps.specs.declared.fault.Cause.TheVariants.{Word};
ghost use Rattle.script_steps.specs.declared.fault.ScriptFault.TheVariants.{BadLine, NoMemory};

use mate_num::ContextId;
use report_line_reader::numbers::unsigned;
use script_steps::{Cause, ScriptFault, Steps, Words, node_script};
use std::alloc::Global;
use vm_shape::{Description, builtin};

pub fn a_number_is_not_below_its_range(words: &mut Words<'_>) -> Result<u64, Cause>
    ensures { IfOk result (λ number. 5 ≤ number) }
{
    words.number(5, 9, Cause::Range)
}

pub fn the_first_context_has_the_number_0(words: &mut Words<'_>) -> Result<ContextId, Cause>
    ensures { IfOk result (λ ctx. ctx.0 ≡ 0) }
{
    words.context(&builtin())
}

pub fn a_version_is_newer(words: &mut Words<'_>) -> Result<u32, Cause>
    ensures { IfOk result (λ version. 7 < version) }
{
    words.version(7)
}

pub fn a_leading_zero_is_no_number() -> Option<u64>
    ensures { result ≡ None }
{
    unsigned(b"07")
}

pub fn the_first_line_has_the_number_1(
    alloc: Global,
    desc: &Description,
) -> Result<Steps, ScriptFault>
    ensures { MatchResult result (λ _. ⊥) (λ fault. (fault ≡ BadLine 1 Word) ⊎ (fault ≡ NoMemory)) }
{
    node_script(alloc, desc, b"x")
}
