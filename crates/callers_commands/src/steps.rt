//! The steps of commands on files whose contents contracts can say.

ghost use Rattle.std.specs.Prelude.{◌≡◌, ◌≢◌, ◌⊎◌, ◌<◌, ◌≤◌, ℕ, List, length, codes, None, Some, Ok, IfOk, IfErr, MatchResult};
ghost use Rattle.mate_files.specs.declared.files.TheConstants.{FILE_MAX};
ghost use Rattle.vm_shape.specs.Limits.{Parts};
ghost use Rattle.vm_shape.specs.Shapes.{shape_of};
ghost use Rattle.vm_desc.specs.Text.{description_of};
ghost use Rattle.ts_trees.specs.Cut.{cut};
ghost use Rattle.ts_trees.specs.Faults.{Spells};
ghost use Rattle.ts_trees.specs.Tree.{Source};
ghost use Rattle.ts_trees.specs.declared.token.Token.{Token};
ghost use Rattle.ts_parser.specs.declared.fault.SourceFault.{SourceFault};
ghost use Rattle.ts_parser.specs.declared.fault.SourceFault.TheVariants.{BadByte, NoMemory as SpellingWantsMemory};
ghost use Rattle.ts_checked.specs.Checked.{checked_tree, checked_shape as shape_of_script};
ghost use Rattle.ts_checker.specs.Accepted.{IsAccepted};
ghost use Rattle.command_line.specs.Commands.{builtin_word};
ghost use Rattle.command_refusals.specs.declared.cause.Cause.TheVariants.{Unread as UnreadCause};
ghost use Rattle.command_refusals.specs.declared.cause.Unread.{Unread};
ghost use Rattle.command_refusals.specs.declared.cause.Unread.TheVariants.{Failed, Large};
ghost use Rattle.command_refusals.specs.declared.refusal.Refusal.TheVariants.{InFile, NoMemory};
ghost use Rattle.command_steps.specs.declared.refusal.SourceRefusal.TheVariants.{Spelling};
ghost use Rattle.callers_commands.specs.Folders.{HoldsFile, RefusesAs};
ghost use Rattle.callers_commands.specs.Refusals.{IsForMemory};

use command_refusals::Refusal;
use command_steps::{
    CodeFault, CompiledScript, SourceRefusal, accept, compiled_script, expandable_of, machine_of,
    read_file, source_of,
};
use mate_files::Files;
use std::alloc::Global;
use ts_checked::Checked;
use ts_parser::verdict_law;
use ts_proc_names::PScript;
use vm_shape::Description;

/// No other description is read instead of one that isn't there.
pub fn a_missing_description_is_told_by_its_name<F: Files>(
    alloc: Global,
    files: &mut F,
) -> Result<Description, Refusal>
    requires { HoldsFile (record { told = F.contents files.old; steady = F.steady files.old }) (codes "w.toml") None }
    ensures { RefusesAs (InFile (codes "w.toml") (UnreadCause Failed)) result }
{
    machine_of(alloc, files, "w.toml")
}

pub fn a_large_file_is_told_as_large<F: Files>(
    alloc: Global,
    files: &mut F,
    name: &str,
) -> Result<Vec<u8>, Refusal>
    ensures { (bytes : List ℕ) → HoldsFile (record { told = F.contents files.old; steady = F.steady files.old }) name.now (Some bytes)
        → FILE_MAX < length bytes
        → RefusesAs (InFile name.now (UnreadCause Large)) result }
{
    read_file(alloc, files, name)
}

/// The script has the tree that its source means, and not the folded one.
pub fn an_unfolded_source_keeps_its_tree<F: Files>(
    alloc: Global,
    files: &mut F,
    desc: &Description,
    name: &str,
) -> Result<CompiledScript, Refusal>
    ensures { (bytes : List ℕ) → HoldsFile (record { told = F.contents files.old; steady = F.steady files.old }) name.now (Some bytes)
        → IfOk result (λ c. IsAccepted desc.now bytes (checked_tree c.script)) }
{
    source_of(alloc, files, desc, false, name)
}

/// A script that isn't folded takes no memory.
pub fn an_unfolded_script_never_wants_memory(
    alloc: Global,
    desc: &Description,
    script: Checked,
) -> Result<CompiledScript, CodeFault>
    requires { shape_of_script script ≡ shape_of desc.now }
    ensures { IfErr result (λ fault. fault ≢ CodeFault.NoMemory) }
{
    compiled_script(alloc, desc, false, script)
}

/// A description that isn't read because memory ran out is no bad description.
pub fn a_right_description_is_refused_for_memory_alone<F: Files>(
    alloc: Global,
    files: &mut F,
    word: &str,
) -> Result<Description, Refusal>
    requires { word.now ≢ builtin_word }
    ensures { (bytes : List ℕ) (parts : Parts)
        → HoldsFile (record { told = F.contents files.old; steady = F.steady files.old }) word.now (Some bytes) → length bytes ≤ FILE_MAX
        → description_of bytes ≡ Ok parts → IfErr result (λ r. r ≡ NoMemory) }
{
    machine_of(alloc, files, word)
}

/// A source that isn't expanded because memory ran out was read.
pub fn a_source_that_is_there_is_never_unread<F: Files>(
    alloc: Global,
    files: &mut F,
    name: &str,
) -> Result<PScript, Refusal>
    ensures { (bytes : List ℕ) → HoldsFile (record { told = F.contents files.old; steady = F.steady files.old }) name.now (Some bytes)
        → length bytes ≤ FILE_MAX
        → IfErr result (λ r. (why : Unread) → r ≢ InFile name.now (UnreadCause why)) }
{
    expandable_of(alloc, files, name)
}

/// A byte that begins no token is told at its place: a body that reads no bytes would accept this source.
pub fn a_byte_of_no_token_is_told(
    alloc: Global,
    desc: &Description,
) -> Result<Checked, SourceRefusal>
    ensures { MatchResult result (λ _. ⊥) (λ r. (r ≡ Spelling (BadByte 0)) ⊎ IsForMemory r) }
{
    accept(alloc, desc, b"@")
}

/// What the checks refuse isn't told as misspelt: of a source that spells a script that comes for want of memory alone.
pub fn a_source_that_spells_a_script_is_not_misspelt(
    alloc: Global,
    desc: &Description,
    bytes: &[u8],
) -> Result<Checked, SourceRefusal>
    requires { length bytes.now ≤ FILE_MAX }
    ensures { (tokens : List Token) (source : Source) → cut bytes.now ≡ Ok tokens → Spells tokens source
        → IfErr result (λ r. (fault : SourceFault) → r ≡ Spelling fault → fault ≡ SpellingWantsMemory) }
{
    verdict_law();
    accept(alloc, desc, bytes)
}
