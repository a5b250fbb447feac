//! The script in a file, and the programs of the files that it names.

ghost use Rattle.std.specs.Prelude.{◌≡◌, ◌≤◌, ℕ, List, [], ◌∷◌, length, codes, None, Some, Err, All, IfOk, IfSome};
ghost use Rattle.mate_files.specs.declared.files.TheConstants.{FILE_MAX};
ghost use Rattle.ts_checked.specs.Checked.{checked_tree};
ghost use Rattle.ts_checker.specs.Accepted.{IsAccepted};
ghost use Rattle.script_steps.specs.NodeScript.{node_script_in};
ghost use Rattle.script_steps.specs.Steps.{IsRightSteps};
ghost use Rattle.script_steps.specs.declared.fault.Cause.{Cause};
ghost use Rattle.script_steps.specs.declared.fault.ScriptFault.TheVariants.{BadLine};
ghost use Rattle.command_refusals.specs.declared.cause.Cause.TheVariants.{Unread};
ghost use Rattle.command_refusals.specs.declared.cause.Unread.TheVariants.{Failed};
ghost use Rattle.command_refusals.specs.declared.refusal.Refusal.TheVariants.{InFile, BadScript};
ghost use Rattle.callers_commands.specs.Folders.{HoldsFile, RefusesAs};
ghost use Rattle.callers_commands.specs.Scripts.{installing, installing_two, loading};

use command_programs::{programs_of, script_of};
use command_refusals::Refusal;
use mate_files::Files;
use mate_journal::StoredPrograms;
use script_steps::Steps;
use std::alloc::Global;
use vm_shape::Description;

/// Of two missing files the first one is reported.
pub fn files_are_taken_in_order<F: Files>(
    alloc: Global,
    files: &mut F,
    desc: &Description,
    script: &Steps,
) -> Result<StoredPrograms, Refusal>
    requires right { IsRightSteps desc.now script.now }
    requires script { script.now ≡ installing_two (codes "a") (codes "b") }
    requires missing { HoldsFile (record { told = F.contents files.old; steady = F.steady files.old }) (codes "a") None }
    ensures { RefusesAs (InFile (codes "a") (Unread Failed)) result }
{
    programs_of(alloc, files, desc, false, script)
}

pub fn a_missing_file_is_not_skipped<F: Files>(
    alloc: Global,
    files: &mut F,
    desc: &Description,
    script: &Steps,
) -> Result<StoredPrograms, Refusal>
    requires right { IsRightSteps desc.now script.now }
    requires script { script.now ≡ installing (codes "a") }
    requires missing { HoldsFile (record { told = F.contents files.old; steady = F.steady files.old }) (codes "a") None }
    ensures { RefusesAs (InFile (codes "a") (Unread Failed)) result }
{
    programs_of(alloc, files, desc, false, script)
}

/// The program of a capsule in a file has no source.
pub fn a_loaded_file_is_not_compiled<F: Files>(
    alloc: Global,
    files: &mut F,
    desc: &Description,
    script: &Steps,
) -> Result<StoredPrograms, Refusal>
    requires right { IsRightSteps desc.now script.now }
    requires script { script.now ≡ loading (codes "a") }
    ensures { IfOk result (λ programs. All (λ p. p.source ≡ None) programs) }
{
    programs_of(alloc, files, desc, false, script)
}

/// The program has the tree that its source means, and not the folded one.
pub fn an_installed_source_keeps_its_tree<F: Files>(
    alloc: Global,
    files: &mut F,
    desc: &Description,
    script: &Steps,
) -> Result<StoredPrograms, Refusal>
    requires right { IsRightSteps desc.now script.now }
    requires script { script.now ≡ installing (codes "a") }
    ensures { (bytes : List ℕ) → HoldsFile (record { told = F.contents files.old; steady = F.steady files.old }) (codes "a") (Some bytes)
        → IfOk result (λ programs. All (λ p. IfSome p.source (λ source. IsAccepted desc.now bytes (checked_tree source))) programs) }
{
    programs_of(alloc, files, desc, false, script)
}

pub fn a_bad_line_is_told_by_its_number<F: Files>(
    alloc: Global,
    files: &mut F,
    desc: &Description,
    name: &str,
) -> Result<Steps, Refusal>
    ensures { (bytes : List ℕ) (cause : Cause)
        → HoldsFile (record { told = F.contents files.old; steady = F.steady files.old }) name.now (Some bytes) → length bytes ≤ FILE_MAX
        → node_script_in desc.now bytes ≡ Err (BadLine 3 cause) → RefusesAs (BadScript 3 cause) result }
{
    script_of(alloc, files, desc, name)
}
