//! From a node script to its programs: each file is read, and then checked whole, in the order of the steps.

ghost use Rattle.std.specs.Prelude.{◌≡◌, ◌++◌, ◌≤◌, ◌<◌, length, option_to_list, OnOk, IfOk, IfErr, IfSome};
ghost use Rattle.command_refusals.specs.declared.refusal.Refusal.TheVariants.{NoMemory};
ghost use Rattle.command_steps.specs.Parts.{ReadsFiles};
ghost use Rattle.node_programs.specs.Right.{IsRightProgram};
ghost use Rattle.node_programs.specs.ScriptSteps.{AreProgramsOf};
ghost use Rattle.command_programs.specs.Known.{AreKnown};
ghost use Rattle.command_programs.specs.Numbers.{NamesInOrder};
ghost use Rattle.command_programs.specs.Programs.{installed, loaded, names_file, step_program, script_programs};
ghost use Rattle.script_steps.specs.Steps.{IsRightStep, IsRightSteps};

use crate::image::stored_image;
use crate::known::{KnownSources, source_of};
use command_refusals::Refusal;
use command_steps::capsule_of;
use mate_files::Files;
use mate_journal::{StoredProgram, StoredPrograms};
use mate_num::{HandlerId, Text};
use script_steps::{Step, Steps};
use std::alloc::Global;
use vm_shape::Description;

/// The programs of the files that the script names, in the order of its steps; or their first refusal. Sources are
/// folded before they are compiled if `fold` says so. The script can be run with them.
pub fn programs_of<F: Files>(
    alloc: Global,
    files: &mut F,
    desc: &Description,
    fold: bool,
    script: &Steps,
) -> Result<StoredPrograms, Refusal>
    requires right { IsRightSteps desc.now script.now }
    requires in_order { NamesInOrder script.now }
    ensures does { script_programs (record { told = F.contents files.old; steady = F.steady files.old }) desc.now fold script.now result }
    ensures reads { ReadsFiles (F.contents files.old) (F.steady files.old) (F.faults files.old) (F.contents files.new)
        (F.steady files.new) (F.faults files.new) result }
    ensures programs { IfOk result (AreProgramsOf desc.now script.now) }
{
    let mut programs = StoredPrograms::new(alloc);
    let mut known = KnownSources::new(alloc);
    let names = script.files();
    let steps = script.steps();
    for step in steps {
        if names_file(step) {
            let program = step_program(alloc, files, desc, fold, &mut known, names, step)?;
            push(&mut programs, program)?;
        }
    }
    Ok(programs)
}

/// Whether the step names a file. Most steps of a long script name none, and then nothing as large as a program is moved.
fn names_file(step: &Step) -> bool
    ensures { result ≡ names_file step.now }
{
    match step {
        Step::Install { .. } | Step::Load { .. } => true,
        Step::Post { .. }
        | Step::Step { .. }
        | Step::Run
        | Step::Answer { .. }
        | Step::Show
        | Step::Reset => false,
    }
}

/// Appends a program, if there is one.
#[inline(never)]
fn push(programs: &mut StoredPrograms, program: Option<StoredProgram>) -> Result<(), Refusal>
    ensures items { OnOk result (programs.new ≡ programs.old ++ option_to_list program) }
    ensures memory { IfErr result (λ r. r ≡ NoMemory) }
{
    let Some(program) = program else {
        return Ok(());
    };
    match programs.push(program) {
        Ok(()) => Ok(()),
        Err(_) => Err(Refusal::NoMemory),
    }
}

/// The program that a step names, if it names one.
#[inline(never)]
fn step_program<F: Files>(
    alloc: Global,
    files: &mut F,
    desc: &Description,
    fold: bool,
    known: &mut KnownSources,
    names: &[Text],
    step: &Step,
) -> Result<Option<StoredProgram>, Refusal>
    requires right { IsRightStep desc.now (length names.now) step.now }
    requires known { AreKnown desc.now fold known.old }
    ensures does { step_program (record { told = F.contents files.old; steady = F.steady files.old }) desc.now fold names.now step.now
        result }
    ensures reads { ReadsFiles (F.contents files.old) (F.steady files.old) (F.faults files.old) (F.contents files.new)
        (F.steady files.new) (F.faults files.new) result }
    ensures right { IfOk result (λ program. IfSome program (IsRightProgram desc.now)) }
    ensures known { AreKnown desc.now fold known.new }
{
    match step {
        Step::Install {
            handler,
            version,
            program,
        } => {
            let name = names[*program as usize].as_str();
            let program = installed(alloc, files, desc, fold, known, *handler, *version, name)?;
            Ok(Some(program))
        }
        Step::Load { program } => {
            let name = names[*program as usize].as_str();
            let program = loaded(alloc, files, desc, name)?;
            Ok(Some(program))
        }
        Step::Post { .. }
        | Step::Step { .. }
        | Step::Run
        | Step::Answer { .. }
        | Step::Show
        | Step::Reset => Ok(None),
    }
}

/// The program of a source, for a handler, with a version.
#[inline(never)]
fn installed<F: Files>(
    alloc: Global,
    files: &mut F,
    desc: &Description,
    fold: bool,
    known: &mut KnownSources,
    handler: HandlerId,
    version: u32,
    name: &str,
) -> Result<StoredProgram, Refusal>
    requires handler { handler.0 < length desc.now.handlers.items }
    requires version { 1 ≤ version }
    requires known { AreKnown desc.now fold known.old }
    ensures does { installed (record { told = F.contents files.old; steady = F.steady files.old }) desc.now fold handler version name.now
        result }
    ensures reads { ReadsFiles (F.contents files.old) (F.steady files.old) (F.faults files.old) (F.contents files.new)
        (F.steady files.new) (F.faults files.new) result }
    ensures right { IfOk result (IsRightProgram desc.now) }
    ensures known { AreKnown desc.now fold known.new }
{
    let source = source_of(alloc, files, desc, fold, known, name)?;
    source.program(alloc, desc, handler, version)
}

/// The program of the capsule in a file.
#[inline(never)]
fn loaded<F: Files>(
    alloc: Global,
    files: &mut F,
    desc: &Description,
    name: &str,
) -> Result<StoredProgram, Refusal>
    ensures does { loaded (record { told = F.contents files.old; steady = F.steady files.old }) desc.now name.now result }
    ensures reads { ReadsFiles (F.contents files.old) (F.steady files.old) (F.faults files.old) (F.contents files.new)
        (F.steady files.new) (F.faults files.new) result }
    ensures right { IfOk result (IsRightProgram desc.now) }
{
    let held = capsule_of(alloc, files, desc, name)?;
    let capsule = &held.capsule;
    let image = stored_image(alloc, capsule)?;
    Ok(StoredProgram::loaded(capsule.handler, capsule.version, image))
}
