//! The world of a number, with the programs of its sources.

ghost use Rattle.std.specs.Prelude.{◌≡◌, ◌≤◌, ◌<◌, ◌++◌, ◌∷◌, [], ℕ, length, replicate, IfOk, IfErr, OnOk};
ghost use Rattle.script_reader.specs.Source.{source_of};
ghost use Rattle.command_refusals.specs.declared.refusal.Refusal.TheVariants.{NoMemory};
ghost use Rattle.command_steps.specs.Steps.{obtained};
ghost use Rattle.node_programs.specs.Right.{IsRightProgram};
ghost use Rattle.script_reader.specs.Sound.{IsSoundSource};
ghost use Rattle.vm_shape.specs.declared.description.Description.{Description as DescriptionValue};
ghost use Rattle.script_reader.specs.Made.{made_sources};
ghost use Rattle.command_programs.specs.Made.{made, IsMadeOf, AreOfVersion, AreOfVersions};
ghost use Rattle.node_programs.specs.WorldPrograms.{AreProgramsOfWorld};

use crate::SharedSource;
use command_refusals::Refusal;
use command_steps::compiled_bytes;
use mate_journal::{StoredProgram, StoredPrograms};
use mate_num::{HandlerId, Texts};
use script_reader::{generate, sources_law};
use script_steps::World;
use std::alloc::Global;
use vm_shape::Description;

/// A world with its programs.
#[derive(Drop)]
pub struct MadeWorld {
    pub world: World,
    pub programs: StoredPrograms,
}

/// The world of a number on the machine, with the programs of its sources, which are folded before they are compiled where
/// `fold` says so. No file is read, and no source is refused.
pub fn made_world(
    alloc: Global,
    desc: &Description,
    fold: bool,
    number: u64,
) -> Result<MadeWorld, Refusal>
    ensures does { made desc.now fold number result }
    ensures memory { IfErr result (λ r. r ≡ NoMemory) }
    ensures programs { IfOk result (λ m. AreProgramsOfWorld desc.now m.world m.programs) }
{
    let Ok(generated) = generate(alloc, desc, number) else {
        return Err(Refusal::NoMemory);
    };
    let programs = programs_of_sources(alloc, desc, fold, &generated.sources)?;
    Ok(MadeWorld {
        world: generated.world,
        programs,
    })
}

/// The programs of the sources of a made world: those of version 1 of each handler, and then those of version 2.
fn programs_of_sources(
    alloc: Global,
    desc: &Description,
    fold: bool,
    sources: &Texts,
) -> Result<StoredPrograms, Refusal>
    requires { sources.now ≡ made_sources desc.now }
    ensures memory { IfErr result (λ r. r ≡ NoMemory) }
    ensures programs { IfOk result (AreOfVersions desc.now fold) }
{
    sources_law();
    sources_are_short();
    let mut programs = StoredPrograms::new(alloc);
    let handlers = desc.handlers.len();
    let texts = sources.as_slice();
    add_version(alloc, desc, fold, 1, texts[0].as_str(), &mut programs)?;
    add_version(
        alloc,
        desc,
        fold,
        2,
        texts[handlers].as_str(),
        &mut programs,
    )?;
    Ok(programs)
}

/// Appends the program of the source for each handler, as this version.
fn add_version(
    alloc: Global,
    desc: &Description,
    fold: bool,
    version: u32,
    source: &str,
    programs: &mut StoredPrograms,
) -> Result<(), Refusal>
    requires sound { IsSoundSource desc.now source.now }
    requires short { length source.now ≤ 1000 }
    requires version { 1 ≤ version }
    ensures memory { IfErr result (λ r. r ≡ NoMemory) }
    ensures added { OnOk result (AreOfVersion desc.now fold version source.now (length desc.now.handlers.items) programs.old programs.new) }
{
    for handler in 0..desc.handlers.len() {
        let program = made_program(alloc, desc, fold, HandlerId(handler as u8), version, source)?;
        push(programs, program)?;
    }
    Ok(())
}

/// Appends a program.
#[inline(never)]
fn push(programs: &mut StoredPrograms, program: StoredProgram) -> Result<(), Refusal>
    ensures items { OnOk result (programs.new ≡ programs.old ++ program ∷ []) }
    ensures memory { IfErr result (λ r. r ≡ NoMemory) }
{
    match programs.push(program) {
        Ok(()) => Ok(()),
        Err(_) => Err(Refusal::NoMemory),
    }
}

/// A made source is short.
fn sources_are_short()
    ensures { (d : DescriptionValue) (version : ℕ) → length (source_of d version) ≤ 1000 }
{}

/// The program of a source that the machine accepts, for a handler as a version.
#[inline(never)]
fn made_program(
    alloc: Global,
    desc: &Description,
    fold: bool,
    handler: HandlerId,
    version: u32,
    source: &str,
) -> Result<StoredProgram, Refusal>
    requires sound { IsSoundSource desc.now source.now }
    requires short { length source.now ≤ 1000 }
    requires handler { handler.0 < length desc.now.handlers.items }
    requires version { 1 ≤ version }
    ensures does { obtained (IsMadeOf desc.now fold handler version source.now) result }
    ensures right { IfOk result (IsRightProgram desc.now) }
{
    let compiled = compiled_bytes(alloc, desc, fold, "", source.as_bytes())?;
    let shared = SharedSource::new(alloc, compiled)?;
    shared.program(alloc, desc, handler, version)
}
