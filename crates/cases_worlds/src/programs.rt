//! The programs of a world's injections.

ghost use Rattle.std.specs.Prelude.{◌≡◌, ◌↔◌, length, slice_get, All, IfOk, IfSome, IsSomeAnd, IsTrue};
ghost use Rattle.node_programs.specs.Right.{AreRightPrograms};
ghost use Rattle.script_steps.specs.declared.world.Planned.{Planned as PlannedEvent};
ghost use Rattle.node_programs.specs.WorldPrograms.{IsProgramOfWhat};

use command_programs::{programs_of, script_of};
use mate_files::MemFiles;
use mate_journal::StoredPrograms;
use mate_num::HandlerId;
use script_steps::{Planned, What, World};
use std::alloc::{AllocError, Global};
use vm_shape::Description;

/// The programs of the files that the script injects, in the order of its lines, right for the machine; None if one is refused.
pub fn programs_of_script(
    alloc: Global,
    files: &mut MemFiles,
    desc: &Description,
    script: &str,
) -> Result<Option<StoredPrograms>, AllocError>
    ensures { IfOk result (λ found. IfSome found (AreRightPrograms desc.now)) }
{
    let installs = installs_of(alloc, script)?;
    let _ = files.add("installs", installs.as_bytes());
    let Ok(steps) = script_of(alloc, files, desc, "installs") else {
        return Ok(None);
    };
    Ok(programs_of(alloc, files, desc, false, &steps).ok())
}

/// A node script that installs what the world's script injects.
fn installs_of(alloc: Global, script: &str) -> Result<String, AllocError> {
    let mut installs = String::new(alloc);
    for line in script.lines() {
        if let Some((_, injected)) = line.split_once(" inject ") {
            let (_, program) = injected.split_once(' ').unwrap_or(("", injected));
            installs.push_str("install ")?;
            installs.push_str(program)?;
            installs.push('\n')?;
        }
    }
    Ok(installs)
}

/// Whether each file has a program, and each injection one of its handler and version.
pub fn are_of(world: &World, programs: &StoredPrograms) -> bool
    ensures { IsTrue result ↔ (length programs.now ≡ length world.now.files)
        × All (λ (p : PlannedEvent). IsProgramOfWhat programs.now p.what) world.now.events }
{
    programs.len() == world.files.len() && have_theirs(world.events.as_slice(), programs)
}

/// Whether each injection has a program of its handler and version.
fn have_theirs(events: &[Planned], programs: &StoredPrograms) -> bool
    ensures { IsTrue result ↔ All (λ (p : PlannedEvent). IsProgramOfWhat programs.now p.what) events.now }
{
    for planned in events {
        if !has_its(&planned.what, programs) {
            return false;
        }
    }
    true
}

/// Whether it is no injection, or has a program of its handler and version.
fn has_its(what: &What, programs: &StoredPrograms) -> bool
    ensures { IsTrue result ↔ IsProgramOfWhat programs.now what.now }
{
    match what {
        What::Inject {
            program,
            handler,
            version,
        } => is_at(programs, *program, *handler, *version),
        What::Post { .. } => true,
        What::Show => true,
        What::Reset => true,
        What::Noise { .. } => true,
    }
}

/// Whether the program at a place is for the handler and has this version.
fn is_at(programs: &StoredPrograms, place: u32, handler: HandlerId, version: u32) -> bool
    ensures { IsTrue result ↔ IsSomeAnd (slice_get programs.now place) (λ p. (p.handler ≡ handler) × (p.version ≡ version)) }
{
    match programs.get(place as usize) {
        Some(program) => program.handler == handler && program.version == version,
        None => false,
    }
}
