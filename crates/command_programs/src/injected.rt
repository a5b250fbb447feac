//! The programs of the files that a world injects.

ghost use Rattle.std.specs.Prelude.{◌≡◌, ◌++◌, IfOk, OnOk};
ghost use Rattle.std.specs.Option.{option_to_list};
ghost use Rattle.command_steps.specs.Parts.{ReadsFiles};
ghost use Rattle.command_programs.specs.Injected.{install_of, installs_in, installs, world_programs, InjectsInOrder};
ghost use Rattle.script_steps.specs.World.{IsRightWorld};
ghost use Rattle.node_programs.specs.WorldPrograms.{AreProgramsOfWorld};

use crate::programs_of;
use command_refusals::Refusal;
use mate_files::Files;
use mate_journal::StoredPrograms;
use mate_num::{NoMemory, Text};
use script_steps::{Planned, Step, Steps, What, World};
use std::alloc::Global;
use vm_shape::Description;

/// The programs of the files that the world injects, in the order of its lines; or the first refusal of them. Sources are
/// folded before they are compiled if `fold` says so. The world can be run with them.
pub fn programs_of_world<F: Files>(
    alloc: Global,
    files: &mut F,
    desc: &Description,
    fold: bool,
    world: &World,
) -> Result<StoredPrograms, Refusal>
    requires right { IsRightWorld desc.now world.now }
    requires in_order { InjectsInOrder world.now }
    ensures does { world_programs (record { told = F.contents files.old; steady = F.steady files.old }) desc.now fold world.now result }
    ensures reads { ReadsFiles (F.contents files.old) (F.steady files.old) (F.faults files.old) (F.contents files.new)
        (F.steady files.new) (F.faults files.new) result }
    ensures programs { IfOk result (AreProgramsOfWorld desc.now world.now) }
{
    let Ok(installs) = installs_of(alloc, world) else {
        return Err(Refusal::NoMemory);
    };
    programs_of(alloc, files, desc, fold, &installs)
}

/// The node script that installs what the world injects.
fn installs_of(alloc: Global, world: &World) -> Result<Steps, NoMemory>
    ensures { IfOk result (λ script. script ≡ installs world.now) }
{
    let mut script = Steps::new(alloc);
    add_installs(&mut script, world.events.as_slice())?;
    add_names(&mut script, world.files.as_slice())?;
    Ok(script)
}

/// Appends an install for each injection.
fn add_installs(script: &mut Steps, events: &[Planned]) -> Result<(), NoMemory>
    ensures steps { OnOk result (script.new.steps ≡ script.old.steps ++ installs_in events.now) }
    ensures files { OnOk result (script.new.files ≡ script.old.files) }
{
    for planned in events {
        install(script, &planned.what)?;
    }
    Ok(())
}

/// Appends the names of files.
fn add_names(script: &mut Steps, names: &[Text]) -> Result<(), NoMemory>
    ensures steps { OnOk result (script.new.steps ≡ script.old.steps) }
    ensures files { OnOk result (script.new.files ≡ script.old.files ++ names.now) }
{
    for name in names {
        script.name(name.as_str())?;
    }
    Ok(())
}

/// Appends the install that a line is, if it injects.
fn install(script: &mut Steps, what: &What) -> Result<(), NoMemory>
    ensures steps { OnOk result (script.new.steps ≡ script.old.steps ++ option_to_list (install_of what.now)) }
    ensures files { OnOk result (script.new.files ≡ script.old.files) }
{
    match what {
        What::Inject {
            program,
            handler,
            version,
        } => script.push(Step::Install {
            handler: *handler,
            version: *version,
            program: *program,
        }),
        What::Post { .. } | What::Show | What::Reset | What::Noise { .. } => Ok(()),
    }
}
