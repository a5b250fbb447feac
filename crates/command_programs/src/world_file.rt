//! From a file to the script of a world in it.

ghost use Rattle.std.specs.Prelude.{◌≤◌, length, IfOk};
ghost use Rattle.mate_files.specs.declared.files.TheConstants.{FILE_MAX};
ghost use Rattle.command_steps.specs.Parts.{ReadsFiles};
ghost use Rattle.command_programs.specs.Injected.{InjectsInOrder};
ghost use Rattle.command_programs.specs.WorldFiles.{world, world_text};
ghost use Rattle.script_steps.specs.World.{IsRightWorld};

use command_refusals::Refusal;
use command_steps::read_file;
use mate_files::Files;
use script_reader::world_script;
use script_steps::{ScriptFault, World};
use std::alloc::Global;
use vm_shape::Description;

/// The world of the script in a file. It is right for the machine, and its injections name its files in order.
pub fn world_of<F: Files>(
    alloc: Global,
    files: &mut F,
    desc: &Description,
    name: &str,
) -> Result<World, Refusal>
    ensures does { world (record { told = F.contents files.old; steady = F.steady files.old }) desc.now name.now result }
    ensures reads { ReadsFiles (F.contents files.old) (F.steady files.old) (F.faults files.old) (F.contents files.new)
        (F.steady files.new) (F.faults files.new) result }
    ensures right { IfOk result (IsRightWorld desc.now) }
    ensures in_order { IfOk result InjectsInOrder }
{
    let bytes = read_file(alloc, files, name)?;
    world_in(alloc, desc, bytes.as_slice())
}

/// The world of the script in these bytes. It is right for the machine, and its injections name its files in order.
pub fn world_in(alloc: Global, desc: &Description, bytes: &[u8]) -> Result<World, Refusal>
    requires { length bytes.now ≤ FILE_MAX }
    ensures does { world_text desc.now bytes.now result }
    ensures right { IfOk result (IsRightWorld desc.now) }
    ensures in_order { IfOk result InjectsInOrder }
{
    match world_script(alloc, desc, bytes) {
        Ok(world) => Ok(world),
        Err(ScriptFault::BadLine { line, cause }) => Err(Refusal::BadScript { line, cause }),
        Err(ScriptFault::NoMemory) => Err(Refusal::NoMemory),
    }
}
