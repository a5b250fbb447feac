//! From a file to the node script in it.

ghost use Rattle.std.specs.Prelude.{◌≤◌, length, IfOk};
ghost use Rattle.mate_files.specs.declared.files.TheConstants.{FILE_MAX};
ghost use Rattle.command_steps.specs.Parts.{ReadsFiles};
ghost use Rattle.command_programs.specs.Numbers.{NamesInOrder};
ghost use Rattle.command_programs.specs.Scripts.{script, script_text};
ghost use Rattle.script_steps.specs.Steps.{IsRightSteps};

use command_refusals::Refusal;
use command_steps::read_file;
use mate_files::Files;
use script_steps::{ScriptFault, Steps, node_script};
use std::alloc::Global;
use vm_shape::Description;

/// The node script in a file. It is right for the machine, and its steps name its files in order.
pub fn script_of<F: Files>(
    alloc: Global,
    files: &mut F,
    desc: &Description,
    name: &str,
) -> Result<Steps, Refusal>
    ensures does { script (record { told = F.contents files.old; steady = F.steady files.old }) desc.now name.now result }
    ensures reads { ReadsFiles (F.contents files.old) (F.steady files.old) (F.faults files.old) (F.contents files.new)
        (F.steady files.new) (F.faults files.new) result }
    ensures right { IfOk result (IsRightSteps desc.now) }
    ensures in_order { IfOk result NamesInOrder }
{
    let bytes = read_file(alloc, files, name)?;
    script_in(alloc, desc, bytes.as_slice())
}

/// The node script in these bytes. It is right for the machine, and its steps name its files in order.
pub fn script_in(alloc: Global, desc: &Description, bytes: &[u8]) -> Result<Steps, Refusal>
    requires { length bytes.now ≤ FILE_MAX }
    ensures does { script_text desc.now bytes.now result }
    ensures right { IfOk result (IsRightSteps desc.now) }
    ensures in_order { IfOk result NamesInOrder }
{
    match node_script(alloc, desc, bytes) {
        Ok(script) => Ok(script),
        Err(ScriptFault::BadLine { line, cause }) => Err(Refusal::BadScript { line, cause }),
        Err(ScriptFault::NoMemory) => Err(Refusal::NoMemory),
    }
}
