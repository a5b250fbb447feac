//! From a checked script to its bytes.

ghost use Rattle.std.specs.Prelude.{◌≡◌, Ok, IfOk};
ghost use Rattle.mate_code.specs.Code.{decoded};
ghost use Rattle.mate_code.specs.Table.{table_of};
ghost use Rattle.ts_checked.specs.Checked.{checked_shape, checked_tree};
ghost use Rattle.ts_semantics.specs.Laws.{RunsAsItsScript, UsesAsItsScript};
ghost use Rattle.ts_semantics.specs.Translation.{code_of};
ghost use Rattle.ts_compiler.specs.Compiled.{Compiles, AreAccepted};

use crate::emitter::Emitter;
use crate::extent::script_extent;
use crate::fault::CompileFault;
use mate_code::{Table, encode};
use mate_num::{CODE_MAX, Code, STACK_MAX};
use ts_checked::Checked;
use ts_semantics::{
    code_is_encodable, code_is_verified, code_runs_as_its_script, code_uses_as_its_script,
};

/// The code of a checked script, for the machine that the table is of. `StackDepth` comes exactly if the script needs
/// a stack of more than `STACK_MAX` values, and `TooLong` exactly if it doesn't but its code takes more than `CODE_MAX` bytes.
/// It takes no memory. One pass measures the script; code is written only if it fits.
pub fn compile(table: &Table, script: &Checked) -> Result<Code, CompileFault>
    requires { table.now ≡ table_of (checked_shape script.now) }
    ensures gives { Compiles (checked_shape script.now) (checked_tree script.now) result }

    // The bytes spell the instructions of the script's code, each at its place.
    ensures decodes { IfOk result (λ code. decoded table.now code.items ≡ Ok (code_of (checked_tree script.now))) }

    // They are verified, with the depth of the stack at each place.
    ensures verified { IfOk result (λ code. AreAccepted (checked_shape script.now) (checked_tree script.now) code) }

    // The code runs as the script does, and uses what the script uses.
    ensures runs { IfOk result (λ _. RunsAsItsScript (checked_shape script.now) (checked_tree script.now)) }
    ensures uses { UsesAsItsScript (checked_shape script.now) (checked_tree script.now) }
{
    code_is_encodable();
    code_is_verified();
    code_runs_as_its_script();
    code_uses_as_its_script();
    let extent = script_extent(script.body());
    if extent.need > STACK_MAX as u32 {
        return Err(CompileFault::StackDepth { need: extent.need });
    }
    if extent.size > CODE_MAX as u32 {
        return Err(CompileFault::TooLong { size: extent.size });
    }
    let emitter = Emitter::of(script.body());
    match encode(table, emitter.as_slice()) {
        Ok(code) => Ok(code),
        Err(_) => unreachable!(),
    }
}
