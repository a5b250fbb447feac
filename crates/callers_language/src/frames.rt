//! Scripts that exclude wrong runs with frames. The end of each shows what is in a frame, and by `frame_law` its
//! expansion has that end.

ghost use Rattle.std.specs.Prelude.{◌≡◌};
ghost use Rattle.ts_proc_laws.specs.FrameLaw.{RunsAsExpanded};
ghost use Rattle.ts_proc_names.specs.Named.{written_of};
ghost use Rattle.callers_language.specs.Ends.{FramesEndIn, ExpansionEndsIn};
ghost use Rattle.callers_language.specs.Procedures.{hidden_variable, inner_call, kept_variable, reserved_name};

use mate_num::{End, FaultKind};
use ts_proc_laws::frame_law;
use ts_proc_names::PScript;
use vm_shape::Description;

pub fn a_parameter_hides_a_variable(script: &PScript)
    requires { written_of script.now ≡ hidden_variable }
    ensures frames { FramesEndIn hidden_variable (End.Fault FaultKind.DivZero) }
    ensures expansion { ExpansionEndsIn hidden_variable (End.Fault FaultKind.DivZero) }
{
    frame_law(script);
}

pub fn a_frame_is_found_again_behind_a_call(script: &PScript)
    requires { written_of script.now ≡ inner_call }
    ensures frames { FramesEndIn inner_call (End.Fault FaultKind.DivZero) }
    ensures expansion { ExpansionEndsIn inner_call (End.Fault FaultKind.DivZero) }
{
    frame_law(script);
}

pub fn a_variable_is_found_again_behind_a_call(script: &PScript)
    requires { written_of script.now ≡ kept_variable }
    ensures frames { FramesEndIn kept_variable End.Halt }
    ensures expansion { ExpansionEndsIn kept_variable End.Halt }
{
    frame_law(script);
}

/// Without the rule that no name begins with `_` the law would fail: `_0` is the parameter in this script's expansion, and no
/// name in its run with frames.
pub fn a_reserved_name_breaks_the_law(machine: &Description)
    ensures { RunsAsExpanded reserved_name → ⊥ }
{
    let _machine = machine;
}
