//! Scripts that exclude wrong bodies of `expand`.

ghost use Rattle.std.specs.Prelude.{◌≡◌, ◌⊎◌, IfOk, MatchResult};
ghost use Rattle.ts_trees.specs.Seen.{source_seen};
ghost use Rattle.ts_trees.specs.Tree.{set, number, no_acts, act_then};
ghost use Rattle.ts_proc_names.specs.Named.{written_of};
ghost use Rattle.ts_proc_renaming.specs.Renaming.{parameter_name, parameter_decls};
ghost use Rattle.callers_language.specs.Procedures.{two_parameters, nested_by_a_call};

use std::alloc::Global;
use ts_proc_names::{PScript, ProcFault};
use ts_procs::expand;
use ts_trees::Script;

pub fn a_second_procedure_has_numbers_of_its_own(
    alloc: Global,
    script: &PScript,
) -> Result<Script, ProcFault>
    requires { written_of script.now ≡ two_parameters }
    ensures { IfOk result (λ plain. source_seen plain ≡
        record { decls = parameter_decls 0 2; body = act_then (set record { name = parameter_name 1; place = 3 } (number 7)) no_acts }) }
{
    expand(alloc, script)
}

pub fn a_body_is_measured_with_what_it_runs(
    alloc: Global,
    script: &PScript,
) -> Result<Script, ProcFault>
    requires { written_of script.now ≡ nested_by_a_call }
    ensures { MatchResult result (λ _. ⊥) (λ fault. (fault ≡ ProcFault.TooNested 40) ⊎ (fault ≡ ProcFault.NoMemory)) }
{
    expand(alloc, script)
}
