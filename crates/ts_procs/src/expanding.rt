//! The expansion of a whole script.

ghost use Rattle.std.specs.Prelude.{◌≡◌, ◌≤◌, map, IfOk};
ghost use Rattle.ts_trees.specs.Seen.{acts_of, procedure_of, source_seen};
ghost use Rattle.ts_proc_names.specs.Heads.{parameter_count};
ghost use Rattle.ts_proc_names.specs.Named.{written_of};
ghost use Rattle.ts_proc_expansion.specs.declared.limits.TheConstants.{DEPTH_MAX};
ghost use Rattle.ts_proc_expansion.specs.Answer.{Expands};
ghost use Rattle.ts_proc_expansion.specs.Expansion.{callees, expansion};
ghost use Rattle.ts_proc_expansion.specs.Extent.{acts_depth};
ghost use Rattle.ts_proc_expansion.specs.Live.{BecomesSame};
ghost use Rattle.ts_proc_expansion.specs.Plan.{bodies_of};

use crate::statements::block;
use mate_num::NoMemory;
use std::alloc::Global;
use ts_proc_expansion::{DEPTH_MAX, Plan, shorter, within_limits};
use ts_proc_names::{PScript, ProcFault};
use ts_proc_renaming::Hidden;
use ts_proc_renaming::numbers::declarations;
use ts_trees::{Script, Stmt};

/// The plain script that a script with procedures expands to. Its parameters are the private variables `_0`, `_1` and
/// so on, numbered in the order of the procedures and then of their heads, and declared after the script's own names.
/// A `do` becomes the assignments of its arguments, from left to right, and then its procedure's body, expanded. A
/// parameter hides a variable or a buffer of its name within the body, but no function.
///
/// `TooLarge` comes exactly if the expansion has more than 10,000 statements, and `TooNested` exactly if it has at
/// most that many and its blocks nest more than 32 deep; neither writes the expansion out. `NoMemory` may come instead
/// of any answer.
pub fn expand(alloc: Global, script: &PScript) -> Result<Script, ProcFault>
    ensures { Expands (written_of script.now) result }
{
    match within_limits(alloc, script) {
        Ok(()) => Ok(whole(alloc, script)?),
        Err(fault) => Err(fault),
    }
}

// The plain script, whose blocks don't nest too deep.
fn whole(alloc: Global, script: &PScript) -> Result<Script, NoMemory>
    requires { acts_depth (expansion (written_of script.now)).body ≤ DEPTH_MAX }
    ensures { IfOk result (λ new. source_seen new ≡ expansion (written_of script.now)) }
{
    let plan = Plan::of(alloc, script.procs().as_slice())?;
    if plan.has_idle() {
        return shortened(alloc, &plan, script);
    }
    written(alloc, &plan, script, script.body().as_slice())
}

// The plain script, made from procedures and statements whose calls were shortened.
fn shortened(alloc: Global, plan: &Plan, script: &PScript) -> Result<Script, NoMemory>
    requires planned { map procedure_of plan.now.heads.procs.now ≡ (written_of script.now).procs }
    requires shallow { acts_depth (expansion (written_of script.now)).body ≤ DEPTH_MAX }
    ensures { IfOk result (λ new. source_seen new ≡ expansion (written_of script.now)) }
{
    let live = shorter(alloc, plan, script)?;
    let shorter = Plan::of(alloc, live.0.as_slice())?;
    written(alloc, &shorter, script, live.1.as_slice())
}

// The plain script, by a plan of procedures and by statements that expand to the same as the script's.
fn written<'a>(
    alloc: Global,
    plan: &Plan<'a>,
    script: &PScript,
    body: &'a [Stmt],
) -> Result<Script, NoMemory>
    requires planned { bodies_of plan.now.heads.procs.now ≡ callees (written_of script.now).procs }
    requires same { BecomesSame (callees (written_of script.now).procs) (acts_of body.now) (written_of script.now).body }
    requires counted { plan.now.parameters ≡ parameter_count (written_of script.now).procs }
    requires shallow { acts_depth (expansion (written_of script.now)).body ≤ DEPTH_MAX }
    ensures { IfOk result (λ new. source_seen new ≡ expansion (written_of script.now)) }
{
    let decls = declarations(alloc, script.decls().as_slice(), plan.parameters)?;
    let hidden = Hidden::of(alloc, 0, &[])?;
    let body = block(
        alloc,
        plan,
        DEPTH_MAX + 1,
        plan.heads.procs.len(),
        &hidden,
        body,
    )?;
    Ok(Script { decls, body })
}
