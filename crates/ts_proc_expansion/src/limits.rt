//! Whether the expansion of a script keeps its limits.

ghost use Rattle.std.specs.Prelude.{◌≡◌, ◌≤◌, min, map};
ghost use Rattle.ts_trees.specs.Seen.{procedure_of};
ghost use Rattle.ts_proc_names.specs.Named.{written_of};
ghost use Rattle.ts_proc_expansion.specs.declared.limits.TheConstants.{STATEMENTS_MAX};
ghost use Rattle.ts_proc_expansion.specs.declared.extent.TheConstants.{COUNT_MAX};
ghost use Rattle.ts_proc_expansion.specs.Answer.{IsWithinOr};
ghost use Rattle.ts_proc_expansion.specs.Expansion.{expansion};
ghost use Rattle.ts_proc_expansion.specs.Extent.{acts_count, acts_depth};

use crate::extent::{Extent, block_extent};
use crate::plan::Plan;
use std::alloc::Global;
use ts_proc_names::{PScript, ProcFault};

/// The greatest number of statements of an expansion, those inside blocks counted.
pub const STATEMENTS_MAX: u32 = 10_000;

/// How deep the blocks of an expansion may nest.
pub const DEPTH_MAX: u32 = 32;

/// Whether an expansion has at most 10,000 statements in blocks that nest at most 32 deep. `TooLarge` comes exactly if
/// it has more statements, and `TooNested` exactly if it hasn't and its blocks nest deeper. `NoMemory` may come instead
/// of any answer.
pub fn within_limits(alloc: Global, script: &PScript) -> Result<(), ProcFault>
    ensures { IsWithinOr (written_of script.now) result }
{
    let plan = Plan::of(alloc, script.procs().as_slice())?;
    let extent = whole_extent(&plan, script);
    if extent.count > STATEMENTS_MAX {
        return Err(ProcFault::TooLarge {
            count: extent.count,
        });
    }
    if extent.depth > DEPTH_MAX {
        return Err(ProcFault::TooNested {
            depth: extent.depth,
        });
    }
    Ok(())
}

// How large the expansion is, by a plan of the script's procedures.
fn whole_extent(plan: &Plan, script: &PScript) -> Extent
    requires { map procedure_of plan.now.heads.procs.now ≡ (written_of script.now).procs }
    ensures count { result.count ≡ min COUNT_MAX (acts_count (expansion (written_of script.now)).body) }
    ensures depth { result.count ≤ STATEMENTS_MAX → result.depth ≡ acts_depth (expansion (written_of script.now)).body }
{
    block_extent(
        &plan.heads,
        plan.extents.as_slice(),
        plan.heads.procs.len(),
        script.body(),
    )
}
