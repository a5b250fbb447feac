//! A `do`: the assignments of its arguments, and the body of its procedure.

ghost use Rattle.std.specs.Prelude.{◌≡◌, ◌≤◌, ◌<◌, ◌+◌, ◌++◌, map, take, IfOk};
ghost use Rattle.ts_trees.specs.Seen.{act_of, acts, trees_of};
ghost use Rattle.ts_trees.specs.Tree.{run_procedure};
ghost use Rattle.ts_proc_names.specs.Places.{declared_as};
ghost use Rattle.ts_proc_expansion.specs.Expansion.{body_called};
ghost use Rattle.ts_proc_expansion.specs.Extent.{acts_depth};
ghost use Rattle.ts_proc_renaming.specs.Hidden.{hiding_of};
ghost use Rattle.ts_proc_expansion.specs.Plan.{bodies_of};
ghost use Rattle.ts_procs.specs.Pending.{left_if, steps_if, steps_of_bodies, act_steps};

use crate::pending::Pending;
use mate_num::NoMemory;
use std::alloc::Global;
use ts_proc_expansion::Plan;
use ts_proc_renaming::Hidden;
use ts_proc_renaming::statements::assignments;
use ts_trees::{Args, Block, Word};

/// Appends the assignments of a `do`, and returns the body of its procedure if it has statements.
pub fn call<'a>(
    alloc: Global,
    plan: &Plan<'a>,
    count: usize,
    hidden: &Hidden<'a>,
    name: &Word,
    args: &Args,
    written: &mut Block,
) -> Result<Option<Pending<'a>>, NoMemory>
    ensures wrote { let procs = plan.now.heads.procs.now in
        let callee = declared_as (take count (bodies_of procs)) name.now.name in
        let becomes = body_called (hiding_of hidden.now) name.now (trees_of args.now) callee in
        IfOk result (λ body. map act_of written.new ++ left_if procs body ≡ map act_of written.old ++ becomes) }
    ensures shallow { let procs = plan.now.heads.procs.now in
        let callee = declared_as (take count (bodies_of procs)) name.now.name in
        let becomes = body_called (hiding_of hidden.now) name.now (trees_of args.now) callee in
        IfOk result (λ body. acts_depth (acts (left_if procs body)) ≤ acts_depth (acts becomes)) }
    ensures steps { let procs = plan.now.heads.procs.now in
        let run = run_procedure name.now (trees_of args.now) in
        IfOk result (λ body. steps_if procs body < act_steps (take count (steps_of_bodies procs)) run) }
{
    let Some(place) = plan.heads.place(count, &name.name) else {
        return Ok(None);
    };
    let proc = &plan.heads.procs[place];
    let params = proc.params.as_slice();
    let first = plan.firsts[place];
    let args = args.as_slice();
    let args = &args[..args.len().min(params.len())];
    assignments(alloc, hidden, name.place, first, args, written)?;
    if plan.extents[place].count == 0 {
        return Ok(None);
    }
    Ok(Some(Pending {
        stmts: proc.body.as_slice(),
        count: place,
        hidden: Hidden::of(alloc, first, params)?,
    }))
}
