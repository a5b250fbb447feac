//! Statements, with the body of its procedure in the place of each `do`.

ghost use Rattle.std.specs.Prelude.{◌≡◌, ◌≤◌, ◌<◌, ◌+◌, ◌++◌, map, take, IfOk, OnOk};
ghost use Rattle.ts_trees.specs.Seen.{act_of, acts_of, acts};
ghost use Rattle.ts_proc_expansion.specs.Expansion.{expanded_act, expanded_acts};
ghost use Rattle.ts_proc_expansion.specs.Extent.{acts_depth};
ghost use Rattle.ts_proc_renaming.specs.Hidden.{hiding_of};
ghost use Rattle.ts_proc_expansion.specs.Plan.{bodies_of};
ghost use Rattle.ts_procs.specs.Pending.{left_if, steps_if, steps_of_bodies, act_steps};

use crate::calls::call;
use crate::pending::Pending;
use crate::stack::{push_if, push_next};
use mate_num::NoMemory;
use std::alloc::Global;
use ts_proc_expansion::Plan;
use ts_proc_renaming::Hidden;
use ts_proc_renaming::statements::{for_next, if_else, if_then, simple, while_do};
use ts_trees::{Block, Stmt};

/// The expansion of a block after `count` procedures, whose blocks nest less than `depth` deep.
#[cycle(block)]
pub(crate) fn block<'a>(
    alloc: Global,
    plan: &Plan<'a>,
    depth: u32,
    count: usize,
    hidden: &Hidden<'a>,
    stmts: &'a [Stmt],
) -> Result<Block, NoMemory>
    requires { let known = take count (bodies_of plan.now.heads.procs.now) in
        acts_depth (acts (expanded_acts known (hiding_of hidden.now) (acts_of stmts.now))) < depth }
    ensures { let known = take count (bodies_of plan.now.heads.procs.now) in
        IfOk result (λ new. map act_of new ≡ expanded_acts known (hiding_of hidden.now) (acts_of stmts.now)) }
{
    let depth = depth - 1;
    let mut written = Block::new(alloc);
    for stmt in stmts {
        let body = statement(alloc, plan, depth, count, hidden, stmt, &mut written)?;
        bodies(alloc, plan, depth, body, &mut written)?;
    }
    Ok(written)
}

// Appends what the body of a `do` becomes. The bodies that are still to be written are kept on a stack of their own,
// so that a chain of procedures may be as long as a source is.
#[cycle(block)]
fn bodies<'a>(
    alloc: Global,
    plan: &Plan<'a>,
    depth: u32,
    body: Option<Pending<'a>>,
    written: &mut Block,
) -> Result<(), NoMemory>
    requires { acts_depth (acts (left_if plan.now.heads.procs.now body)) ≤ depth }
    ensures { OnOk result (map act_of written.new ≡ map act_of written.old ++ left_if plan.now.heads.procs.now body.entry) }
{
    let mut stack = Vec::new(alloc);
    push_if(&mut stack, body)?;
    while let Some(pending) = stack.pop() {
        let Some((stmt, rest)) = pending.split_first() else {
            continue;
        };
        let body = statement(alloc, plan, depth, rest.count, &rest.hidden, stmt, written)?;
        push_next(&mut stack, rest, body)?;
    }
    Ok(())
}

// Appends what a statement becomes, except for the body of a `do`, which is returned if it has statements.
#[cycle(block)]
fn statement<'a>(
    alloc: Global,
    plan: &Plan<'a>,
    depth: u32,
    count: usize,
    hidden: &Hidden<'a>,
    stmt: &'a Stmt,
    written: &mut Block,
) -> Result<Option<Pending<'a>>, NoMemory>
    requires { let known = take count (bodies_of plan.now.heads.procs.now) in
        acts_depth (acts (expanded_act known (hiding_of hidden.now) (act_of stmt.now))) ≤ depth }
    ensures wrote { let procs = plan.now.heads.procs.now in
        let becomes = expanded_act (take count (bodies_of procs)) (hiding_of hidden.now) (act_of stmt.now) in
        IfOk result (λ body. map act_of written.new ++ left_if procs body ≡ map act_of written.old ++ becomes) }
    ensures shallow { let procs = plan.now.heads.procs.now in
        IfOk result (λ body. acts_depth (acts (left_if procs body)) ≤ depth) }
    ensures steps { let procs = plan.now.heads.procs.now in
        IfOk result (λ body. steps_if procs body < act_steps (take count (steps_of_bodies procs)) (act_of stmt.now)) }
{
    match stmt {
        Stmt::Set(..)
        | Stmt::SetItem(..)
        | Stmt::Append(..)
        | Stmt::Take(..)
        | Stmt::Clear(_)
        | Stmt::Do(..) => simple(alloc, hidden, stmt, written)?,
        Stmt::If(test, body, None) => {
            let body = block(alloc, plan, depth, count, hidden, body.as_slice())?;
            if_then(alloc, hidden, test, body, written)?;
        }
        Stmt::If(test, body, Some(other)) => {
            let body = block(alloc, plan, depth, count, hidden, body.as_slice())?;
            let other = block(alloc, plan, depth, count, hidden, other.as_slice())?;
            if_else(alloc, hidden, test, body, other, written)?;
        }
        Stmt::For(head, body, next) => {
            let body = block(alloc, plan, depth, count, hidden, body.as_slice())?;
            for_next(alloc, hidden, head, body, next, written)?;
        }
        Stmt::While(test, body) => {
            let body = block(alloc, plan, depth, count, hidden, body.as_slice())?;
            while_do(alloc, hidden, test, body, written)?;
        }
        Stmt::Run(name, args) => return call(alloc, plan, count, hidden, name, args, written),
    }
    Ok(None)
}
