//! The checks of statements.

ghost use Rattle.std.specs.Prelude.{◌≡◌, [], IfOk};
ghost use Rattle.ts_trees.specs.Seen.{tree_of, trees_of, act_of, acts_of};
ghost use Rattle.ts_trees.specs.Tree as given;
ghost use Rattle.ts_checked.specs.TreeOf.{stmt_tree, block_tree, block_trees};
ghost use Rattle.ts_checker.specs.Answer.{GivesChecked};
ghost use Rattle.ts_checker.specs.Checks.{checked_step, checked_head, checked_stmt, checked_block};
ghost use Rattle.ts_checker.specs.Seen.{scope_names, checked_head_of};

use crate::exprs::{call, expression};
use crate::fault::CheckFault;
use crate::scope::Scope;
use mate_num::NoMemory;
use std::alloc::Global;
use ts_checked::{CBlock, CForHead, CStmt};
use ts_trees::{Args, Block, Expr, ForHead, Step, Stmt, Word};

/// Checks the statements of a block.
#[cycle(block)]
pub(crate) fn block(alloc: Global, scope: &Scope, stmts: &Block) -> Result<CBlock, CheckFault>
    ensures { GivesChecked block_tree result (checked_block (scope_names scope.now) (acts_of stmts.now)) }
{
    let mut checked = room_for(alloc, stmts.len())?;
    for stmt in stmts.as_slice() {
        checked.push(statement(alloc, scope, stmt)?)?;
    }
    Ok(checked)
}

// An empty block with room for `count` statements.
fn room_for(alloc: Global, count: usize) -> Result<CBlock, NoMemory>
    ensures { IfOk result (λ room. block_trees room ≡ []) }
{
    Ok(CBlock {
        items: Vec::with_capacity(alloc, count)?,
    })
}

#[cycle(block)]
fn statement(alloc: Global, scope: &Scope, stmt: &Stmt) -> Result<CStmt, CheckFault>
    ensures { GivesChecked stmt_tree result (checked_stmt (scope_names scope.now) (act_of stmt.now)) }
{
    match stmt {
        Stmt::Set(word, value) => set_variable(alloc, scope, word, value),
        Stmt::SetItem(word, index, value) => set_item(alloc, scope, word, index, value),
        Stmt::Append(word, value) => append(alloc, scope, word, value),
        Stmt::Take(word, from) => take_last(scope, word, from),
        Stmt::Clear(word) => clear(scope, word),
        Stmt::Do(word, args) => call_alone(alloc, scope, word, args),
        Stmt::If(test, body, other) => {
            let test = expression(alloc, scope, true, test)?;
            let body = block(alloc, scope, body)?;
            let other = match other {
                Some(other) => Some(block(alloc, scope, other)?),
                None => None,
            };
            Ok(CStmt::If(test, body, other))
        }
        Stmt::For(head, body, next) => for_next(alloc, scope, body, head, next),
        Stmt::While(test, body) => while_do(alloc, scope, body, test),
        Stmt::Run(word, _) => Err(no_procedure(word)),
    }
}

#[inline(never)]
#[cycle(block)]
fn for_next(
    alloc: Global,
    scope: &Scope,
    body: &Block,
    head: &ForHead,
    next: &Word,
) -> Result<CStmt, CheckFault>
    ensures { let from = tree_of head.now.from in
        let to = tree_of head.now.to in
        GivesChecked stmt_tree result (checked_stmt (scope_names scope.now)
        (given.for_next head.now.var from to head.now.step (acts_of body.now) next.now)) }
{
    let checked = for_head(alloc, scope, head)?;
    let body = block(alloc, scope, body)?;
    scope.closes(&head.var, next)?;
    Ok(CStmt::For(checked, body))
}

#[inline(never)]
#[cycle(block)]
fn while_do(alloc: Global, scope: &Scope, body: &Block, test: &Expr) -> Result<CStmt, CheckFault>
    ensures { GivesChecked stmt_tree result (checked_stmt (scope_names scope.now) (given.while_do (tree_of test.now) (acts_of body.now))) }
{
    let test = expression(alloc, scope, true, test)?;
    Ok(CStmt::While(test, block(alloc, scope, body)?))
}

#[inline(never)]
fn set_variable(
    alloc: Global,
    scope: &Scope,
    word: &Word,
    value: &Expr,
) -> Result<CStmt, CheckFault>
    ensures { GivesChecked stmt_tree result (checked_stmt (scope_names scope.now) (given.set word.now (tree_of value.now))) }
{
    let variable = scope.variable(word)?;
    Ok(CStmt::Set(variable, expression(alloc, scope, true, value)?))
}

#[inline(never)]
fn set_item(
    alloc: Global,
    scope: &Scope,
    word: &Word,
    index: &Expr,
    value: &Expr,
) -> Result<CStmt, CheckFault>
    ensures { GivesChecked stmt_tree result (checked_stmt (scope_names scope.now)
        (given.set_item word.now (tree_of index.now) (tree_of value.now))) }
{
    let buffer = scope.buffer(word)?;
    let index = expression(alloc, scope, true, index)?;
    let value = expression(alloc, scope, true, value)?;
    Ok(CStmt::SetItem(buffer, index, value))
}

#[inline(never)]
fn append(alloc: Global, scope: &Scope, word: &Word, value: &Expr) -> Result<CStmt, CheckFault>
    ensures { GivesChecked stmt_tree result (checked_stmt (scope_names scope.now) (given.append word.now (tree_of value.now))) }
{
    let buffer = scope.buffer(word)?;
    Ok(CStmt::Append(buffer, expression(alloc, scope, true, value)?))
}

#[inline(never)]
fn take_last(scope: &Scope, word: &Word, from: &Word) -> Result<CStmt, CheckFault>
    ensures { GivesChecked stmt_tree result (checked_stmt (scope_names scope.now) (given.take_last word.now from.now)) }
{
    let variable = scope.variable(word)?;
    Ok(CStmt::Take(variable, scope.buffer(from)?))
}

#[inline(never)]
fn clear(scope: &Scope, word: &Word) -> Result<CStmt, CheckFault>
    ensures { GivesChecked stmt_tree result (checked_stmt (scope_names scope.now) (given.clear word.now)) }
{
    Ok(CStmt::Clear(scope.buffer(word)?))
}

#[inline(never)]
fn call_alone(alloc: Global, scope: &Scope, word: &Word, args: &Args) -> Result<CStmt, CheckFault>
    ensures { GivesChecked stmt_tree result (checked_stmt (scope_names scope.now) (given.call_alone word.now (trees_of args.now))) }
{
    Ok(call(alloc, scope, true, word, args)?.into_stmt())
}

// A machine has no procedures.
#[inline(never)]
fn no_procedure(word: &Word) -> CheckFault
    ensures { result ≡ CheckFault.Undeclared word.now.name word.now.place }
{
    CheckFault::Undeclared {
        name: word.name.copy(),
        place: word.place,
    }
}

#[inline(never)]
fn for_head(alloc: Global, scope: &Scope, head: &ForHead) -> Result<CForHead, CheckFault>
    ensures { let from = tree_of head.now.from in
        GivesChecked checked_head_of result (checked_head (scope_names scope.now) head.now.var from (tree_of head.now.to) head.now.step) }
{
    let var = scope.variable(&head.var)?;
    let from = expression(alloc, scope, true, &head.from)?;
    let to = expression(alloc, scope, false, &head.to)?;
    let step = step_size(head.step)?;
    Ok(CForHead {
        var,
        from,
        to,
        step,
    })
}

// The step of a `for`: 1 if none is written, else from -32767 to 32767, and not 0; `Kind` for any other.
fn step_size(step: Option<Step>) -> Result<i16, CheckFault>
    ensures { result ≡ checked_step step }
{
    let Some(step) = step else {
        return Ok(1);
    };
    if step.size == 0 || step.size > 32767 {
        return Err(CheckFault::Kind { place: step.place });
    }
    let size = step.size as i16;
    Ok(if step.minus { -size } else { size })
}
