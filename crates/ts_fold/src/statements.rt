//! Statements: what is left of them goes into the block that they are in.

ghost use Rattle.std.specs.Prelude.{◌≡◌, ◌++◌, [], OnOk, IfOk};
ghost use Rattle.ts_checked.specs.Expression.{arguments};
ghost use Rattle.ts_checked.specs.Statement.{Set, SetItem, Append, Do, If, For, While};
ghost use Rattle.ts_checked.specs.TreeOf.{expr_tree, args_trees, stmt_tree, block_trees, block_tree};
ghost use Rattle.ts_fold.specs.Folded.{decision, folded_expr, folded_stmt, folded_stmts};

use crate::expressions::{arguments, expression, number};
use mate_num::{BufId, FunId, NoMemory};
use std::alloc::Global;
use ts_checked::{CArgs, CBlock, CExpr, CForHead, CStmt, CVar};

/// A block, folded.
#[cycle(block)]
pub(crate) fn block(alloc: Global, body: &CBlock) -> Result<CBlock, NoMemory>
    ensures { IfOk result (λ folded. block_trees folded ≡ folded_stmts (block_tree body.now)) }
{
    let mut folded = room_for(alloc, body.len())?;
    statements(alloc, body, &mut folded)?;
    Ok(folded)
}

// An empty block with room for `count` statements: most blocks have as many as before, and many have one.
fn room_for(alloc: Global, count: usize) -> Result<CBlock, NoMemory>
    ensures { IfOk result (λ room. block_trees room ≡ []) }
{
    Ok(CBlock {
        items: Vec::with_capacity(alloc, count)?,
    })
}

// Appends what is left of a block's statements.
#[cycle(block)]
fn statements(alloc: Global, body: &CBlock, into: &mut CBlock) -> Result<(), NoMemory>
    ensures { OnOk result (block_trees into.new ≡ block_trees into.old ++ folded_stmts (block_tree body.now)) }
{
    for stmt in body.items.as_slice() {
        statement(alloc, stmt, into)?;
    }
    Ok(())
}

// Appends what is left of a statement.
#[cycle(block)]
fn statement(alloc: Global, stmt: &CStmt, into: &mut CBlock) -> Result<(), NoMemory>
    ensures { OnOk result (block_trees into.new ≡ block_trees into.old ++ folded_stmt (stmt_tree stmt.now)) }
{
    match stmt {
        CStmt::Set(variable, value) => set_variable(alloc, *variable, value, into),
        CStmt::SetItem(buffer, index, value) => set_item(alloc, *buffer, index, value, into),
        CStmt::Append(buffer, value) => append(alloc, *buffer, value, into),
        CStmt::Take(variable, buffer) => into.push(CStmt::Take(*variable, *buffer)),
        CStmt::Clear(buffer) => into.push(CStmt::Clear(*buffer)),
        CStmt::Do(fun, args) => call_alone(alloc, *fun, args, into),
        CStmt::SendBuf(fun, buffer) => into.push(CStmt::SendBuf(*fun, *buffer)),
        CStmt::If(test, body, None) => if_then(alloc, body, test, into),
        CStmt::If(test, body, Some(other)) => {
            let test = expression(alloc, test)?;
            match decision(&test) {
                Some(true) => statements(alloc, body, into),
                Some(false) => statements(alloc, other, into),
                None => {
                    let body = block(alloc, body)?;
                    let other = block(alloc, other)?;
                    into.push(CStmt::If(test, body, Some(other)))
                }
            }
        }
        CStmt::For(head, body) => for_next(alloc, body, head, into),
        CStmt::While(test, body) => while_do(alloc, body, test, into),
    }
}

#[cycle(block)]
fn if_then(alloc: Global, body: &CBlock, test: &CExpr, into: &mut CBlock) -> Result<(), NoMemory>
    ensures { OnOk result (block_trees into.new ≡ block_trees into.old ++ folded_stmt (If (expr_tree test.now) (block_tree body.now))) }
{
    let test = expression(alloc, test)?;
    match decision(&test) {
        Some(true) => statements(alloc, body, into),
        Some(false) => Ok(()),
        None => into.push(CStmt::If(test, block(alloc, body)?, None)),
    }
}

#[cycle(block)]
fn for_next(
    alloc: Global,
    body: &CBlock,
    head: &CForHead,
    into: &mut CBlock,
) -> Result<(), NoMemory>
    ensures { let from = expr_tree head.now.from in
        let to = expr_tree head.now.to in
        OnOk result (block_trees into.new ≡ block_trees into.old
        ++ folded_stmt (For head.now.var from to head.now.step (block_tree body.now))) }
{
    let head = for_head(alloc, head)?;
    into.push(CStmt::For(head, block(alloc, body)?))
}

#[cycle(block)]
fn while_do(alloc: Global, body: &CBlock, test: &CExpr, into: &mut CBlock) -> Result<(), NoMemory>
    ensures { OnOk result (block_trees into.new ≡ block_trees into.old ++ folded_stmt (While (expr_tree test.now) (block_tree body.now))) }
{
    let test = expression(alloc, test)?;
    match decision(&test) {
        Some(false) => Ok(()),
        Some(true) | None => into.push(CStmt::While(test, block(alloc, body)?)),
    }
}

fn set_variable(
    alloc: Global,
    variable: CVar,
    value: &CExpr,
    into: &mut CBlock,
) -> Result<(), NoMemory>
    ensures { OnOk result (block_trees into.new ≡ block_trees into.old ++ folded_stmt (Set variable (expr_tree value.now))) }
{
    into.push(CStmt::Set(variable, expression(alloc, value)?))
}

fn set_item(
    alloc: Global,
    buffer: BufId,
    index: &CExpr,
    value: &CExpr,
    into: &mut CBlock,
) -> Result<(), NoMemory>
    ensures { let at = expr_tree index.now in
        OnOk result (block_trees into.new ≡ block_trees into.old ++ folded_stmt (SetItem buffer at (expr_tree value.now))) }
{
    let index = expression(alloc, index)?;
    into.push(CStmt::SetItem(buffer, index, expression(alloc, value)?))
}

fn append(alloc: Global, buffer: BufId, value: &CExpr, into: &mut CBlock) -> Result<(), NoMemory>
    ensures { OnOk result (block_trees into.new ≡ block_trees into.old ++ folded_stmt (Append buffer (expr_tree value.now))) }
{
    into.push(CStmt::Append(buffer, expression(alloc, value)?))
}

fn call_alone(alloc: Global, fun: FunId, args: &CArgs, into: &mut CBlock) -> Result<(), NoMemory>
    ensures { OnOk result (block_trees into.new ≡ block_trees into.old ++ folded_stmt (Do fun (arguments (args_trees args.now)))) }
{
    into.push(CStmt::Do(fun, arguments(alloc, args)?))
}

fn for_head(alloc: Global, head: &CForHead) -> Result<CForHead, NoMemory>
    ensures var { IfOk result (λ new. new.var ≡ head.now.var) }
    ensures from { IfOk result (λ new. expr_tree new.from ≡ folded_expr (expr_tree head.now.from)) }
    ensures to { IfOk result (λ new. expr_tree new.to ≡ folded_expr (expr_tree head.now.to)) }
    ensures step { IfOk result (λ new. new.step ≡ head.now.step) }
{
    let from = expression(alloc, &head.from)?;
    let to = expression(alloc, &head.to)?;
    Ok(CForHead {
        var: head.var,
        from,
        to,
        step: head.step,
    })
}

// Whether a test holds, if it is a number.
fn decision(test: &CExpr) -> Option<bool>
    ensures { result ≡ decision (expr_tree test.now) }
{
    number(test).map(|number| number != 0)
}
