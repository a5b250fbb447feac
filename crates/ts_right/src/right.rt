//! The test that a body is right for a shape.

ghost use Rattle.std.specs.Prelude.{◌≡◌, ◌&&◌};
ghost use Rattle.ts_checked.specs.Expression.{arguments};
ghost use Rattle.ts_checked.specs.Right.{is_right as is_right_for, argument_count, is_shared, is_buffer, is_variable, is_call, is_send_of, is_step, is_head, is_right_expr, are_right, is_right_stmt, is_right_block};
ghost use Rattle.ts_checked.specs.TreeOf.{expr_tree, args_trees, stmt_tree, block_tree};

use crate::shape::shape_is_right;
use mate_num::{BufId, FunId, Shape, VarId};
use ts_checked::{CArgs, CBlock, CExpr, CForHead, CStmt, CVar};

/// Whether a body is right for a shape: the shape is within the limits of a machine, each name is in
/// range, each call has its function's arguments, no call is in the limit of a `for`, and each step is
/// from -32767 to 32767 and not 0.
pub fn is_right(shape: &Shape, body: &CBlock) -> bool
    ensures { result ≡ is_right_for shape.now (block_tree body.now) }
{
    shape_is_right(shape) && block_is_right(shape, body)
}

fn shared_is_right(shape: &Shape, variable: VarId) -> bool
    ensures { result ≡ is_shared shape.now variable }
{
    variable.0 < shape.shared
}

fn buffer_is_right(shape: &Shape, buffer: BufId) -> bool
    ensures { result ≡ is_buffer shape.now buffer }
{
    buffer.0 < shape.buffers
}

fn variable_is_right(shape: &Shape, variable: CVar) -> bool
    ensures { result ≡ is_variable shape.now variable }
{
    match variable {
        CVar::Shared(variable) => shared_is_right(shape, variable),
        CVar::Private(private) => private < 8,
    }
}

fn count_is_right(shape: &Shape, fun: FunId, count: usize) -> bool
    ensures { result ≡ is_call shape.now fun count }
{
    match shape.functions.as_slice().get(fun.0 as usize) {
        None => false,
        Some(function) => !function.send && function.args as usize == count,
    }
}

fn send_is_right(shape: &Shape, fun: FunId, buffer: BufId) -> bool
    ensures { result ≡ is_send_of shape.now fun buffer }
{
    match shape.functions.as_slice().get(fun.0 as usize) {
        None => false,
        Some(function) => function.send && buffer_is_right(shape, buffer),
    }
}

fn step_is_right(step: i16) -> bool
    ensures { result ≡ is_step step }
{
    step != 0 && step != i16::MIN
}

// `calls` says whether calls are allowed.
#[cycle(expr_is_right)]
fn expr_is_right(shape: &Shape, calls: bool, expr: &CExpr) -> bool
    ensures { result ≡ is_right_expr shape.now calls (expr_tree expr.now) }
{
    match expr {
        CExpr::Num(_) => true,
        CExpr::Shared(variable) => shared_is_right(shape, *variable),
        CExpr::Private(private) => *private < 8,
        CExpr::Item(buffer, index) => {
            buffer_is_right(shape, *buffer) && expr_is_right(shape, calls, index)
        }
        CExpr::Size(buffer) => buffer_is_right(shape, *buffer),
        CExpr::MsgItem(index) => expr_is_right(shape, calls, index),
        CExpr::MsgSize => true,
        CExpr::Call(fun, args) => calls && call_is_right(shape, calls, *fun, args),
        CExpr::SendBuf(fun, buffer) => calls && send_is_right(shape, *fun, *buffer),
        CExpr::Neg(of) => expr_is_right(shape, calls, of),
        CExpr::Not(of) => expr_is_right(shape, calls, of),
        CExpr::Two(_, left, right) => {
            expr_is_right(shape, calls, left) && expr_is_right(shape, calls, right)
        }
    }
}

#[cycle(expr_is_right)]
#[tactic(auto, using(crate::proofs::RightLemmas::counts))]
fn call_is_right(shape: &Shape, calls: bool, fun: FunId, args: &CArgs) -> bool
    ensures { let given = arguments (args_trees args.now) in
        result ≡ (is_call shape.now fun (argument_count given) && are_right shape.now calls given) }
{
    count_is_right(shape, fun, args.len()) && args_are_right(shape, calls, args)
}

#[cycle(expr_is_right)]
fn args_are_right(shape: &Shape, calls: bool, args: &CArgs) -> bool
    ensures { result ≡ are_right shape.now calls (arguments (args_trees args.now)) }
{
    for arg in args.items.as_slice() {
        if !expr_is_right(shape, calls, arg) {
            return false;
        }
    }
    true
}

#[cycle(stmt_is_right)]
fn stmt_is_right(shape: &Shape, stmt: &CStmt) -> bool
    ensures { result ≡ is_right_stmt shape.now (stmt_tree stmt.now) }
{
    match stmt {
        CStmt::Set(variable, value) => {
            variable_is_right(shape, *variable) && expr_is_right(shape, true, value)
        }
        CStmt::SetItem(buffer, index, value) => {
            buffer_is_right(shape, *buffer)
                && expr_is_right(shape, true, index)
                && expr_is_right(shape, true, value)
        }
        CStmt::Append(buffer, value) => {
            buffer_is_right(shape, *buffer) && expr_is_right(shape, true, value)
        }
        CStmt::Take(variable, buffer) => {
            variable_is_right(shape, *variable) && buffer_is_right(shape, *buffer)
        }
        CStmt::Clear(buffer) => buffer_is_right(shape, *buffer),
        CStmt::Do(fun, args) => call_is_right(shape, true, *fun, args),
        CStmt::SendBuf(fun, buffer) => send_is_right(shape, *fun, *buffer),
        CStmt::If(test, body, None) => {
            expr_is_right(shape, true, test) && block_is_right(shape, body)
        }
        CStmt::If(test, body, Some(other)) => {
            expr_is_right(shape, true, test)
                && block_is_right(shape, body)
                && block_is_right(shape, other)
        }
        CStmt::For(head, body) => head_is_right(shape, head) && block_is_right(shape, body),
        CStmt::While(test, body) => {
            expr_is_right(shape, true, test) && block_is_right(shape, body)
        }
    }
}

fn head_is_right(shape: &Shape, head: &CForHead) -> bool
    ensures { let from = expr_tree head.now.from in
        result ≡ is_head shape.now head.now.var from (expr_tree head.now.to) head.now.step }
{
    variable_is_right(shape, head.var)
        && expr_is_right(shape, true, &head.from)
        && expr_is_right(shape, false, &head.to)
        && step_is_right(head.step)
}

#[cycle(stmt_is_right)]
fn block_is_right(shape: &Shape, block: &CBlock) -> bool
    ensures { result ≡ is_right_block shape.now (block_tree block.now) }
{
    for stmt in block.items.as_slice() {
        if !stmt_is_right(shape, stmt) {
            return false;
        }
    }
    true
}
