//! The checks of expressions and calls.

ghost use Rattle.std.specs.Prelude.{◌≡◌, option_map, pos, true};
ghost use Rattle.mate_num.specs.Number.{wrap};
ghost use Rattle.vm_shape.specs.Limits.{function_args};
ghost use Rattle.vm_shape.specs.Shapes.{sends_buffer};
ghost use Rattle.ts_trees.specs.Seen.{tree_of, trees_of};
ghost use Rattle.ts_trees.specs.Tree as given;
ghost use Rattle.ts_checked.specs.TreeOf.{expr_tree};
ghost use Rattle.ts_checker.specs.Answer.{GivesChecked};
ghost use Rattle.ts_checker.specs.Checks.{variable_expression, name_alone, sent, checked_call, checked_expr, checked_args};
ghost use Rattle.ts_checker.specs.Seen.{scope_names, arguments_of, boxed_expression, call_of};

use crate::called::Called;
use crate::fault::CheckFault;
use crate::scope::Scope;
use mate_num::BufId;
use std::alloc::Global;
use ts_checked::{BinOp, CArgs, CExpr, CVar};
use ts_trees::{Args, Expr, Word};
use vm_shape::FunKind;

/// Checks an expression; `calls` says whether calls are allowed in it.
#[cycle(expression)]
pub(crate) fn expression(
    alloc: Global,
    scope: &Scope,
    calls: bool,
    expr: &Expr,
) -> Result<CExpr, CheckFault>
    ensures { GivesChecked expr_tree result (checked_expr (scope_names scope.now) calls (tree_of expr.now)) }
{
    match expr {
        Expr::Num(literal) => Ok(CExpr::Num(number_of(*literal))),
        Expr::Var(word) => variable(scope, word),
        Expr::Item(word, index) => item(alloc, scope, calls, word, index),
        Expr::Size(word) => size(scope, word),
        Expr::MsgItem(index) => message_item(alloc, scope, calls, index),
        Expr::MsgSize => Ok(CExpr::MsgSize),
        Expr::Call(word, args) => call_in(alloc, scope, calls, word, args),
        Expr::Neg(of) => negative(alloc, scope, calls, of),
        Expr::Not(of) => inverse(alloc, scope, calls, of),
        Expr::Two(op, left, right) => {
            let left = operand(alloc, scope, calls, left)?;
            let right = operand(alloc, scope, calls, right)?;
            Ok(CExpr::Two(*op, left, right))
        }
        Expr::Paren(of) => expression(alloc, scope, calls, of),
    }
}

// The forms of an expression aren't inlined: a function pays at its entry for all that it may hold, and few nodes are
// of one form.

// Checks a part of an expression, and boxes it.
#[inline(never)]
#[cycle(expression)]
fn operand(alloc: Global, scope: &Scope, calls: bool, expr: &Expr) -> Result<Box<CExpr>, CheckFault>
    ensures { GivesChecked boxed_expression result (checked_expr (scope_names scope.now) calls (tree_of expr.now)) }
{
    let checked = expression(alloc, scope, calls, expr)?;
    Ok(Box::new(alloc, checked)?)
}

#[inline(never)]
#[cycle(expression)]
fn item(
    alloc: Global,
    scope: &Scope,
    calls: bool,
    word: &Word,
    index: &Expr,
) -> Result<CExpr, CheckFault>
    ensures { GivesChecked expr_tree result (checked_expr (scope_names scope.now) calls (given.item word.now (tree_of index.now))) }
{
    let buffer = scope.buffer(word)?;
    Ok(CExpr::Item(buffer, operand(alloc, scope, calls, index)?))
}

#[inline(never)]
#[cycle(expression)]
fn message_item(
    alloc: Global,
    scope: &Scope,
    calls: bool,
    index: &Expr,
) -> Result<CExpr, CheckFault>
    ensures { GivesChecked expr_tree result (checked_expr (scope_names scope.now) calls (given.message_item (tree_of index.now))) }
{
    Ok(CExpr::MsgItem(operand(alloc, scope, calls, index)?))
}

#[inline(never)]
#[cycle(expression)]
fn negative(alloc: Global, scope: &Scope, calls: bool, of: &Expr) -> Result<CExpr, CheckFault>
    ensures { GivesChecked expr_tree result (checked_expr (scope_names scope.now) calls (given.negative (tree_of of.now))) }
{
    Ok(CExpr::Neg(operand(alloc, scope, calls, of)?))
}

#[inline(never)]
#[cycle(expression)]
fn inverse(alloc: Global, scope: &Scope, calls: bool, of: &Expr) -> Result<CExpr, CheckFault>
    ensures { GivesChecked expr_tree result (checked_expr (scope_names scope.now) calls (given.inverse (tree_of of.now))) }
{
    Ok(CExpr::Not(operand(alloc, scope, calls, of)?))
}

#[inline(never)]
#[cycle(expression)]
fn call_in(
    alloc: Global,
    scope: &Scope,
    calls: bool,
    word: &Word,
    args: &Args,
) -> Result<CExpr, CheckFault>
    ensures { GivesChecked expr_tree result (checked_expr (scope_names scope.now) calls (given.call word.now (trees_of args.now))) }
{
    Ok(call(alloc, scope, calls, word, args)?.into_expr())
}

#[inline(never)]
fn variable(scope: &Scope, word: &Word) -> Result<CExpr, CheckFault>
    ensures { GivesChecked expr_tree result (checked_expr (scope_names scope.now) true (given.variable word.now)) }
{
    Ok(read(scope.variable(word)?))
}

#[inline(never)]
fn size(scope: &Scope, word: &Word) -> Result<CExpr, CheckFault>
    ensures { GivesChecked expr_tree result (checked_expr (scope_names scope.now) true (given.size word.now)) }
{
    Ok(CExpr::Size(scope.buffer(word)?))
}

/// Checks a call.
#[inline(never)]
#[cycle(expression)]
pub(crate) fn call(
    alloc: Global,
    scope: &Scope,
    calls: bool,
    word: &Word,
    args: &Args,
) -> Result<Called, CheckFault>
    ensures { let names = scope_names scope.now in
        let trees = trees_of args.now in
        GivesChecked call_of result (checked_call names calls word.now trees (checked_args names calls trees)) }
{
    let (fun, kind) = scope.function(word)?;
    let place = word.place;
    if !calls {
        return Err(CheckFault::Kind { place });
    }
    if sends(kind) {
        return Ok(Called::Sends(fun, sent(scope, place, args.as_slice())?));
    }
    if args.len() != arg_count(kind) as usize {
        return Err(CheckFault::Arity { place });
    }
    Ok(Called::Calls(fun, arguments(alloc, scope, calls, args.as_slice())?))
}

// The arguments of a call, from left to right.
#[inline(never)]
#[cycle(expression)]
fn arguments(alloc: Global, scope: &Scope, calls: bool, args: &[Expr]) -> Result<CArgs, CheckFault>
    ensures { GivesChecked arguments_of result (checked_args (scope_names scope.now) calls (trees_of args.now)) }
{
    let mut checked = CArgs::new(alloc);
    for arg in args {
        checked.push(expression(alloc, scope, calls, arg)?)?;
    }
    Ok(checked)
}

// The number that a literal stands for, modulo 65536, from -32768 to 32767.
fn number_of(literal: u16) -> i16
    ensures { result ≡ wrap (pos literal) }
{
    literal.cast_signed()
}

// A variable as an expression.
fn read(variable: CVar) -> CExpr
    ensures { expr_tree result ≡ variable_expression variable }
{
    match variable {
        CVar::Shared(variable) => CExpr::Shared(variable),
        CVar::Private(number) => CExpr::Private(number),
    }
}

// Whether the function sends a buffer.
fn sends(kind: FunKind) -> bool
    ensures { result ≡ sends_buffer kind }
{
    match kind {
        FunKind::Send => true,
        FunKind::Sense | FunKind::Act { .. } | FunKind::Id | FunKind::Rand | FunKind::Clock =>
            false,
    }
}

// How many values the function takes.
fn arg_count(kind: FunKind) -> u8
    ensures { result ≡ function_args kind }
{
    match kind {
        FunKind::Act { args } => args,
        FunKind::Sense | FunKind::Send | FunKind::Id | FunKind::Rand | FunKind::Clock => 0,
    }
}

// The buffer that a call sends, of a function whose name is at `place`: its one argument, a name alone.
fn sent(scope: &Scope, place: u32, args: &[Expr]) -> Result<BufId, CheckFault>
    ensures { result ≡ sent (scope_names scope.now) place (trees_of args.now) }
{
    let [arg] = args else {
        return Err(CheckFault::Arity { place });
    };
    match name_alone(arg) {
        Some(word) => scope.buffer(word),
        None => Err(CheckFault::Kind { place }),
    }
}

// The name that an expression is, if it is a name alone.
fn name_alone(expr: &Expr) -> Option<&Word>
    ensures { option_map (λ word. word.now) result ≡ name_alone (tree_of expr.now) }
{
    match expr {
        Expr::Var(word) => Some(word),
        Expr::Num(_)
        | Expr::Item(..)
        | Expr::Size(_)
        | Expr::MsgItem(_)
        | Expr::MsgSize
        | Expr::Call(..)
        | Expr::Neg(_)
        | Expr::Not(_)
        | Expr::Two(..)
        | Expr::Paren(_) => None,
    }
}
