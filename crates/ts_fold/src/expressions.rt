//! Expressions: an operation whose operands are numbers becomes its value.

ghost use Rattle.std.specs.Prelude.{◌≡◌, IfOk};
ghost use Rattle.std.specs.Option.{option_and_then};
ghost use Rattle.std.specs.Result.{result_ok};
ghost use Rattle.mate_num.specs.Operators.{negative_of, not_of};
ghost use Rattle.ts_checked.specs.Expression.{arguments};
ghost use Rattle.ts_checked.specs.TreeOf.{expr_tree, args_trees};
ghost use Rattle.ts_fold.specs.Folded.{literal_of, operated, negation, inverse, operation, folded_expr, folded_args};

use mate_num::{NoMemory, Num16};
use std::alloc::Global;
use ts_checked::{BinOp, CArgs, CExpr};
use ts_semantics::apply;

/// An expression, folded.
#[cycle(expression)]
pub(crate) fn expression(alloc: Global, expr: &CExpr) -> Result<CExpr, NoMemory>
    ensures { IfOk result (λ e. expr_tree e ≡ folded_expr (expr_tree expr.now)) }
{
    match expr {
        CExpr::Num(number) => Ok(CExpr::Num(*number)),
        CExpr::Shared(variable) => Ok(CExpr::Shared(*variable)),
        CExpr::Private(private) => Ok(CExpr::Private(*private)),
        CExpr::Item(buffer, index) => {
            let index = expression(alloc, index)?;
            Ok(CExpr::Item(*buffer, Box::new(alloc, index)?))
        }
        CExpr::Size(buffer) => Ok(CExpr::Size(*buffer)),
        CExpr::MsgItem(index) => {
            let index = expression(alloc, index)?;
            Ok(CExpr::MsgItem(Box::new(alloc, index)?))
        }
        CExpr::MsgSize => Ok(CExpr::MsgSize),
        CExpr::Call(fun, args) => Ok(CExpr::Call(*fun, arguments(alloc, args)?)),
        CExpr::SendBuf(fun, buffer) => Ok(CExpr::SendBuf(*fun, *buffer)),
        CExpr::Neg(of) => negation(alloc, expression(alloc, of)?),
        CExpr::Not(of) => inverse(alloc, expression(alloc, of)?),
        CExpr::Two(op, left, right) => {
            let left = expression(alloc, left)?;
            let right = expression(alloc, right)?;
            operation(alloc, *op, left, right)
        }
    }
}

/// Arguments, folded.
#[cycle(expression)]
pub(crate) fn arguments(alloc: Global, args: &CArgs) -> Result<CArgs, NoMemory>
    ensures { IfOk result (λ folded. arguments (args_trees folded) ≡ folded_args (arguments (args_trees args.now))) }
{
    let mut folded = CArgs::new(alloc);
    for arg in args.items.as_slice() {
        folded.push(expression(alloc, arg)?)?;
    }
    Ok(folded)
}

/// The number that an expression is; None unless it is a number.
pub(crate) fn number(expr: &CExpr) -> Option<i16>
    ensures { result ≡ literal_of (expr_tree expr.now) }
{
    match expr {
        CExpr::Num(number) => Some(*number),
        CExpr::Shared(_)
        | CExpr::Private(_)
        | CExpr::Item(..)
        | CExpr::Size(_)
        | CExpr::MsgItem(_)
        | CExpr::MsgSize
        | CExpr::Call(..)
        | CExpr::SendBuf(..)
        | CExpr::Neg(_)
        | CExpr::Not(_)
        | CExpr::Two(..) => None,
    }
}

// `-e`, with `of` folded.
fn negation(alloc: Global, of: CExpr) -> Result<CExpr, NoMemory>
    ensures { IfOk result (λ e. expr_tree e ≡ negation (expr_tree of)) }
{
    match negated(number(&of)) {
        Some(number) => Ok(CExpr::Num(number)),
        None => Ok(CExpr::Neg(Box::new(alloc, of)?)),
    }
}

// `not e`, with `of` folded.
fn inverse(alloc: Global, of: CExpr) -> Result<CExpr, NoMemory>
    ensures { IfOk result (λ e. expr_tree e ≡ inverse (expr_tree of)) }
{
    match inverted(number(&of)) {
        Some(number) => Ok(CExpr::Num(number)),
        None => Ok(CExpr::Not(Box::new(alloc, of)?)),
    }
}

// `left op right`, with both folded.
fn operation(alloc: Global, op: BinOp, left: CExpr, right: CExpr) -> Result<CExpr, NoMemory>
    ensures { IfOk result (λ e. expr_tree e ≡ operation op (expr_tree left) (expr_tree right)) }
{
    match operated(op, number(&left), number(&right)) {
        Some(number) => Ok(CExpr::Num(number)),
        None => {
            let left = Box::new(alloc, left)?;
            Ok(CExpr::Two(op, left, Box::new(alloc, right)?))
        }
    }
}

fn negated(number: Option<i16>) -> Option<i16>
    ensures { result ≡ option_and_then (λ a. result_ok (negative_of a)) number }
{
    Some(Num16(number?).neg().0)
}

fn inverted(number: Option<i16>) -> Option<i16>
    ensures { result ≡ option_and_then (λ a. result_ok (not_of a)) number }
{
    Some(Num16(number?).not().0)
}

// The operator's value; None if an operand is no number or the operator faults.
fn operated(op: BinOp, left: Option<i16>, right: Option<i16>) -> Option<i16>
    ensures { result ≡ operated op left right }
{
    apply(op, left?, right?).ok()
}
