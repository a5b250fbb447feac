//! Expressions, with the names that parameters hide renamed.

ghost use Rattle.std.specs.Prelude.{◌≡◌, IfOk};
ghost use Rattle.ts_trees.specs.Seen.{tree_of, trees_of};
ghost use Rattle.ts_proc_renaming.specs.Renaming.{renamed, renamed_expr, renamed_args};
ghost use Rattle.ts_proc_renaming.specs.Hidden.{hiding_of};

use crate::copies::same;
use crate::hidden::Hidden;
use mate_num::NoMemory;
use std::alloc::Global;
use ts_trees::{Args, Expr, ForHead};

// The renamed expression is put into `boxed`, so that a node takes one call.
#[cycle(expression)]
#[inline(always)]
pub(crate) fn expression(alloc: Global, hidden: &Hidden, expr: &Expr) -> Result<Expr, NoMemory>
    ensures { IfOk result (λ new. tree_of new ≡ renamed_expr (hiding_of hidden.now) (tree_of expr.now)) }
{
    match expr {
        Expr::Num(number) => Ok(Expr::Num(*number)),
        Expr::Var(name) => Ok(Expr::Var(hidden.word(name))),
        Expr::Item(name, index) => {
            let index = boxed(alloc, hidden, index)?;
            Ok(Expr::Item(hidden.word(name), index))
        }
        Expr::Size(name) => Ok(Expr::Size(hidden.word(name))),
        Expr::MsgItem(index) => Ok(Expr::MsgItem(boxed(alloc, hidden, index)?)),
        Expr::MsgSize => Ok(Expr::MsgSize),
        Expr::Call(name, args) => {
            let args = arguments(alloc, hidden, args.as_slice())?;
            Ok(Expr::Call(same(name), args))
        }
        Expr::Neg(of) => Ok(Expr::Neg(boxed(alloc, hidden, of)?)),
        Expr::Not(of) => Ok(Expr::Not(boxed(alloc, hidden, of)?)),
        Expr::Two(op, left, right) => {
            let left = boxed(alloc, hidden, left)?;
            let right = boxed(alloc, hidden, right)?;
            Ok(Expr::Two(*op, left, right))
        }
        Expr::Paren(of) => Ok(Expr::Paren(boxed(alloc, hidden, of)?)),
    }
}

// A part of an expression. It isn't inlined: a node is large, and the expressions around it are still being made.
#[cycle(expression)]
#[inline(never)]
fn boxed(alloc: Global, hidden: &Hidden, part: &Box<Expr>) -> Result<Box<Expr>, NoMemory>
    ensures { IfOk result (λ new. tree_of new.value ≡ renamed_expr (hiding_of hidden.now) (tree_of part.now.value)) }
{
    let part = expression(alloc, hidden, part)?;
    Ok(Box::new(alloc, part)?)
}

#[cycle(expression)]
pub(crate) fn arguments(alloc: Global, hidden: &Hidden, args: &[Expr]) -> Result<Args, NoMemory>
    ensures { IfOk result (λ new. trees_of new ≡ renamed_args (hiding_of hidden.now) (trees_of args.now)) }
{
    let mut renamed = Args::new(alloc);
    for arg in args {
        renamed.push(expression(alloc, hidden, arg)?)?;
    }
    Ok(renamed)
}

pub(crate) fn for_head(alloc: Global, hidden: &Hidden, head: &ForHead) -> Result<ForHead, NoMemory>
    ensures var { IfOk result (λ new. new.var ≡ renamed (hiding_of hidden.now) head.now.var) }
    ensures from { IfOk result (λ new. tree_of new.from ≡ renamed_expr (hiding_of hidden.now) (tree_of head.now.from)) }
    ensures to { IfOk result (λ new. tree_of new.to ≡ renamed_expr (hiding_of hidden.now) (tree_of head.now.to)) }
    ensures step { IfOk result (λ new. new.step ≡ head.now.step) }
{
    let var = hidden.word(&head.var);
    let from = expression(alloc, hidden, &head.from)?;
    let to = expression(alloc, hidden, &head.to)?;
    Ok(ForHead {
        var,
        from,
        to,
        step: head.step,
    })
}
