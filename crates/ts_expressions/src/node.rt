//! The nodes of expressions, each made of its parts and boxed. They aren't inlined: a node is large, and the parser
//! that calls them is recursive.

ghost use Rattle.std.specs.Prelude.{◌≡◌, IfOk};
ghost use Rattle.ts_expressions.specs.Boxed.{boxed_tree};
ghost use Rattle.ts_trees.specs.Tree.{number, variable, size, message_size, call, negative, inverse, two, paren, item, message_item};
ghost use Rattle.ts_trees.specs.Seen.{trees_of};

use std::alloc::{AllocError, Global};
use ts_checked::BinOp;
use ts_trees::{Args, Expr, Word};

#[inline(never)]
pub fn number(alloc: Global, value: u16) -> Result<Box<Expr>, AllocError>
    ensures { IfOk result (λ e. boxed_tree e ≡ number value) }
{
    Ok(Box::new(alloc, Expr::Num(value))?)
}

#[inline(never)]
pub fn variable(alloc: Global, word: Word) -> Result<Box<Expr>, AllocError>
    ensures { IfOk result (λ e. boxed_tree e ≡ variable word) }
{
    Ok(Box::new(alloc, Expr::Var(word))?)
}

#[inline(never)]
pub fn buffer_size(alloc: Global, buffer: Word) -> Result<Box<Expr>, AllocError>
    ensures { IfOk result (λ e. boxed_tree e ≡ size buffer) }
{
    Ok(Box::new(alloc, Expr::Size(buffer))?)
}

#[inline(never)]
pub fn message_size(alloc: Global) -> Result<Box<Expr>, AllocError>
    ensures { IfOk result (λ e. boxed_tree e ≡ message_size) }
{
    Ok(Box::new(alloc, Expr::MsgSize)?)
}

#[inline(never)]
pub fn call(alloc: Global, function: Word, args: Args) -> Result<Box<Expr>, AllocError>
    ensures { IfOk result (λ e. boxed_tree e ≡ call function (trees_of args)) }
{
    Ok(Box::new(alloc, Expr::Call(function, args))?)
}

#[inline(never)]
pub fn negative(alloc: Global, of: Box<Expr>) -> Result<Box<Expr>, AllocError>
    ensures { IfOk result (λ e. boxed_tree e ≡ negative (boxed_tree of)) }
{
    Ok(Box::new(alloc, Expr::Neg(of))?)
}

#[inline(never)]
pub fn inverse(alloc: Global, of: Box<Expr>) -> Result<Box<Expr>, AllocError>
    ensures { IfOk result (λ e. boxed_tree e ≡ inverse (boxed_tree of)) }
{
    Ok(Box::new(alloc, Expr::Not(of))?)
}

#[inline(never)]
pub fn paren(alloc: Global, of: Box<Expr>) -> Result<Box<Expr>, AllocError>
    ensures { IfOk result (λ e. boxed_tree e ≡ paren (boxed_tree of)) }
{
    Ok(Box::new(alloc, Expr::Paren(of))?)
}

#[inline(never)]
pub fn item(alloc: Global, buffer: Word, index: Box<Expr>) -> Result<Box<Expr>, AllocError>
    ensures { IfOk result (λ e. boxed_tree e ≡ item buffer (boxed_tree index)) }
{
    Ok(Box::new(alloc, Expr::Item(buffer, index))?)
}

#[inline(never)]
pub fn message_item(alloc: Global, index: Box<Expr>) -> Result<Box<Expr>, AllocError>
    ensures { IfOk result (λ e. boxed_tree e ≡ message_item (boxed_tree index)) }
{
    Ok(Box::new(alloc, Expr::MsgItem(index))?)
}

#[inline(never)]
pub fn two(
    alloc: Global,
    op: BinOp,
    left: Box<Expr>,
    right: Box<Expr>,
) -> Result<Box<Expr>, AllocError>
    ensures { IfOk result (λ e. boxed_tree e ≡ two op (boxed_tree left) (boxed_tree right)) }
{
    Ok(Box::new(alloc, Expr::Two(op, left, right))?)
}
