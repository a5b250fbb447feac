//! Expressions.

use crate::word::Word;
use mate_num::Items;
use ts_checked::BinOp;

/// An expression, as it is written: parentheses are kept.
#[derive(Drop)]
pub enum Expr {
    /// A literal: its value from 0 to 65535.
    Num(u16),
    /// A variable.
    Var(Word),
    /// A buffer's item: `p[e]`.
    Item(Word, Box<Expr>),
    /// The number of a buffer's values: `size(p)`.
    Size(Word),
    /// A value of the message: `msg[e]`.
    MsgItem(Box<Expr>),
    /// The number of the message's values: `size(msg)`.
    MsgSize,
    /// A call: `f(e, e)`.
    Call(Word, Args),
    /// `-e`
    Neg(Box<Expr>),
    /// `not e`
    Not(Box<Expr>),
    /// An operator between its left and its right operand.
    Two(BinOp, Box<Expr>, Box<Expr>),
    /// `(e)`
    Paren(Box<Expr>),
}

/// The arguments of a call, in order. Contracts see a list of Expr.
pub type Args = Items<Expr>;
