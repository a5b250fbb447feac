//! Statements.

use crate::expr::{Args, Expr};
use crate::word::Word;
use mate_num::Items;

/// The literal after `step`.
#[derive(Clone, Copy)]
pub struct Step {
    /// Whether `-` is before the literal.
    pub minus: bool,
    /// The literal's value, from 0 to 65535.
    pub size: u16,
    /// The place of the literal's first digit in the source.
    pub place: u32,
}

/// The head of a `for`: `var = from to to step step`.
#[derive(Drop)]
pub struct ForHead {
    pub var: Word,
    pub from: Expr,
    pub to: Expr,
    pub step: Option<Step>,
}

/// A statement, as it is written.
#[derive(Drop)]
pub enum Stmt {
    /// `x = e;`
    Set(Word, Expr),
    /// `p[i] = e;`, with the index first.
    SetItem(Word, Expr, Expr),
    /// `p[] = e;`
    Append(Word, Expr),
    /// `x = p[];`, with the variable first.
    Take(Word, Word),
    /// `clear(p);`
    Clear(Word),
    /// `f(e, e);`
    Do(Word, Args),
    /// `if e then .. else .. end if`
    If(Expr, Block, Option<Block>),
    /// `for .. next x`, with the name after `next` last.
    For(ForHead, Block, Word),
    /// `while e .. end while`
    While(Expr, Block),
    /// `do q(e, e);`, which runs a procedure. No text of plain TinyScript spells it.
    Run(Word, Args),
}

/// Statements in order. Contracts see a list of Stmt.
pub type Block = Items<Stmt>;
