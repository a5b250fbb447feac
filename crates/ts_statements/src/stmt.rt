//! Statements and blocks, by recursive descent: loops for lists, recursion for nested blocks.

ghost use Rattle.std.specs.Prelude.{◌≤◌, ◌<◌, length, IfOk};
ghost use Rattle.ts_trees.specs.Machine.{block, for_word, expr_due, in_if, in_while};
ghost use Rattle.ts_trees.specs.Parsing.{Reads};
ghost use Rattle.ts_statements.specs.Blocks.{ReadsStmtIn, FrameIn, LacksStmt, opened_by, choice_made, Branch, branch_due};
ghost use Rattle.ts_trees.specs.Seen.{acts_of};
ghost use Rattle.ts_trees.specs.Tree.{no_acts};

use crate::ending::{closed_block, counted, end_of};
use crate::for_head;
use crate::opening::{Opening, after_opening};
use crate::taken::{
    Left, append_choice, append_clearing, append_count, append_named, append_repetition,
    append_running, discard,
};
use std::alloc::Global;
use ts_expressions::disjunction;
use ts_expressions::found::discard as discard_test;
use ts_trees::expect::{after, expect};
use ts_trees::{Block, Dialect, Halt, Token, TokenKind};

/// Reads statements up to the first token that begins none: the statements, and the tokens from that one on.
#[cycle(stmt)]
pub fn block<'a>(
    alloc: Global,
    dialect: Dialect,
    tokens: &'a [Token],
) -> Result<(Block, &'a [Token]), Halt<'a>>
    ensures reads { Reads {K = FrameIn dialect} tokens.now (λ f. block no_acts f.frame) (λ b f. block (acts_of b) f.frame) result }
    ensures over { IfOk result (λ x. LacksStmt dialect x.1.now) }
    ensures shorter { IfOk result (λ x. length x.1.now ≤ length tokens.now) }
{
    let mut stmts = Block::new(alloc);
    let mut rest = tokens;
    while let Some((opening, behind)) = after_opening(dialect, rest) {
        match statement(alloc, dialect, &mut stmts, opening, behind) {
            Ok(then) => rest = then,
            Err(halt) => {
                discard(stmts);
                return Err(halt);
            }
        }
    }
    Ok((stmts, rest))
}

/// Reads on after the opening of a statement, and appends it.
#[cycle(stmt)]
fn statement<'a>(
    alloc: Global,
    dialect: Dialect,
    stmts: &mut Block,
    opening: Opening,
    tokens: &'a [Token],
) -> Left<'a>
    ensures reads { ReadsStmtIn dialect tokens.now (opened_by opening) stmts.old stmts.new result }
    ensures shorter { IfOk result (λ x. length x.now ≤ length tokens.now) }
{
    match opening {
        Opening::Named(word) => append_named(alloc, stmts, word, tokens),
        Opening::Clear => append_clearing(stmts, tokens),
        Opening::If => choice(alloc, dialect, stmts, tokens),
        Opening::For => counting(alloc, dialect, stmts, tokens),
        Opening::While => repetition(alloc, dialect, stmts, tokens),
        Opening::Do => append_running(alloc, stmts, tokens),
    }
}

/// Reads on after `if`, and appends that.
#[cycle(stmt)]
#[inline(never)]
fn choice<'a>(alloc: Global, dialect: Dialect, stmts: &mut Block, tokens: &'a [Token]) -> Left<'a>
    ensures reads { ReadsStmtIn dialect tokens.now (λ a f. expr_due (in_if a f)) stmts.old stmts.new result }
    ensures shorter { IfOk result (λ x. length x.now ≤ length tokens.now) }
{
    let (test, rest) = disjunction(alloc, tokens)?;
    match expect(rest, &TokenKind::Then) {
        Ok(rest) => match block(alloc, dialect, rest) {
            Ok((body, rest)) => {
                let other = other_branch(alloc, dialect, rest);
                append_choice(stmts, test, body, other)
            }
            Err(halt) => {
                discard_test(test);
                Err(halt)
            }
        },
        Err(halt) => {
            discard_test(test);
            Err(halt)
        }
    }
}

/// Reads the end of an `if`, with or without an `else` before it.
#[cycle(stmt)]
fn other_branch<'a>(
    alloc: Global,
    dialect: Dialect,
    tokens: &'a [Token],
) -> Result<(Option<Block>, &'a [Token]), Halt<'a>>
    requires { LacksStmt dialect tokens.now }
    ensures reads { Reads {K = Branch dialect} tokens.now (λ k. branch_due k) (λ b k. choice_made k.choice k.body b) result }
    ensures shorter { IfOk result (λ x. length x.1.now ≤ length tokens.now) }
{
    if let Some(rest) = after(tokens, &TokenKind::Else) {
        let (other, rest) = closed_block(block(alloc, dialect, rest), &TokenKind::If)?;
        return Ok((Some(other), rest));
    }
    let rest = end_of(tokens, &TokenKind::If)?;
    Ok((None, rest))
}

/// Reads on after `while`: the test, the statements, and `end while`; and appends that.
#[cycle(stmt)]
#[inline(never)]
fn repetition<'a>(
    alloc: Global,
    dialect: Dialect,
    stmts: &mut Block,
    tokens: &'a [Token],
) -> Left<'a>
    ensures reads { ReadsStmtIn dialect tokens.now (λ a f. expr_due (in_while a f)) stmts.old stmts.new result }
    ensures shorter { IfOk result (λ x. length x.now ≤ length tokens.now) }
{
    let (test, rest) = disjunction(alloc, tokens)?;
    let read = closed_block(block(alloc, dialect, rest), &TokenKind::While);
    append_repetition(stmts, test, read)
}

/// Reads on after `for`: the head, the statements, and `next` with its name; and appends that.
#[cycle(stmt)]
#[inline(never)]
fn counting<'a>(alloc: Global, dialect: Dialect, stmts: &mut Block, tokens: &'a [Token]) -> Left<'a>
    ensures reads { ReadsStmtIn dialect tokens.now for_word stmts.old stmts.new result }
    ensures shorter { IfOk result (λ x. length x.now ≤ length tokens.now) }
{
    let (head, rest) = for_head(alloc, tokens)?;
    append_count(stmts, head, counted(block(alloc, dialect, rest)))
}
