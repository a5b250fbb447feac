//! Statements that hold no block.

ghost use Rattle.std.specs.Prelude.{◌<◌, length, IfOk, IfSome};
ghost use Rattle.ts_trees.specs.Machine.{stmt_named, set_to, boxed, cleared, do_word};
ghost use Rattle.ts_trees.specs.Parsing.{Reads};
ghost use Rattle.ts_statements.specs.Simple.{ReadsStmt, FindsTaken, Target, value_due, value_set};
ghost use Rattle.ts_trees.specs.Seen.{tree_of};

use std::alloc::Global;
use ts_expressions::{arguments, expr};
use ts_trees::expect::{after, ended, expect, name};
use ts_trees::{Expr, Halt, Stmt, Token, TokenKind, Word};

/// Reads on after the first name of a statement.
pub fn behind_name<'a>(
    alloc: Global,
    word: Word,
    tokens: &'a [Token],
) -> Result<(Stmt, &'a [Token]), Halt<'a>>
    ensures reads { ReadsStmt tokens.now (stmt_named word) result }
    ensures shorter { IfOk result (λ x. length x.1.now < length tokens.now) }
{
    if let Some(rest) = after(tokens, &TokenKind::Eq) {
        return setting(alloc, word, rest);
    }
    if let Some(rest) = after(tokens, &TokenKind::OpenBox) {
        return item_setting(alloc, word, rest);
    }
    let rest = expect(tokens, &TokenKind::Open)?;
    let (args, rest) = ended(arguments(alloc, rest), &TokenKind::Semi)?;
    Ok((Stmt::Do(word, args), rest))
}

/// Reads on after `x =`: a buffer and `[];`, or an expression and `;`.
fn setting<'a>(
    alloc: Global,
    word: Word,
    tokens: &'a [Token],
) -> Result<(Stmt, &'a [Token]), Halt<'a>>
    ensures reads { ReadsStmt tokens.now (set_to word) result }
    ensures shorter { IfOk result (λ x. length x.1.now < length tokens.now) }
{
    if let Some((buffer, rest)) = after_taken(tokens) {
        let rest = expect(rest, &TokenKind::Semi)?;
        return Ok((Stmt::Take(word, buffer), rest));
    }
    let (value, rest) = ended(expr(alloc, tokens), &TokenKind::Semi)?;
    Ok((Stmt::Set(word, value), rest))
}

/// A buffer's name and what comes after its `[]`; None if the tokens don't begin with these three.
fn after_taken(tokens: &[Token]) -> Option<(Word, &[Token])>
    ensures finds { FindsTaken tokens.now result }
    ensures shorter { IfSome result (λ x. length x.1.now < length tokens.now) }
{
    let boxed = ended(name(tokens), &TokenKind::OpenBox);
    ended(boxed, &TokenKind::CloseBox).ok()
}

/// Reads on after `p [`: `] = e;`, or `i] = e;`.
fn item_setting<'a>(
    alloc: Global,
    buffer: Word,
    tokens: &'a [Token],
) -> Result<(Stmt, &'a [Token]), Halt<'a>>
    ensures reads { ReadsStmt tokens.now (boxed buffer) result }
    ensures shorter { IfOk result (λ x. length x.1.now < length tokens.now) }
{
    if let Some(rest) = after(tokens, &TokenKind::CloseBox) {
        let (value, rest) = value(alloc, rest)?;
        return Ok((Stmt::Append(buffer, value), rest));
    }
    let (index, rest) = ended(expr(alloc, tokens), &TokenKind::CloseBox)?;
    let (value, rest) = value(alloc, rest)?;
    Ok((Stmt::SetItem(buffer, index, value), rest))
}

/// Reads `= e;`.
fn value<'a>(alloc: Global, tokens: &'a [Token]) -> Result<(Expr, &'a [Token]), Halt<'a>>
    ensures reads { Reads {K = Target} tokens.now (λ k. value_due k) (λ e k. value_set k (tree_of e)) result }
    ensures shorter { IfOk result (λ x. length x.1.now < length tokens.now) }
{
    let rest = expect(tokens, &TokenKind::Eq)?;
    ended(expr(alloc, rest), &TokenKind::Semi)
}

/// Reads on after `clear`.
pub fn clearing<'a>(tokens: &'a [Token]) -> Result<(Stmt, &'a [Token]), Halt<'a>>
    ensures reads { ReadsStmt tokens.now cleared result }
    ensures shorter { IfOk result (λ x. length x.1.now < length tokens.now) }
{
    let rest = expect(tokens, &TokenKind::Open)?;
    let named = ended(name(rest), &TokenKind::Close);
    let (buffer, rest) = ended(named, &TokenKind::Semi)?;
    Ok((Stmt::Clear(buffer), rest))
}

/// Reads on after `do`.
pub fn running<'a>(alloc: Global, tokens: &'a [Token]) -> Result<(Stmt, &'a [Token]), Halt<'a>>
    ensures reads { ReadsStmt tokens.now do_word result }
    ensures shorter { IfOk result (λ x. length x.1.now < length tokens.now) }
{
    let (word, rest) = ended(name(tokens), &TokenKind::Open)?;
    let (args, rest) = ended(arguments(alloc, rest), &TokenKind::Semi)?;
    Ok((Stmt::Run(word, args), rest))
}
