//! What becomes of the parts of a statement or a block that were read. What recurs calls these, and none of them is inlined
//! there: a statement is large, and to drop one takes a copy of it. After a refusal nothing is said of the block to which a
//! statement was to be appended: whoever reads the block drops it.

ghost use Rattle.std.specs.Prelude.{◌≡◌, ◌<◌, length, IfOk};
ghost use Rattle.ts_statements.specs.Taking.{Appended, ReadsOnto};
ghost use Rattle.ts_trees.specs.declared.stmt.Stmt.TheVariants as does;
ghost use Rattle.ts_trees.specs.Machine.{Frame, stmt_named, cleared, do_word};

use crate::ending::ReadBlock;
use crate::{behind_name, clearing, running};
use std::alloc::Global;
use ts_trees::{Block, Expr, ForHead, Halt, Stmt, Token, Word};

/// The tokens after what was read.
pub type Left<'a> = Result<&'a [Token], Halt<'a>>;

// Appends a statement as it was read.
fn appended<'a>(stmts: &mut Block, read: Result<(Stmt, &'a [Token]), Halt<'a>>) -> Left<'a>
    ensures { Appended (λ x. x) stmts.old stmts.new read.entry result }
{
    let (stmt, rest) = read?;
    stmts.push(stmt)?;
    Ok(rest)
}

/// Reads on after the first name of a statement, and appends it.
#[inline(never)]
pub fn append_named<'a>(
    alloc: Global,
    stmts: &mut Block,
    word: Word,
    tokens: &'a [Token],
) -> Left<'a>
    ensures reads { ReadsOnto (λ (f : Frame). f) tokens.now (stmt_named word) stmts.old stmts.new result }
    ensures shorter { IfOk result (λ x. length x.now < length tokens.now) }
{
    appended(stmts, behind_name(alloc, word, tokens))
}

/// Reads on after `clear`, and appends that.
#[inline(never)]
pub fn append_clearing<'a>(stmts: &mut Block, tokens: &'a [Token]) -> Left<'a>
    ensures reads { ReadsOnto (λ (f : Frame). f) tokens.now cleared stmts.old stmts.new result }
    ensures shorter { IfOk result (λ x. length x.now < length tokens.now) }
{
    appended(stmts, clearing(tokens))
}

/// Reads on after `do`, and appends that.
#[inline(never)]
pub fn append_running<'a>(alloc: Global, stmts: &mut Block, tokens: &'a [Token]) -> Left<'a>
    ensures reads { ReadsOnto (λ (f : Frame). f) tokens.now do_word stmts.old stmts.new result }
    ensures shorter { IfOk result (λ x. length x.now < length tokens.now) }
{
    appended(stmts, running(alloc, tokens))
}

/// Appends the `if` with this test and these statements, its `else` as it was read.
#[inline(never)]
pub fn append_choice<'a>(
    stmts: &mut Block,
    test: Box<Expr>,
    body: Block,
    read: Result<(Option<Block>, &'a [Token]), Halt<'a>>,
) -> Left<'a>
    ensures { Appended (λ x. does.If test.value body x) stmts.old stmts.new read.entry result }
{
    let (other, rest) = read?;
    stmts.push(Stmt::If(Box::into_inner(test), body, other))?;
    Ok(rest)
}

/// Appends the `while` with this test.
#[inline(never)]
pub fn append_repetition<'a>(stmts: &mut Block, test: Box<Expr>, read: ReadBlock<'a>) -> Left<'a>
    ensures { Appended (λ x. does.While test.value x) stmts.old stmts.new read.entry result }
{
    let (body, rest) = read?;
    stmts.push(Stmt::While(Box::into_inner(test), body))?;
    Ok(rest)
}

/// Appends the `for` with this head.
#[inline(never)]
pub fn append_count<'a>(
    stmts: &mut Block,
    head: ForHead,
    read: Result<((Block, Word), &'a [Token]), Halt<'a>>,
) -> Left<'a>
    ensures { Appended (λ x. does.For head x.0 x.1) stmts.old stmts.new read.entry result }
{
    let ((body, last), rest) = read?;
    stmts.push(Stmt::For(head, body, last))?;
    Ok(rest)
}

/// Drops the statements that were read before the parser stopped.
#[inline(never)]
pub fn discard(_stmts: Block) {}
