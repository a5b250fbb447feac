//! How a block ends.

ghost use Rattle.ts_statements.specs.Ending.{TakesEnd, ClosedBlock, Counted};

use ts_trees::expect::{expect, name};
use ts_trees::{Block, Halt, Token, TokenKind, Word};

/// A block as it was read, and the tokens after it.
pub type ReadBlock<'a> = Result<(Block, &'a [Token]), Halt<'a>>;

/// Takes `end` and a keyword.
pub fn end_of<'a>(tokens: &'a [Token], kind: &TokenKind) -> Result<&'a [Token], Halt<'a>>
    ensures { TakesEnd kind.now tokens.now result }
{
    let rest = expect(tokens, &TokenKind::End)?;
    expect(rest, kind)
}

/// The block, if `end` and this keyword come after it, and the tokens after them. It isn't inlined: the block is dropped if not,
/// which takes more stack than what calls it.
#[inline(never)]
pub fn closed_block<'a>(read: ReadBlock<'a>, kind: &TokenKind) -> ReadBlock<'a>
    ensures { ClosedBlock kind.now read.entry result }
{
    let (block, rest) = read?;
    let rest = end_of(rest, kind)?;
    Ok((block, rest))
}

/// The block, if `next` and a name come after it, with that name, and the tokens after it. It isn't inlined, for the same reason.
#[inline(never)]
pub fn counted<'a>(read: ReadBlock<'a>) -> Result<((Block, Word), &'a [Token]), Halt<'a>>
    ensures { Counted read.entry result }
{
    let (block, rest) = read?;
    let rest = expect(rest, &TokenKind::Next)?;
    let (last, rest) = name(rest)?;
    Ok(((block, last), rest))
}
