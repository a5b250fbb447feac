//! From tokens to a script.

ghost use Rattle.std.specs.Prelude.{◌≡◌, ◌<◌, ◌≤◌, ◌-◌, length, drop, Some, None, Err};
ghost use Rattle.ts_parser.specs.Scripts.{ReadsScript};
ghost use Rattle.ts_parser.specs.Verdict.{Answers, AnswersIn};
ghost use Rattle.ts_trees.specs.Depth.{first_deep};
ghost use Rattle.ts_trees.specs.Faults.{place_of};
ghost use Rattle.ts_trees.specs.Spelling.{kinds};
ghost use Rattle.ts_trees.specs.declared.dialect.Dialect.TheVariants.{Procedures};

use crate::decls::declarations;
use crate::depth::first_deep;
use crate::fault::SourceFault;
use crate::procs::procedures_in;
use std::alloc::Global;
use ts_statements::block;
use ts_trees::{Dialect, Halt, ProcScript, Script, Token, Tokens};

/// The script that the tokens of a source spell; `len` is the source's length in bytes.
///
/// `Unexpected` comes exactly if a token doesn't fit and none before it is too deep; `TooDeep` exactly if the tokens
/// up to and including the first one that is too deep fit. `NoMemory` comes only if memory runs out.
pub fn parse(alloc: Global, tokens: &Tokens, len: u32) -> Result<Script, SourceFault>
    ensures { Answers tokens.now len result }
{
    match parse_in(alloc, Dialect::Plain, tokens, len) {
        Ok(script) => Ok(Script {
            decls: script.decls,
            body: script.body,
        }),
        Err(fault) => Err(fault),
    }
}

/// The script with procedures that the tokens of a source spell, whatever its `do` statements call; refusals are those of `parse`,
/// by the grammar with `proc` and `do`.
pub fn parse_procedures(alloc: Global, tokens: &Tokens, len: u32) -> Result<ProcScript, SourceFault>
    ensures { AnswersIn Procedures tokens.now len result }
{
    parse_in(alloc, Dialect::Procedures, tokens, len)
}

/// The same in a dialect.
pub(crate) fn parse_in(
    alloc: Global,
    dialect: Dialect,
    tokens: &Tokens,
    len: u32,
) -> Result<ProcScript, SourceFault>
    ensures { AnswersIn dialect tokens.now len result }
{
    let tokens = tokens.as_slice();
    match first_deep(tokens) {
        None => shallow(alloc, dialect, tokens, len),
        Some(index) => Err(deep(alloc, dialect, tokens, index, len)),
    }
}

/// Reads a whole script.
fn script<'a>(alloc: Global, dialect: Dialect, tokens: &'a [Token]) -> Result<ProcScript, Halt<'a>>
    ensures { ReadsScript dialect tokens.now result }
{
    let (decls, rest) = declarations(alloc, tokens)?;
    let (procs, rest) = procedures_in(alloc, dialect, rest)?;
    let (body, rest) = block(alloc, dialect, rest)?;
    if !rest.is_empty() {
        return Err(Halt::At(rest));
    }
    Ok(ProcScript { decls, procs, body })
}

/// The answer if no token is too deep.
fn shallow(
    alloc: Global,
    dialect: Dialect,
    tokens: &[Token],
    len: u32,
) -> Result<ProcScript, SourceFault>
    requires { first_deep (kinds tokens.now) ≡ None }
    ensures { AnswersIn dialect tokens.now len result }
{
    match script(alloc, dialect, tokens) {
        Ok(script) => Ok(script),
        Err(Halt::Memory) => Err(SourceFault::NoMemory),
        Err(Halt::At(rest)) => Err(SourceFault::Unexpected {
            place: place_before(tokens, rest.len(), len),
        }),
    }
}

/// The fault if the token at `index` is the first that is too deep: parsing may stop before it.
fn deep(alloc: Global, dialect: Dialect, tokens: &[Token], index: usize, len: u32) -> SourceFault
    requires within { index < length tokens.now }
    requires first { first_deep (kinds tokens.now) ≡ Some index }
    ensures { AnswersIn dialect tokens.now len (Err result) }
{
    let place = tokens[index].from;
    let front = &tokens[..index + 1];
    let rest = match script(alloc, dialect, front) {
        Ok(_) => return SourceFault::TooDeep { place },
        Err(Halt::Memory) => return SourceFault::NoMemory,
        Err(Halt::At(rest)) => rest,
    };
    if rest.is_empty() {
        return SourceFault::TooDeep { place };
    }
    SourceFault::Unexpected {
        place: place_before(front, rest.len(), len),
    }
}

/// The place of the token before which the last `count` tokens begin; `len` if there is none.
fn place_before(tokens: &[Token], count: usize, len: u32) -> u32
    requires { count ≤ length tokens.now }
    ensures { result ≡ place_of len (drop (length tokens.now - count) tokens.now) }
{
    match tokens.get(tokens.len() - count) {
        Some(token) => token.from,
        None => len,
    }
}
