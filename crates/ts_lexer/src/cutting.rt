//! How a text is cut into tokens: all of them, or the first ones.

ghost use Rattle.std.specs.Prelude.{◌≡◌, ◌≤◌, length};
ghost use Rattle.mate_files.specs.declared.files.TheConstants.{FILE_MAX};
ghost use Rattle.ts_trees.specs.Cut.{cut_in};
ghost use Rattle.ts_lexer.specs.Answers.{Cuts, CutsIn};
ghost use Rattle.ts_lexer.specs.Scanner.{BeginsScan};

use crate::fault::TokenFault;
use crate::scanner::Scanner;
use std::alloc::Global;
use ts_trees::{Dialect, Tokens};

/// The tokens of a text, or its first fault. The text has at most 1,048,576 bytes.
pub fn tokens(alloc: Global, bytes: &[u8]) -> Result<Tokens, TokenFault>
    requires { length bytes.now ≤ FILE_MAX }
    ensures { Cuts bytes.now result }
{
    tokens_in(alloc, Dialect::Plain, bytes)
}

/// The tokens of a text in a dialect, or its first fault. If a script may have procedures, `proc` and `do` are
/// keywords; all else is as in plain TinyScript. The text has at most 1,048,576 bytes.
pub fn tokens_in(alloc: Global, dialect: Dialect, bytes: &[u8]) -> Result<Tokens, TokenFault>
    requires { length bytes.now ≤ FILE_MAX }
    ensures { CutsIn dialect bytes.now result }
{
    Scanner::new(alloc, dialect, bytes).finish()
}

/// The first `count` tokens of a text in a dialect, or all if there are fewer, with what is left of the text; or its
/// first fault, if that comes before the end of these tokens. The text has at most 1,048,576 bytes.
pub fn first_tokens(
    alloc: Global,
    dialect: Dialect,
    bytes: &[u8],
    count: usize,
) -> Result<Scanner<'_>, TokenFault>
    requires { length bytes.now ≤ FILE_MAX }
    ensures { BeginsScan (cut_in dialect bytes.now) result }
{
    let mut scanner = Scanner::new(alloc, dialect, bytes);
    while scanner.tokens.len() < count {
        let Some(first) = scanner.rest.first() else {
            return Ok(scanner);
        };
        scanner.step(*first)?;
    }
    Ok(scanner)
}
