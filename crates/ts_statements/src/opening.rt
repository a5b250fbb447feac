//! How a statement begins.

ghost use Rattle.std.specs.Prelude.{◌≡◌};
ghost use Rattle.ts_statements.specs.Blocks.{FindsStmt, opening_of, do_opening};

use ts_trees::{Dialect, Token, TokenKind, Word};

/// The first token of a statement.
#[derive(Drop)]
pub enum Opening {
    /// A name, of a variable, a buffer or a function.
    Named(Word),
    Clear,
    If,
    For,
    While,
    /// `do`, if a script may have procedures.
    Do,
}

fn opened_by_do(dialect: Dialect) -> Option<Opening>
    ensures { result ≡ do_opening dialect }
{
    match dialect {
        Dialect::Plain => None,
        Dialect::Procedures => Some(Opening::Do),
    }
}

fn opened_by(dialect: Dialect, token: &Token) -> Option<Opening>
    ensures { result ≡ opening_of dialect token.now token.now.kind }
{
    match &token.kind {
        TokenKind::Name(name) => {
            let word = Word {
                name: name.copy(),
                place: token.from,
            };
            Some(Opening::Named(word))
        }
        TokenKind::Clear => Some(Opening::Clear),
        TokenKind::If => Some(Opening::If),
        TokenKind::For => Some(Opening::For),
        TokenKind::While => Some(Opening::While),
        TokenKind::Do => opened_by_do(dialect),
        _ => None,
    }
}

/// The opening of a statement, and what comes after it; None if the tokens begin no statement.
pub fn after_opening(dialect: Dialect, tokens: &[Token]) -> Option<(Opening, &[Token])>
    ensures { FindsStmt dialect tokens.now result }
{
    let (first, rest) = tokens.split_first()?;
    let opening = opened_by(dialect, first)?;
    Some((opening, rest))
}
