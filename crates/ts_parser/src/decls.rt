//! Declarations.

ghost use Rattle.std.specs.Prelude.{◌≡◌, ◌<◌, length, IfOk, [], true};
ghost use Rattle.ts_trees.specs.Machine.{decls, decl_name};
ghost use Rattle.ts_trees.specs.Parsing.{Gives, reads};
ghost use Rattle.ts_parser.specs.Scripts.{FindsDecl, LacksDecl, decl_kind};
ghost use Rattle.ts_trees.specs.Spelling.{kinds};
ghost use Rattle.ts_trees.specs.declared.dialect.Dialect.{Dialect};

use std::alloc::Global;
use ts_trees::expect::{after, expect, name};
use ts_trees::{Decl, DeclKind, Decls, Halt, Token, TokenKind};

fn kind_of(token: &TokenKind) -> Option<DeclKind>
    ensures { result ≡ decl_kind token.now }
{
    match token {
        TokenKind::Shared => Some(DeclKind::Shared),
        TokenKind::Private => Some(DeclKind::Private),
        TokenKind::Buffer => Some(DeclKind::Buffer),
        _ => None,
    }
}

/// What a declaration makes of its names, and what comes after its keyword; None if the tokens begin no declaration.
fn after_keyword(tokens: &[Token]) -> Option<(DeclKind, &[Token])>
    ensures { FindsDecl tokens.now result }
{
    let (first, rest) = tokens.split_first()?;
    let kind = kind_of(&first.kind)?;
    Some((kind, rest))
}

/// Reads declarations up to the first token that begins none: the declarations, and the tokens from that one on.
pub fn declarations<'a>(
    alloc: Global,
    tokens: &'a [Token],
) -> Result<(Decls, &'a [Token]), Halt<'a>>
    ensures reads { Gives result
        (λ x. (d : Dialect) → reads tokens.now (decls d []) ≡ reads x.1.now (decls d x.0))
        (λ rest. (d : Dialect) → reads tokens.now (decls d []) ≡ Err (kinds rest)) }
    ensures over { IfOk result (λ x. LacksDecl x.1.now) }
{
    let mut all = Decls::new(alloc);
    let mut rest = tokens;
    while let Some((kind, behind)) = after_keyword(rest) {
        rest = names(&mut all, kind, behind)?;
    }
    Ok((all, rest))
}

/// Reads the names of a declaration and its `;`, from after its keyword, and appends them. The result is the tokens
/// after the `;`.
fn names<'a>(all: &mut Decls, kind: DeclKind, tokens: &'a [Token]) -> Result<&'a [Token], Halt<'a>>
    ensures reads { Gives result
        (λ rest. (d : Dialect) → reads tokens.now (decl_name d kind true all.old) ≡ reads rest.now (decls d all.new))
        (λ rest. (d : Dialect) → reads tokens.now (decl_name d kind true all.old) ≡ Err (kinds rest)) }
    ensures shorter { IfOk result (λ rest. length rest.now < length tokens.now) }
{
    let mut first = true;
    let mut rest = tokens;
    loop {
        let (word, behind) = name(rest)?;
        all.push(Decl { kind, word, first })?;
        let Some(next) = after(behind, &TokenKind::Comma) else {
            return expect(behind, &TokenKind::Semi);
        };
        first = false;
        rest = next;
    }
}
