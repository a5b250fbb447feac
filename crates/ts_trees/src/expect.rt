//! One token of a kind.

ghost use Rattle.ts_trees.specs.Parsing.{Takes, Ended, Finds, TakesName, FindsOperator};
ghost use Rattle.ts_trees.specs.Machine.{product_sign, sum_sign, comparison_sign};
ghost use Rattle.std.specs.Prelude.{◌≡◌};

use crate::code::code;
use crate::halt::Halt;
use crate::{BinOp, Token, TokenKind, Word};

/// Takes a sign or a keyword.
pub fn expect<'a>(tokens: &'a [Token], kind: &TokenKind) -> Result<&'a [Token], Halt<'a>>
    ensures { Takes kind.now tokens.now result }
{
    let wanted = code(kind);
    let Some((first, rest)) = tokens.split_first() else {
        return Err(Halt::At(tokens));
    };
    if code(&first.kind) != wanted {
        return Err(Halt::At(tokens));
    }
    Ok(rest)
}

/// What was read, if the sign or keyword that ends it comes next; that is taken, too.
pub fn ended<'a, T: Drop>(
    read: Result<(T, &'a [Token]), Halt<'a>>,
    kind: &TokenKind,
) -> Result<(T, &'a [Token]), Halt<'a>>
    ensures { Ended kind.now read.entry result }
{
    let (value, rest) = read?;
    let rest = expect(rest, kind)?;
    Ok((value, rest))
}

/// What comes after a sign or a keyword; None if the tokens don't begin with it.
pub fn after<'a>(tokens: &'a [Token], kind: &TokenKind) -> Option<&'a [Token]>
    ensures { Finds kind.now tokens.now result }
{
    let wanted = code(kind);
    let (first, rest) = tokens.split_first()?;
    if code(&first.kind) != wanted {
        return None;
    }
    Some(rest)
}

/// Takes a name, and gives it with its place.
pub fn name<'a>(tokens: &'a [Token]) -> Result<(Word, &'a [Token]), Halt<'a>>
    ensures { TakesName tokens.now result }
{
    let Some((first, rest)) = tokens.split_first() else {
        return Err(Halt::At(tokens));
    };
    match &first.kind {
        TokenKind::Name(name) => {
            let word = Word {
                name: name.copy(),
                place: first.from,
            };
            Ok((word, rest))
        }
        _ => Err(Halt::At(tokens)),
    }
}

fn product_operator(kind: &TokenKind) -> Option<BinOp>
    ensures { result ≡ product_sign kind.now }
{
    match kind {
        TokenKind::Star => Some(BinOp::Mul),
        TokenKind::Slash => Some(BinOp::Div),
        TokenKind::Percent => Some(BinOp::Rem),
        _ => None,
    }
}

fn sum_operator(kind: &TokenKind) -> Option<BinOp>
    ensures { result ≡ sum_sign kind.now }
{
    match kind {
        TokenKind::Plus => Some(BinOp::Add),
        TokenKind::Minus => Some(BinOp::Sub),
        _ => None,
    }
}

fn comparison_operator(kind: &TokenKind) -> Option<BinOp>
    ensures { result ≡ comparison_sign kind.now }
{
    match kind {
        TokenKind::Eq => Some(BinOp::Eq),
        TokenKind::Ne => Some(BinOp::Ne),
        TokenKind::Lt => Some(BinOp::Lt),
        TokenKind::Gt => Some(BinOp::Gt),
        TokenKind::Le => Some(BinOp::Le),
        TokenKind::Ge => Some(BinOp::Ge),
        _ => None,
    }
}

/// The operator of a product, and what comes after it; None if none comes first.
pub fn after_product_sign(tokens: &[Token]) -> Option<(BinOp, &[Token])>
    ensures { FindsOperator product_sign tokens.now result }
{
    let (first, rest) = tokens.split_first()?;
    let op = product_operator(&first.kind)?;
    Some((op, rest))
}

/// The operator of a sum, and what comes after it; None if none comes first.
pub fn after_sum_sign(tokens: &[Token]) -> Option<(BinOp, &[Token])>
    ensures { FindsOperator sum_sign tokens.now result }
{
    let (first, rest) = tokens.split_first()?;
    let op = sum_operator(&first.kind)?;
    Some((op, rest))
}

/// The operator of a comparison, and what comes after it; None if none comes first.
pub fn after_comparison_sign(tokens: &[Token]) -> Option<(BinOp, &[Token])>
    ensures { FindsOperator comparison_sign tokens.now result }
{
    let (first, rest) = tokens.split_first()?;
    let op = comparison_operator(&first.kind)?;
    Some((op, rest))
}
