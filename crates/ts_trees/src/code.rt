//! Numbers for the kinds of tokens.

ghost use Rattle.std.specs.Prelude.{◌≡◌};
ghost use Rattle.ts_trees.specs.Code.{kind_code};

use crate::TokenKind;

/// The number of a kind, by which kinds are compared: each sign and keyword has its own, and all names share one, as
/// all literals do.
pub fn code(kind: &TokenKind) -> u8
    ensures { result ≡ kind_code kind.now }
{
    match kind {
        TokenKind::Shared => 0,
        TokenKind::Private => 1,
        TokenKind::Buffer => 2,
        TokenKind::If => 3,
        TokenKind::Then => 4,
        TokenKind::Else => 5,
        TokenKind::End => 6,
        TokenKind::For => 7,
        TokenKind::To => 8,
        TokenKind::Step => 9,
        TokenKind::Next => 10,
        TokenKind::While => 11,
        TokenKind::And => 12,
        TokenKind::Or => 13,
        TokenKind::Not => 14,
        TokenKind::Size => 15,
        TokenKind::Clear => 16,
        TokenKind::Msg => 17,
        TokenKind::Semi => 18,
        TokenKind::Comma => 19,
        TokenKind::Open => 20,
        TokenKind::Close => 21,
        TokenKind::OpenBox => 22,
        TokenKind::CloseBox => 23,
        TokenKind::Eq => 24,
        TokenKind::Ne => 25,
        TokenKind::Lt => 26,
        TokenKind::Gt => 27,
        TokenKind::Le => 28,
        TokenKind::Ge => 29,
        TokenKind::Plus => 30,
        TokenKind::Minus => 31,
        TokenKind::Star => 32,
        TokenKind::Slash => 33,
        TokenKind::Percent => 34,
        TokenKind::Proc => 35,
        TokenKind::Do => 36,
        TokenKind::Name(_) => 37,
        TokenKind::Num(_) => 38,
    }
}
