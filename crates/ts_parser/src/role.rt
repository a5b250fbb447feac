//! What a token does to the depth of a source.

ghost use Rattle.std.specs.Prelude.{◌≡◌};
ghost use Rattle.ts_parser.specs.Depths.{role_seen};
ghost use Rattle.ts_trees.specs.Depth.{role, is_end_token};

use ts_trees::TokenKind;

/// What a token does to the depth.
#[derive(Clone, Copy)]
pub enum Role {
    /// It opens a block, except after `end`.
    Opener,
    /// It closes a block, and ends a part of a statement.
    Closer,
    /// It ends a part of a statement.
    Breaker,
    /// It is counted.
    Counter,
    Bystander,
}

/// The role of a kind of token.
pub fn role_of(kind: &TokenKind) -> Role
    ensures { role_seen result ≡ role kind.now }
{
    match kind {
        TokenKind::If | TokenKind::For | TokenKind::While | TokenKind::Proc => Role::Opener,
        TokenKind::End | TokenKind::Next => Role::Closer,
        TokenKind::Semi | TokenKind::Then | TokenKind::Else => Role::Breaker,
        TokenKind::Not | TokenKind::And | TokenKind::Or => Role::Counter,
        TokenKind::Eq | TokenKind::Ne => Role::Counter,
        TokenKind::Lt | TokenKind::Gt | TokenKind::Le | TokenKind::Ge => Role::Counter,
        TokenKind::Plus | TokenKind::Minus => Role::Counter,
        TokenKind::Star | TokenKind::Slash | TokenKind::Percent => Role::Counter,
        TokenKind::Open | TokenKind::OpenBox => Role::Counter,
        _ => Role::Bystander,
    }
}

/// Whether the kind is the keyword `end`.
pub fn ends(kind: &TokenKind) -> bool
    ensures { result ≡ is_end_token kind.now }
{
    match kind {
        TokenKind::End => true,
        _ => false,
    }
}
