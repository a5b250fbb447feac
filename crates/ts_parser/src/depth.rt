//! How deep tokens are nested: open blocks, and counted tokens since the last break.

ghost use Rattle.std.specs.Prelude.{◌≡◌, ◌≤◌, ◌<◌, false, length, IfSome};
ghost use Rattle.ts_parser.specs.Depths.{role_seen};
ghost use Rattle.ts_trees.specs.Depth.{shallow, is_deep, role_is_deep, blocks_after, counted_after, after, first_deep};
ghost use Rattle.ts_trees.specs.Spelling.{kinds};
ghost use Rattle.ts_trees.specs.declared.depth.TheConstants.{BLOCKS_MAX, COUNTED_MAX};

use crate::role::{Role, ends, role_of};
use std::marker::Model;
use ts_trees::{BLOCKS_MAX, COUNTED_MAX, Token, TokenKind};

/// The depth before a token. No token before it is too deep.
#[derive(Drop)]
struct Depth {
    /// The open blocks.
    blocks: u8,
    /// The counted tokens since the last break, or since the start.
    counted: u8,
    /// Whether the token before it is `end`, after which a keyword opens nothing.
    ended: bool,
}

impl Model for Depth {
    ghost use Rattle.std.specs.Prelude.{◌≤◌};
    ghost use Rattle.ts_trees.specs.Depth.{Depth as Seen};
    ghost use Rattle.ts_trees.specs.declared.depth.TheConstants.{BLOCKS_MAX, COUNTED_MAX};

    ghost Value = { Seen };

    ghost view = { λ d. record { blocks = d.blocks; counted = d.counted; ended = d.ended } };

    ghost invariant = { λ d. (d.blocks ≤ BLOCKS_MAX) × (d.counted ≤ COUNTED_MAX) };
}

impl Depth {
    /// The depth at the start.
    fn start() -> Depth
        ensures { result ≡ shallow }
    {
        Depth {
            blocks: 0,
            counted: 0,
            ended: false,
        }
    }

    /// Whether a token of this role is too deep.
    fn is_deep(&self, role: Role) -> bool
        ensures { result ≡ role_is_deep self.now (role_seen role) }
    {
        match role {
            Role::Opener => !self.ended && self.blocks >= BLOCKS_MAX,
            Role::Counter => self.counted >= COUNTED_MAX,
            Role::Closer => false,
            Role::Breaker => false,
            Role::Bystander => false,
        }
    }

    /// The open blocks after a token that isn't too deep.
    fn blocks_after(&self, role: Role) -> u8
        requires { role_is_deep self.now (role_seen role) ≡ false }
        ensures value { result ≡ blocks_after self.now (role_seen role) }
        ensures few { result ≤ BLOCKS_MAX }
    {
        match role {
            Role::Opener => {
                if self.ended {
                    self.blocks
                } else {
                    self.blocks + 1
                }
            }
            Role::Closer => self.blocks.saturating_sub(1),
            Role::Breaker => self.blocks,
            Role::Counter => self.blocks,
            Role::Bystander => self.blocks,
        }
    }

    /// The counted tokens after a token that isn't too deep.
    fn counted_after(&self, role: Role) -> u8
        requires { role_is_deep self.now (role_seen role) ≡ false }
        ensures value { result ≡ counted_after self.now (role_seen role) }
        ensures few { result ≤ COUNTED_MAX }
    {
        match role {
            Role::Opener => self.counted,
            Role::Closer => 0,
            Role::Breaker => 0,
            Role::Counter => self.counted + 1,
            Role::Bystander => self.counted,
        }
    }

    /// The depth after a token that isn't too deep.
    fn after(&self, kind: &TokenKind) -> Depth
        requires { is_deep self.now kind.now ≡ false }
        ensures { result ≡ after self.now kind.now }
    {
        let role = role_of(kind);
        Depth {
            blocks: self.blocks_after(role),
            counted: self.counted_after(role),
            ended: ends(kind),
        }
    }
}

/// The index of the first token that is too deep: a keyword that opens a block inside `BLOCKS_MAX` open ones, or a
/// counted token after `COUNTED_MAX` others since the last `;`, `then`, `else`, `end`, `next` or the start.
pub fn first_deep(tokens: &[Token]) -> Option<usize>
    ensures first { result ≡ first_deep (kinds tokens.now) }
    ensures within { IfSome result (λ i. i < length tokens.now) }
{
    let mut depth = Depth::start();
    for (index, token) in tokens.iter().enumerate() {
        if depth.is_deep(role_of(&token.kind)) {
            return Some(index);
        }
        depth = depth.after(&token.kind);
    }
    None
}
