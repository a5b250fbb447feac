//! Tokens that exclude wrong bodies of `first_deep` and `role_of`.

ghost use Rattle.std.specs.Prelude.{◌≡◌, Some, replicate};
ghost use Rattle.ts_trees.specs.Spelling.{kinds};
ghost use Rattle.ts_trees.specs.declared.token.TokenKind.TheVariants as kind;
ghost use Rattle.ts_parser.specs.declared.role.Role.TheVariants.{Opener};

use ts_parser::depth::first_deep;
use ts_parser::role::{Role, role_of};
use ts_trees::{Token, TokenKind};

pub fn a_33rd_open_block_is_too_deep(tokens: &[Token]) -> Option<usize>
    requires { kinds tokens.now ≡ replicate 33 kind.If }
    ensures { result ≡ Some 32 }
{
    first_deep(tokens)
}

pub fn a_procedure_opens_a_block() -> Role
    ensures { result ≡ Opener }
{
    role_of(&TokenKind::Proc)
}
