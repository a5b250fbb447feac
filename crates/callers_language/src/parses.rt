//! Tokens that exclude wrong bodies of `parse`, and of what reads the head of a `for` below it.

ghost use Rattle.std.specs.Prelude.{◌≡◌, ◌⊎◌, [], ◌∷◌, true, false, MatchResult};
ghost use Rattle.ts_trees.specs.Cut.{token};
ghost use Rattle.ts_trees.specs.Seen.{source_seen};
ghost use Rattle.ts_trees.specs.declared.token.TokenKind.TheVariants as kind;
ghost use Rattle.ts_parser.specs.declared.fault.SourceFault.TheVariants.{Unexpected, NoMemory};
ghost use Rattle.callers_language.specs.GrammarSources.{stepping, loop_by_three};

use std::alloc::Global;
use ts_parser::{SourceFault, parse, verdict_law};
use ts_trees::machine::machine_law;
use ts_trees::{Script, Tokens};

pub fn a_minus_before_a_step_is_kept(alloc: Global, tokens: &Tokens) -> Result<Script, SourceFault>
    requires { tokens.now ≡ stepping (token kind.Minus 20 21 ∷ []) }
    ensures { MatchResult result (λ script. source_seen script ≡ loop_by_three true) (λ fault. fault ≡ NoMemory) }
{
    verdict_law();
    parse(alloc, tokens, 29)
}

pub fn a_step_stands_where_its_literal_begins(
    alloc: Global,
    tokens: &Tokens,
) -> Result<Script, SourceFault>
    requires { tokens.now ≡ stepping [] }
    ensures { MatchResult result (λ script. source_seen script ≡ loop_by_three false) (λ fault. fault ≡ NoMemory) }
{
    verdict_law();
    parse(alloc, tokens, 29)
}

pub fn a_fault_stands_where_its_token_begins(
    alloc: Global,
    tokens: &Tokens,
) -> Result<Script, SourceFault>
    requires { tokens.now ≡ token kind.Semi 3 4 ∷ [] }
    ensures { MatchResult result (λ _. ⊥) (λ fault. (fault ≡ Unexpected 3) ⊎ (fault ≡ NoMemory)) }
{
    machine_law();
    verdict_law();
    parse(alloc, tokens, 4)
}
