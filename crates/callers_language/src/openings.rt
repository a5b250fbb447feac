//! Tokens that exclude wrong bodies of `after_opening`.

ghost use Rattle.std.specs.Prelude.{◌≡◌, [], ◌∷◌, None, MatchOption, codes};
ghost use Rattle.ts_trees.specs.Cut.{token};
ghost use Rattle.ts_trees.specs.declared.token.TokenKind.TheVariants as kind;
ghost use Rattle.ts_statements.specs.declared.opening.Opening.TheVariants as opening;
ghost use Rattle.callers_language.specs.GrammarSources.{x_at};

use ts_statements::opening::{Opening, after_opening};
use ts_trees::{Dialect, Token};

pub fn a_name_stands_where_it_begins(tokens: &[Token]) -> Option<(Opening, &[Token])>
    requires { tokens.now ≡ token (kind.Name (codes "x")) 3 4 ∷ [] }
    ensures { MatchOption result ⊥ (λ found. found.0 ≡ opening.Named (x_at 3)) }
{
    after_opening(Dialect::Plain, tokens)
}

pub fn a_while_begins_with_its_keyword(tokens: &[Token]) -> Option<(Opening, &[Token])>
    requires { tokens.now ≡ token kind.While 3 8 ∷ [] }
    ensures { MatchOption result ⊥ (λ found. found.0 ≡ opening.While) }
{
    after_opening(Dialect::Plain, tokens)
}

pub fn a_plain_script_has_no_do(tokens: &[Token]) -> Option<(Opening, &[Token])>
    requires { tokens.now ≡ token kind.Do 3 5 ∷ [] }
    ensures { result ≡ None }
{
    after_opening(Dialect::Plain, tokens)
}
