//! Texts that exclude wrong bodies of `tokens`.

ghost use Rattle.std.specs.Prelude.{◌≡◌, [], ◌∷◌, IfOk, codes};
ghost use Rattle.ts_trees.specs.Cut.{token};
ghost use Rattle.ts_trees.specs.declared.token.TokenKind.TheVariants as kind;

use std::alloc::Global;
use ts_lexer::{TokenFault, tokens, tokens_in};
use ts_trees::{Dialect, Tokens};

#[tactic(auto, unfolding(ts_trees::specs::Cut::cut_from))]
pub fn less_or_equal_is_one_token(alloc: Global) -> Result<Tokens, TokenFault>
    ensures { IfOk result (λ tokens. tokens ≡ token kind.Le 0 2 ∷ []) }
{
    tokens(alloc, b"<=")
}

#[tactic(auto, unfolding(ts_trees::specs::Cut::cut_from))]
pub fn a_comment_ends_with_its_line(alloc: Global) -> Result<Tokens, TokenFault>
    ensures { IfOk result (λ tokens. tokens ≡ token kind.Semi 3 4 ∷ []) }
{
    tokens(alloc, b"!\r\n;")
}

#[tactic(auto, unfolding(ts_trees::specs::Cut::cut_from, ts_trees::specs::Cut::word_kind))]
pub fn a_keyword_is_no_name(alloc: Global) -> Result<Tokens, TokenFault>
    ensures { IfOk result (λ tokens. tokens ≡ token kind.If 1 3 ∷ []) }
{
    tokens(alloc, b"\rif")
}

#[tactic(auto, unfolding(ts_trees::specs::Cut::cut_from, ts_trees::specs::Cut::word_kind))]
pub fn do_is_a_name_in_plain_text(alloc: Global) -> Result<Tokens, TokenFault>
    ensures { IfOk result (λ tokens. tokens ≡ token (kind.Name (codes "do")) 0 2 ∷ []) }
{
    tokens(alloc, b"do")
}

#[tactic(auto, unfolding(ts_trees::specs::Cut::cut_from, ts_trees::specs::Cut::word_kind))]
pub fn do_is_a_keyword_with_procedures(alloc: Global) -> Result<Tokens, TokenFault>
    ensures { IfOk result (λ tokens. tokens ≡ token kind.Do 0 2 ∷ []) }
{
    tokens_in(alloc, Dialect::Procedures, b"do")
}

#[tactic(auto, unfolding(ts_trees::specs::Cut::cut_from))]
pub fn a_large_literal_has_no_tokens(alloc: Global) -> Result<Tokens, TokenFault>
    ensures { IfOk result (λ _. ⊥) }
{
    tokens(alloc, b"65536")
}

#[tactic(auto, unfolding(ts_trees::specs::Cut::cut_from))]
pub fn a_letter_behind_a_literal_has_no_tokens(alloc: Global) -> Result<Tokens, TokenFault>
    ensures { IfOk result (λ _. ⊥) }
{
    tokens(alloc, b"1a")
}

#[tactic(auto, unfolding(ts_trees::specs::Cut::cut_from))]
pub fn a_name_of_17_bytes_has_no_tokens(alloc: Global) -> Result<Tokens, TokenFault>
    ensures { IfOk result (λ _. ⊥) }
{
    tokens(alloc, b"abcdefghijklmnopq")
}
