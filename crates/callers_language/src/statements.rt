//! Tokens that exclude wrong bodies of `behind_name`.

ghost use Rattle.std.specs.Prelude.{◌≡◌, IfErr};
ghost use Rattle.ts_trees.specs.declared.halt.Halt.TheVariants.{Memory};
ghost use Rattle.callers_language.specs.GrammarSources.{taking};

use std::alloc::Global;
use ts_statements::behind_name;
use ts_trees::{Halt, Stmt, Token, Word};

pub fn a_buffers_last_value_may_be_taken<'a>(
    alloc: Global,
    word: Word,
    tokens: &'a [Token],
) -> Result<(Stmt, &'a [Token]), Halt<'a>>
    requires { tokens.now ≡ taking }
    ensures { IfErr result (λ halt. halt ≡ Memory) }
{
    behind_name(alloc, word, tokens)
}
