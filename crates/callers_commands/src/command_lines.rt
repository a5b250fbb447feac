//! The words of the command line.

ghost use Rattle.std.specs.Prelude.{◌≡◌, [], ◌∷◌, map, codes, string_bytes, false, MatchResult};
ghost use Rattle.command_line.specs.declared.words.WordsFault.TheVariants.{NoMemory};

use command_line::{CommandLine, WordsFault, read};
use std::alloc::Global;

pub fn a_flag_is_not_told_for_another<'a>(
    alloc: Global,
    words: &'a [String],
) -> Result<CommandLine<'a>, WordsFault>
    requires { map string_bytes words.now ≡ codes "--fold" ∷ codes "table" ∷ [] }
    ensures { MatchResult result (λ line. line.brief ≡ false) (λ fault. fault ≡ NoMemory) }
{
    read(alloc, words)
}

pub fn a_flag_that_is_not_given_is_not_told<'a>(
    alloc: Global,
    words: &'a [String],
) -> Result<CommandLine<'a>, WordsFault>
    requires { map string_bytes words.now ≡ codes "table" ∷ [] }
    ensures { MatchResult result (λ line. line.brief ≡ false) (λ fault. fault ≡ NoMemory) }
{
    read(alloc, words)
}
