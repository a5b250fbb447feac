//! Why a part of the parser stopped.

ghost use Rattle.std.specs.Prelude.{◌≡◌};

use crate::Token;
use mate_num::NoMemory;
use std::alloc::AllocError;

/// Why parsing stopped: memory ran out, or the first of these tokens doesn't fit. If there is no token left, the text
/// ends too early.
#[derive(Drop)]
pub enum Halt<'a> {
    Memory,
    At(&'a [Token]),
}

impl<'a> From<AllocError> for Halt<'a> {
    ghost use Rattle.ts_trees.specs.declared.halt.Halt.TheVariants.{Memory};

    ghost from_gives = { λ _ e. e ≡ Memory };

    fn from(_error: AllocError) -> Halt<'a> {
        Halt::Memory
    }
}

impl<'a> From<NoMemory> for Halt<'a> {
    ghost use Rattle.ts_trees.specs.declared.halt.Halt.TheVariants.{Memory};

    ghost from_gives = { λ _ e. e ≡ Memory };

    fn from(_error: NoMemory) -> Halt<'a> {
        Halt::Memory
    }
}
