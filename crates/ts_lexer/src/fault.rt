//! Why a text isn't cut into tokens.

/// Why a text has no tokens. A place is counted in bytes from the start of the text.
#[derive(Clone, Copy)]
pub enum TokenFault {
    /// The byte at `place` begins no token, is the 17th of a name, or is a letter or `_` directly after a literal.
    BadByte { place: u32 },
    /// The literal whose first digit is at `place` has a value over 65535.
    BigLiteral { place: u32 },
    /// Memory was refused.
    NoMemory,
}

impl From<mate_num::NoMemory> for TokenFault {
    ghost use Rattle.std.specs.Prelude.{◌≡◌};
    ghost use Rattle.ts_lexer.specs.declared.fault.TokenFault.TheVariants.{NoMemory};

    ghost from_gives = { λ _ e. e ≡ NoMemory };

    fn from(_error: mate_num::NoMemory) -> TokenFault {
        TokenFault::NoMemory
    }
}
