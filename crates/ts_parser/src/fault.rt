//! Why a source is refused.

/// Why a source is refused: the first fault in its text, by its place, counted in bytes.
#[derive(Clone, Copy)]
pub enum SourceFault {
    /// A byte that begins no token, the 17th byte of a name, or a letter or `_` directly after a literal.
    BadByte { place: u32 },
    /// A literal over 65535 begins here.
    BigLiteral { place: u32 },
    /// The tokens before this one begin some script, and with it they begin none. If the text ends too early, `place`
    /// is the text's length.
    Unexpected { place: u32 },
    /// The tokens up to this one begin some script, and it opens a block inside 32 open ones, or is the 65th counted
    /// token of a part of a statement.
    TooDeep { place: u32 },
    /// No memory was left for the script.
    NoMemory,
}
