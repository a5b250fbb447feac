//! The tokens of a source, with the faults of a source.

ghost use Rattle.std.specs.Prelude.{◌≡◌, ◌≤◌, length};
ghost use Rattle.mate_files.specs.declared.files.TheConstants.{FILE_MAX};
ghost use Rattle.ts_parser.specs.Cutting.{CutsScript, SourceCuts, source_fault_of};

use crate::fault::SourceFault;
use std::alloc::Global;
use ts_lexer::TokenFault;
use ts_trees::{Dialect, Tokens};

/// The tokens of a source of at most 1,048,576 bytes: the longest sign is taken, and blanks and comments (from `!` to
/// the end of its line) are skipped. `BadByte` and `BigLiteral` come exactly if one of them is the first fault in the
/// text. `NoMemory` comes only if memory runs out.
pub fn tokens(alloc: Global, bytes: &[u8]) -> Result<Tokens, SourceFault>
    requires { length bytes.now ≤ FILE_MAX }
    ensures { CutsScript bytes.now result }
{
    tokens_in(alloc, Dialect::Plain, bytes)
}

/// The tokens of a source in a dialect, by the same rules: if a script may have procedures, `proc` and `do` are
/// keywords.
pub fn tokens_in(alloc: Global, dialect: Dialect, bytes: &[u8]) -> Result<Tokens, SourceFault>
    requires { length bytes.now ≤ FILE_MAX }
    ensures { SourceCuts dialect bytes.now result }
{
    match ts_lexer::tokens_in(alloc, dialect, bytes) {
        Ok(tokens) => Ok(tokens),
        Err(fault) => Err(source_fault(fault)),
    }
}

/// A fault of the tokens as a fault of the source.
pub(crate) fn source_fault(fault: TokenFault) -> SourceFault
    ensures { result ≡ source_fault_of fault }
{
    match fault {
        TokenFault::BadByte { place } => SourceFault::BadByte { place },
        TokenFault::BigLiteral { place } => SourceFault::BigLiteral { place },
        TokenFault::NoMemory => SourceFault::NoMemory,
    }
}
