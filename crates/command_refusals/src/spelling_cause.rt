//! Why a text spells no script, as the program says it.

ghost use Rattle.mate_files.specs.Pen.{Prints};
ghost use Rattle.command_refusals.specs.SpellingCauses.{spelling_words};

use crate::line_ends::print_numbered;
use mate_files::{Pen, Sink};

/// The first thing that is wrong with the spelling of a text. A place is an offset in bytes.
#[derive(Clone, Copy)]
pub enum SpellingCause {
    /// A byte that begins no token.
    BadByte { place: u32 },
    /// A literal over 65535.
    BigLiteral { place: u32 },
    /// A token that the grammar doesn't allow there.
    Unexpected { place: u32 },
    /// A token that is nested too deep.
    TooDeep { place: u32 },
}

impl SpellingCause {
    /// Prints what is wrong, its place, and a line feed.
    pub fn print<E: Sink>(&self, pen: &mut Pen, err: &mut E)
        ensures { Prints (E.written err.old) (E.faults err.old) pen.old.result (E.written err.new) (E.faults err.new) pen.new.result
            (spelling_words self.now) }
    {
        match self {
            SpellingCause::BadByte { place } => print_numbered(pen, err, "byte ", *place),
            SpellingCause::BigLiteral { place } => print_numbered(pen, err, "literal ", *place),
            SpellingCause::Unexpected { place } => print_numbered(pen, err, "unexpected ", *place),
            SpellingCause::TooDeep { place } => print_numbered(pen, err, "deep ", *place),
        }
    }
}
