//! Why a source's text is refused, as the program says it.

ghost use Rattle.mate_files.specs.Pen.{Prints};
ghost use Rattle.command_refusals.specs.SourceCauses.{source_words};

use crate::line_ends::{print_about, print_numbered, print_numbered_name};
use crate::spelling_cause::SpellingCause;
use mate_files::{Pen, Sink};
use mate_num::Name;

/// The first thing that is wrong with a source's text; lack of memory is none of them. A place is an offset in bytes.
#[derive(Drop)]
pub enum SourceCause {
    /// The text spells no script.
    Spelling(SpellingCause),
    Undeclared { name: Name, place: u32 },
    NotInVm { name: Name },
    /// The name is declared twice.
    Twice { name: Name },
    /// The word there is of another kind than is wanted.
    Kind { place: u32 },
    /// The function there takes another number of arguments.
    Arity { place: u32 },
    TooManyPrivates,
}

impl SourceCause {
    /// Prints what is wrong, its place, and a line feed.
    pub fn print<E: Sink>(&self, pen: &mut Pen, err: &mut E)
        ensures { Prints (E.written err.old) (E.faults err.old) pen.old.result (E.written err.new) (E.faults err.new) pen.new.result
            (source_words self.now) }
    {
        match self {
            SourceCause::Spelling(cause) => cause.print(pen, err),
            SourceCause::Undeclared { name, place } => print_numbered_name(
                pen,
                err,
                "undeclared ",
                name,
                *place,
            ),
            SourceCause::NotInVm { name } => print_about(pen, err, "notinvm ", name.as_str()),
            SourceCause::Twice { name } => print_about(pen, err, "twice ", name.as_str()),
            SourceCause::Kind { place } => print_numbered(pen, err, "kind ", *place),
            SourceCause::Arity { place } => print_numbered(pen, err, "arity ", *place),
            SourceCause::TooManyPrivates => pen.text(err, "privates\n"),
        }
    }
}
