//! The ends of lines.

ghost use Rattle.std.specs.Prelude.{◌++◌, codes};
ghost use Rattle.mate_files.specs.Pen.{Prints};
ghost use Rattle.command_refusals.specs.LineEnds.{number_line, name_line, numbered_name_line};

use mate_files::{Pen, Sink};
use mate_num::Name;

/// Prints a word, a number and a line feed.
pub fn print_numbered<E: Sink>(pen: &mut Pen, err: &mut E, word: &str, number: u32)
    ensures { Prints (E.written err.old) (E.faults err.old) pen.old.result (E.written err.new) (E.faults err.new) pen.new.result
        (number_line word.now number) }
{
    pen.text(err, word);
    pen.number(err, number as u64);
    pen.text(err, "\n");
}

/// Prints a word, a name and a line feed.
pub fn print_about<E: Sink>(pen: &mut Pen, err: &mut E, word: &str, name: &str)
    ensures { Prints (E.written err.old) (E.faults err.old) pen.old.result (E.written err.new) (E.faults err.new) pen.new.result
        (name_line word.now name.now) }
{
    pen.text(err, word);
    pen.text(err, name);
    pen.text(err, "\n");
}

/// Prints a word, a name, a number and a line feed.
pub fn print_numbered_name<E: Sink>(
    pen: &mut Pen,
    err: &mut E,
    word: &str,
    name: &Name,
    number: u32,
)
    ensures { Prints (E.written err.old) (E.faults err.old) pen.old.result (E.written err.new) (E.faults err.new) pen.new.result
        (numbered_name_line word.now name.now number) }
{
    pen.text(err, word);
    pen.text(err, name.as_str());
    print_numbered(pen, err, " ", number);
}
