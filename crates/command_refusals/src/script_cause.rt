//! Why a line of a script is refused, as the program says it.

ghost use Rattle.std.specs.Prelude.{◌≡◌, ◌++◌, codes, decimal};
ghost use Rattle.mate_files.specs.Pen.{Prints};
ghost use Rattle.command_refusals.specs.ScriptCauses.{bad_line_words, cause_words};

use mate_files::{Pen, Sink};
use script_steps::Cause;

/// Prints the line's number, why it is refused, and a line feed.
pub fn print_line<E: Sink>(pen: &mut Pen, err: &mut E, line: u32, cause: Cause)
    ensures { Prints (E.written err.old) (E.faults err.old) pen.old.result (E.written err.new) (E.faults err.new) pen.new.result
        (bad_line_words line cause) }
{
    pen.number(err, line as u64);
    pen.text(err, " ");
    pen.text(err, words_of(cause));
}

// The words for a cause, and a line feed.
fn words_of(cause: Cause) -> &'static str
    ensures { result.now ≡ cause_words cause }
{
    match cause {
        Cause::Word => "word\n",
        Cause::Number => "number\n",
        Cause::Range => "range\n",
        Cause::TimeBack => "timeback\n",
        Cause::OldVersion => "oldversion\n",
        Cause::Name => "name\n",
        Cause::Node => "node\n",
        Cause::Packet => "packet\n",
    }
}
