//! What is wrong with a file.

ghost use Rattle.std.specs.Prelude.{◌≡◌, ◌++◌, codes};
ghost use Rattle.mate_files.specs.Pen.{Prints};
ghost use Rattle.command_refusals.specs.CapsuleCauses.{capsule_words};
ghost use Rattle.command_refusals.specs.ExpansionCauses.{expansion_words};
ghost use Rattle.command_refusals.specs.LineEnds.{name_line};
ghost use Rattle.command_refusals.specs.SourceCauses.{source_words, code_words};

use crate::capsule_cause::CapsuleCause;
use crate::expansion_cause::ExpansionCause;
use crate::line_ends::{print_about, print_numbered};
use crate::source_cause::SourceCause;
use crate::status::Status;
use mate_files::{Pen, Sink};
use ts_compiler::CompileFault;

/// Why the bytes of a file can't be had.
#[derive(Clone, Copy)]
pub enum Unread {
    /// It could not be read.
    Failed,
    /// It is longer than 1,048,576 bytes.
    Large,
}

/// What is wrong with a file.
#[derive(Drop)]
pub enum Cause {
    Unread(Unread),
    /// It is no source of the machine.
    Source(SourceCause),
    /// It is a source that has no code.
    Code(CompileFault),
    /// It is no capsule of the machine.
    Capsule(CapsuleCause),
    /// It is a source with procedures that has no expansion.
    Expansion(ExpansionCause),
}

impl Cause {
    ghost use Rattle.command_refusals.specs.Refusals.{cause_status, file_line};

    pub(crate) fn status(&self) -> Status
        ensures { result ≡ cause_status self.now }
    {
        match self {
            Cause::Unread(_) => Status::FileFault,
            Cause::Source(_) => Status::BadSource,
            Cause::Code(_) => Status::BadSource,
            Cause::Capsule(_) => Status::BadCapsule,
            Cause::Expansion(_) => Status::BadSource,
        }
    }

    /// Prints the line that says so of the file of this name.
    pub(crate) fn print<E: Sink>(&self, pen: &mut Pen, err: &mut E, name: &str)
        ensures { Prints (E.written err.old) (E.faults err.old) pen.old.result (E.written err.new) (E.faults err.new) pen.new.result
            (file_line name.now self.now) }
    {
        match self {
            Cause::Unread(Unread::Failed) => print_about(pen, err, "file fault ", name),
            Cause::Unread(Unread::Large) => print_about(pen, err, "file large ", name),
            Cause::Source(cause) => bad_source(pen, err, name, cause),
            Cause::Code(fault) => bad_code(pen, err, name, *fault),
            Cause::Capsule(cause) => bad_capsule(pen, err, name, *cause),
            Cause::Expansion(cause) => bad_expansion(pen, err, name, cause),
        }
    }
}

/// Prints the line of a refused source.
fn bad_source<E: Sink>(pen: &mut Pen, err: &mut E, name: &str, cause: &SourceCause)
    ensures { Prints (E.written err.old) (E.faults err.old) pen.old.result (E.written err.new) (E.faults err.new) pen.new.result
        (codes "bad source " ++ name.now ++ codes " " ++ source_words cause.now) }
{
    pen.text(err, "bad source ");
    pen.text(err, name);
    pen.text(err, " ");
    cause.print(pen, err);
}

/// Prints the line of a source that has no code.
fn bad_code<E: Sink>(pen: &mut Pen, err: &mut E, name: &str, fault: CompileFault)
    ensures { Prints (E.written err.old) (E.faults err.old) pen.old.result (E.written err.new) (E.faults err.new) pen.new.result
        (codes "bad source " ++ name.now ++ codes " " ++ code_words fault) }
{
    pen.text(err, "bad source ");
    pen.text(err, name);
    pen.text(err, " ");
    print_fault(pen, err, fault);
}

fn print_fault<E: Sink>(pen: &mut Pen, err: &mut E, fault: CompileFault)
    ensures { Prints (E.written err.old) (E.faults err.old) pen.old.result (E.written err.new) (E.faults err.new) pen.new.result
        (code_words fault) }
{
    match fault {
        CompileFault::StackDepth { need } => print_numbered(pen, err, "depth ", need),
        CompileFault::TooLong { size } => print_numbered(pen, err, "size ", size),
    }
}

/// Prints the line of a refused capsule.
fn bad_capsule<E: Sink>(pen: &mut Pen, err: &mut E, name: &str, cause: CapsuleCause)
    ensures { Prints (E.written err.old) (E.faults err.old) pen.old.result (E.written err.new) (E.faults err.new) pen.new.result
        (codes "bad capsule " ++ name.now ++ codes " " ++ capsule_words cause) }
{
    pen.text(err, "bad capsule ");
    pen.text(err, name);
    pen.text(err, " ");
    cause.print(pen, err);
}

/// Prints the line of a source that has no expansion.
fn bad_expansion<E: Sink>(pen: &mut Pen, err: &mut E, name: &str, cause: &ExpansionCause)
    ensures { Prints (E.written err.old) (E.faults err.old) pen.old.result (E.written err.new) (E.faults err.new) pen.new.result
        (codes "bad source " ++ name.now ++ codes " " ++ expansion_words cause.now) }
{
    pen.text(err, "bad source ");
    pen.text(err, name);
    pen.text(err, " ");
    cause.print(pen, err);
}
