//! What the program refuses, and the line that says so.

ghost use Rattle.std.specs.Prelude.{◌≡◌, ◌++◌, ◌⊎◌, codes};
ghost use Rattle.mate_files.specs.Pen.{Prints};
ghost use Rattle.mate_files.specs.Sink.{Puts};
ghost use Rattle.command_refusals.specs.DescriptionCauses.{description_words};
ghost use Rattle.command_refusals.specs.ScriptCauses.{bad_line_words};
ghost use Rattle.command_refusals.specs.declared.refusal.Refusal.TheVariants.{InFile, NoMemory};

use crate::cause::Cause;
use crate::description_cause::DescriptionCause;
use crate::line_ends::print_numbered;
use crate::refutation::Refutation;
use crate::script_cause::print_line;
use crate::status::Status;
use mate_files::{Pen, Sink, SinkFault};
use mate_num::Text;
use std::alloc::Global;

/// Why a call of the program did not do its work.
#[derive(Drop)]
pub enum Refusal {
    Usage,
    /// The machine's description is refused, for this cause.
    BadDescription(DescriptionCause),
    /// The script is refused: its first line that is refused, counted from 1, and the first cause in it from left to right.
    BadScript {
        line: u32,
        cause: script_steps::Cause,
    },
    /// The file of this name is refused, for this cause.
    InFile(Text, Cause),
    /// The stream doesn't end at the end of a frame: `place` is what comes after its last END, in bytes.
    BadStream {
        place: u32,
    },
    /// The report doesn't show serial behaviour.
    Refuted(Refutation),
    /// The run met the limit of records before its end.
    LogFull,
    SinkFault,
    NoMemory,
}

impl Refusal {
    ghost use Rattle.command_refusals.specs.Refusals.{status_of, line_of, TellsRefusal};

    fn status(&self) -> Status
        ensures { result ≡ status_of self.now }
    {
        match self {
            Refusal::Usage => Status::Usage,
            Refusal::BadDescription(_) => Status::BadDescription,
            Refusal::BadScript { .. } => Status::BadScript,
            Refusal::InFile(_, cause) => cause.status(),
            Refusal::BadStream { .. } => Status::BadStream,
            Refusal::Refuted(_) => Status::Refuted,
            Refusal::LogFull => Status::LogFull,
            Refusal::SinkFault => Status::SinkFault,
            Refusal::NoMemory => Status::NoMemory,
        }
    }

    fn print<E: Sink>(&self, pen: &mut Pen, err: &mut E)
        ensures { Prints (E.written err.old) (E.faults err.old) pen.old.result (E.written err.new) (E.faults err.new) pen.new.result
            (line_of self.now) }
    {
        match self {
            Refusal::Usage => pen.text(err, "usage\n"),
            Refusal::BadDescription(cause) => bad_description(pen, err, cause),
            Refusal::BadScript { line, cause } => bad_script(pen, err, *line, *cause),
            Refusal::InFile(name, cause) => cause.print(pen, err, name.as_str()),
            Refusal::BadStream { place } => print_numbered(pen, err, "bad stream ", *place),
            Refusal::Refuted(why) => why.print(pen, err),
            Refusal::LogFull => pen.text(err, "log full\n"),
            Refusal::SinkFault => pen.text(err, "sink fault\n"),
            Refusal::NoMemory => pen.text(err, "no memory\n"),
        }
    }

    fn tell<E: Sink>(&self, err: &mut E) -> Result<(), SinkFault>
        ensures { Puts (E.written err.old) (E.faults err.old) (E.written err.new) (E.faults err.new) result (line_of self.now) }
    {
        let mut pen = Pen::new();
        self.print(&mut pen, err);
        pen.finish()
    }

    /// Writes the refusal's line to `err` and returns its status. If `err` fails, nothing else changes; if `err` runs
    /// out of memory, the status is `NoMemory`.
    pub fn refuse<E: Sink>(&self, err: &mut E) -> Status
        ensures { TellsRefusal (E.written err.old) (E.faults err.old) (E.written err.new) (E.faults err.new) self.now result }
    {
        match self.tell(err) {
            Ok(()) => self.status(),
            Err(SinkFault::Failed) => self.status(),
            Err(SinkFault::NoMemory) => Status::NoMemory,
        }
    }
}

fn bad_description<E: Sink>(pen: &mut Pen, err: &mut E, cause: &DescriptionCause)
    ensures { Prints (E.written err.old) (E.faults err.old) pen.old.result (E.written err.new) (E.faults err.new) pen.new.result
        (codes "bad description " ++ description_words cause.now) }
{
    pen.text(err, "bad description ");
    cause.print(pen, err);
}

fn bad_script<E: Sink>(pen: &mut Pen, err: &mut E, line: u32, cause: script_steps::Cause)
    ensures { Prints (E.written err.old) (E.faults err.old) pen.old.result (E.written err.new) (E.faults err.new) pen.new.result
        (codes "bad script line " ++ bad_line_words line cause) }
{
    pen.text(err, "bad script line ");
    print_line(pen, err, line, cause);
}

/// The refusal of the file `name` for this cause, unless memory for its name runs out.
pub fn in_file(alloc: Global, name: &str, cause: Cause) -> Refusal
    ensures { (result ≡ InFile name.now cause) ⊎ (result ≡ NoMemory) }
{
    match Text::of(alloc, name) {
        Ok(name) => Refusal::InFile(name, cause),
        Err(_) => Refusal::NoMemory,
    }
}
