//! The command `feed`.

ghost use Rattle.std.specs.Prelude.{◌≤◌, length, IfOk};
ghost use Rattle.command_documents.specs.Feed.{feed, answers, whole_stream};
ghost use Rattle.command_documents.specs.Outputs.{CanBeWritten, owed_in};
ghost use Rattle.mate_files.specs.declared.files.TheConstants.{FILE_MAX};
ghost use Rattle.command_steps.specs.Parts.{ReadsFiles};

use crate::boxed_machine::BoxedMachine;
use crate::document::Document;
use crate::output::Output;
use command_refusals::Refusal;
use command_steps::read_file;
use mate_files::Files;
use slip_gateway::rest_of;
use std::alloc::Global;

/// What a new node of the machine answers to the frames of the stream in a file.
#[inline(never)]
pub fn output<F: Files>(
    alloc: Global,
    files: &mut F,
    vm: &str,
    name: &str,
) -> Result<Output, Refusal>
    ensures does { feed (record { told = F.contents files.old; steady = F.steady files.old }) vm.now name.now (owed_in result) }
    ensures reads { ReadsFiles (F.contents files.old) (F.steady files.old) (F.faults files.old) (F.contents files.new)
        (F.steady files.new) (F.faults files.new) result }
    ensures writable { IfOk result CanBeWritten }
{
    let machine = BoxedMachine::named(alloc, files, vm)?;
    let stream = read_file(alloc, files, name)?;
    answers(machine, stream)
}

/// The answers to the frames of a stream, which has to end at the end of a frame.
#[inline(never)]
fn answers(machine: BoxedMachine, stream: Vec<u8>) -> Result<Output, Refusal>
    requires { length stream.items ≤ FILE_MAX }
    ensures does { answers machine stream.items (owed_in result) }
    ensures writable { IfOk result CanBeWritten }
{
    whole_stream(stream.as_slice())?;
    Ok(Output::Document(Document::Answers(machine, stream)))
}

/// `BadStream` if a stream doesn't end at the end of a frame; it has the place after its last END.
fn whole_stream(stream: &[u8]) -> Result<(), Refusal>
    requires { length stream.now ≤ FILE_MAX }
    ensures { whole_stream stream.now result }
{
    let rest = rest_of(stream);
    if rest.is_empty() {
        return Ok(());
    }
    let place = stream.len() - rest.len();
    Err(Refusal::BadStream {
        place: place as u32,
    })
}
