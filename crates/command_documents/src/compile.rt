//! The command `compile`.

ghost use Rattle.std.specs.Prelude.{◌≡◌, ◌≤◌, ◌++◌, codes, option_map, IfSome, IfOk, IfErr};
ghost use Rattle.mate_num.specs.declared.bounds.TheConstants.{HANDLERS_MAX};
ghost use Rattle.hex.specs.Hex.{encode_lower};
ghost use Rattle.command_refusals.specs.declared.refusal.Refusal.TheVariants.{NoMemory};
ghost use Rattle.command_documents.specs.Compile.{compile};
ghost use Rattle.command_documents.specs.Outputs.{CanBeWritten, owed_in};
ghost use Rattle.command_documents.specs.Owed.{writes};
ghost use Rattle.command_steps.specs.Parts.{ReadsFiles, handler_named};

use crate::boxed_machine::BoxedMachine;
use crate::document::Document;
use crate::output::Output;
use capsule_codec::{Capsule, encode};
use command_line::Compilation;
use command_refusals::Refusal;
use command_steps::source_of;
use mate_files::Files;
use mate_num::{HandlerId, Image};
use std::alloc::Global;
use vm_shape::Description;

/// The image of a source's capsule.
#[inline(never)]
pub fn output<F: Files>(
    alloc: Global,
    files: &mut F,
    words: Compilation<'_>,
) -> Result<Output, Refusal>
    ensures does { compile (record { told = F.contents files.old; steady = F.steady files.old }) words.entry.fold words.entry.machine.now
        words.entry.handler.now words.entry.version words.entry.source.now (owed_in result) }
    ensures reads { ReadsFiles (F.contents files.old) (F.steady files.old) (F.faults files.old) (F.contents files.new)
        (F.steady files.new) (F.faults files.new) result }
    ensures writable { IfOk result CanBeWritten }
{
    let machine = BoxedMachine::named(alloc, files, words.machine)?;
    let desc = machine.description();
    let Some(handler) = handler_of(desc, words.handler) else {
        return Err(Refusal::Usage);
    };
    let source = source_of(alloc, files, desc, words.fold, words.source)?;
    let capsule = Capsule {
        vm_id: desc.vm_id,
        handler,
        version: words.version,
        code: source.code,
    };
    image_output(alloc, encode(&capsule))
}

/// An image as a document.
#[inline(never)]
fn image_output(alloc: Global, image: Image) -> Result<Output, Refusal>
    ensures does { writes (encode_lower image.items ++ codes "\n") (owed_in result) }
    ensures memory { IfErr result (λ r. r ≡ NoMemory) }
    ensures writable { IfOk result CanBeWritten }
{
    match Box::new(alloc, image) {
        Ok(image) => Ok(Output::Document(Document::Capsule(image))),
        Err(_) => Err(Refusal::NoMemory),
    }
}

/// The machine's handler of this name, if there is one.
fn handler_of(desc: &Description, name: &str) -> Option<HandlerId>
    ensures { option_map (λ h. h.0) result ≡ handler_named desc.now name.now }
{
    let place = place_of(desc, name)?;
    Some(HandlerId(place as u8))
}

fn place_of(desc: &Description, name: &str) -> Option<usize>
    ensures value { result ≡ handler_named desc.now name.now }
    ensures small { IfSome result (λ place. place ≤ HANDLERS_MAX) }
{
    desc.handlers
        .as_slice()
        .iter()
        .position(|handler| handler.name.as_str() == name)
}
