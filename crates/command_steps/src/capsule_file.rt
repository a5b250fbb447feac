//! From the text of a file to the capsule that it spells, with its verified code.

ghost use Rattle.std.specs.Prelude.{◌≡◌, IfOk, IfSome};
ghost use Rattle.capsule_codec.specs.Image.{capsule_parts};
ghost use Rattle.opcode_gen.specs.CapsuleText.{IsVerifiedFor};
ghost use Rattle.command_steps.specs.CapsuleFiles.{capsule};
ghost use Rattle.command_steps.specs.HeldCapsules.{ReadsCapsule, ReadsText, parts_in};
ghost use Rattle.command_steps.specs.Parts.{ReadsFiles};

use crate::parts::read_file;
use capsule_codec::{Capsule, decode, from_hex};
use code_verifier::{Verified, verify};
use command_refusals::{CapsuleCause, Cause, Refusal, in_file};
use mate_files::Files;
use opcode_gen::table;
use std::alloc::Global;
use vm_shape::Description;

/// A capsule of a machine, with its verified code.
#[derive(Drop)]
pub struct VerifiedCapsule {
    pub capsule: Capsule,
    pub code: Verified,
}

/// The capsule of a file, with its verified code. It is boxed at once: it takes several thousand bytes.
pub fn capsule_of<F: Files>(
    alloc: Global,
    files: &mut F,
    desc: &Description,
    name: &str,
) -> Result<Box<VerifiedCapsule>, Refusal>
    ensures does { capsule (record { told = F.contents files.old; steady = F.steady files.old }) desc.now name.now (parts_in result) }
    ensures verified { IfOk result (λ c. IsVerifiedFor desc.now (capsule_parts c.value.capsule) c.value.code) }
    ensures reads { ReadsFiles (F.contents files.old) (F.steady files.old) (F.faults files.old) (F.contents files.new)
        (F.steady files.new) (F.faults files.new) result }
{
    let text = read_file(alloc, files, name)?;
    let read = match read_capsule(alloc, desc, text.as_slice()) {
        Ok(read) => read,
        Err(refusal) => return Err(in_file(alloc, name, Cause::Capsule(refusal))),
    };
    match read {
        Some(capsule) => Ok(capsule),
        None => Err(Refusal::NoMemory),
    }
}

/// The capsule of the machine whose image the text spells in hexadecimal digits, with its verified code; or the first
/// refusal: of the digits, then of the image, then of the code. None if memory runs out.
#[inline(never)]
fn read_capsule(
    alloc: Global,
    desc: &Description,
    text: &[u8],
) -> Result<Option<Box<VerifiedCapsule>>, CapsuleCause>
    ensures { ReadsText desc.now text.now result }
{
    let capsule = match spelled(desc, text) {
        Ok(capsule) => capsule,
        Err(refusal) => return Err(refusal),
    };
    match verify(&table(desc), desc, capsule.code.as_slice()) {
        Ok(code) => Ok(boxed(alloc, capsule, code)),
        Err(fault) => Err(CapsuleCause::Code(fault)),
    }
}

/// The capsule of the machine whose image the text spells, or the first refusal of the text.
#[inline(never)]
fn spelled(desc: &Description, text: &[u8]) -> Result<Capsule, CapsuleCause>
    ensures { ReadsCapsule desc.now text.now result }
{
    let image = match from_hex(text) {
        Ok(image) => image,
        Err(fault) => return Err(CapsuleCause::Digits(fault)),
    };
    match decode(desc, image.as_slice()) {
        Ok(capsule) => Ok(capsule),
        Err(fault) => Err(CapsuleCause::Image(fault)),
    }
}

/// It isn't inlined, as what it moves is large. None if memory runs out.
#[inline(never)]
fn boxed(alloc: Global, capsule: Capsule, code: Verified) -> Option<Box<VerifiedCapsule>>
    ensures { IfSome result (λ c. c.value ≡ record { capsule = capsule; code = code }) }
{
    Box::new(alloc, VerifiedCapsule { capsule, code }).ok()
}
