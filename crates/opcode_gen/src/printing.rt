//! From a verified capsule to its text.

ghost use Rattle.std.specs.Prelude.{◌≡◌, ◌<◌, length};
ghost use Rattle.mate_code.specs.Listing.{listing_text};
ghost use Rattle.mate_files.specs.Pen.{Prints};
ghost use Rattle.mate_files.specs.Sink.{Puts};
ghost use Rattle.capsule_codec.specs.Image.{capsule_parts};
ghost use Rattle.opcode_gen.specs.TableText.{names_of_functions};
ghost use Rattle.vm_shape.specs.Shapes.{shape_of};
ghost use Rattle.opcode_gen.specs.CapsuleText.{capsule_text, handler_name_at, head_line, IsVerifiedFor};

use crate::generate::{function_names, table};
use crate::lock_line::print_lock_line;
use capsule_codec::Capsule;
use code_verifier::Verified;
use lock_inference::locks;
use mate_code::listing;
use mate_files::{Pen, Sink, SinkFault};
use mate_num::{HandlerId, Name};
use vm_shape::Description;

/// Writes the capsule's text: `capsule`, the name of its handler, its version and how many bytes its code has; then a
/// line for each instruction of `code`, which is the capsule's code; and `locks`, with the names of the shared
/// variables, buffers and devices that the code reads or writes, `:r` directly after a name that is only read.
///
/// If `out` fails, a prefix was written.
pub fn print_capsule<S: Sink>(
    desc: &Description,
    capsule: &Capsule,
    code: &Verified,
    out: &mut S,
) -> Result<(), SinkFault>
    requires { IsVerifiedFor desc.now (capsule_parts capsule.now) code.now }
    ensures { Puts (S.written out.old) (S.faults out.old) (S.written out.new) (S.faults out.new) result
        (capsule_text desc.now (capsule_parts capsule.now) code.now.code) }
{
    let mut pen = Pen::new();
    print_head(&mut pen, out, desc, capsule);
    print_instrs(&mut pen, out, desc, code);
    print_lock_line(&mut pen, out, desc, &locks(desc, code));
    pen.finish()
}

// Prints the head line.
fn print_head<S: Sink>(pen: &mut Pen, out: &mut S, desc: &Description, capsule: &Capsule)
    requires { capsule.now.handler.0 < length desc.now.handlers.items }
    ensures { Prints (S.written out.old) (S.faults out.old) pen.old.result
        (S.written out.new) (S.faults out.new) pen.new.result
        (head_line (handler_name_at desc.now capsule.now.handler.0) capsule.now.version (length capsule.now.code.items)) }
{
    pen.text(out, "capsule ");
    pen.text(out, handler_name(desc, capsule.handler).as_str());
    pen.text(out, " ");
    pen.number(out, capsule.version as u64);
    pen.text(out, " ");
    pen.number(out, capsule.code.len() as u64);
    pen.text(out, "\n");
}

/// The name of a handler of the machine.
pub fn handler_name(desc: &Description, handler: HandlerId) -> &Name
    requires { handler.0 < length desc.now.handlers.items }
    ensures { result.now ≡ handler_name_at desc.now handler.0 }
{
    &desc.handlers.as_slice()[handler.0 as usize].name
}

// Prints a line for each instruction.
fn print_instrs<S: Sink>(pen: &mut Pen, out: &mut S, desc: &Description, code: &Verified)
    requires { code.now.shape ≡ shape_of desc.now }
    ensures { Prints (S.written out.old) (S.faults out.old) pen.old.result
        (S.written out.new) (S.faults out.new) pen.new.result (listing_text (names_of_functions desc.now) code.now.code) }
{
    if pen.result.is_ok() {
        let names = function_names(desc);
        pen.result = listing(&table(desc), names.as_slice(), &code.instrs(), out);
    }
}
