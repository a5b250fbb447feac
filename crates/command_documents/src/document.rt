//! A text that a command writes once all its parts are known.

ghost use Rattle.std.specs.Prelude.{◌++◌, codes};
ghost use Rattle.hex.specs.Hex.{encode_lower};
ghost use Rattle.mate_files.specs.Sink.{Puts};

use crate::boxed_machine::BoxedMachine;
use crate::stream_answers::write_answers;
use command_steps::VerifiedCapsule;
use mate_files::{Pen, Sink, SinkFault};
use mate_num::Image;
use opcode_gen::print_capsule;
use std::alloc::Global;
use ts_proc_names::PScript;
use ts_proc_texts::write_expansion;

/// What the text of a document is made of. Large parts are boxed.
#[derive(Drop)]
pub enum Document {
    /// The opcode table of this machine.
    OpcodeTable(BoxedMachine),
    /// The image of a capsule, in hexadecimal digits.
    Capsule(Box<Image>),
    /// The text of a capsule of this machine.
    Listing(BoxedMachine, Box<VerifiedCapsule>),
    /// The tokens of the plain script that this one expands to, in one line.
    Expansion(PScript),
    /// What a new node of this machine answers to the frames of this stream, a line for each.
    Answers(BoxedMachine, Vec<u8>),
    /// That a report shows serial behaviour: one word.
    Serial,
}

impl Document {
    ghost use Rattle.std.specs.Prelude.{◌≡◌};
    ghost use Rattle.command_documents.specs.Documents.{document_text, HasText};

    /// Writes its text. If `out` fails or no memory is left, a prefix was written.
    pub fn write<S: Sink>(&self, alloc: Global, out: &mut S) -> Result<(), SinkFault>
        requires { HasText self.now }
        ensures { Puts (S.written out.old) (S.faults out.old) (S.written out.new) (S.faults out.new) result (document_text self.now) }
    {
        match self {
            Document::OpcodeTable(machine) => opcode_gen::print_table(machine.description(), out),
            Document::Capsule(image) => write_image(image, out),
            Document::Listing(machine, held) => {
                print_capsule(machine.description(), &held.capsule, &held.code, out)
            }
            Document::Expansion(script) => write_expansion(alloc, script, out),
            Document::Answers(machine, stream) => {
                write_answers(machine.description(), stream.as_slice(), out)
            }
            Document::Serial => write_serial(out),
        }
    }
}

/// Writes an image in hexadecimal digits, and a line feed.
fn write_image<S: Sink>(image: &Image, out: &mut S) -> Result<(), SinkFault>
    ensures { Puts (S.written out.old) (S.faults out.old) (S.written out.new) (S.faults out.new) result (encode_lower image.now.items
        ++ codes "\n") }
{
    let mut pen = Pen::new();
    pen.hex(out, image.as_slice());
    pen.text(out, "\n");
    pen.finish()
}

/// Writes the word for a report that shows serial behaviour, and a line feed.
fn write_serial<S: Sink>(out: &mut S) -> Result<(), SinkFault>
    ensures { Puts (S.written out.old) (S.faults out.old) (S.written out.new) (S.faults out.new) result (codes "serial\n") }
{
    let mut pen = Pen::new();
    pen.text(out, "serial\n");
    pen.finish()
}
