//! What becomes of a frame that should be a capsule, and the words that tell it.

ghost use Rattle.std.specs.Prelude.{◌++◌, codes};
ghost use Rattle.mate_files.specs.Pen.{Prints};
ghost use Rattle.command_refusals.specs.CapsuleCauses.{capsule_words};

use capsule_codec::CapsuleFault;
use code_verifier::VerifyFault;
use command_refusals::{CapsuleCause, print_numbered, print_numbered_name};
use mate_files::{Pen, Sink};
use mate_num::HandlerId;
use opcode_gen::handler_name;
use vm_shape::Description;

/// What a node answers to a frame.
#[derive(Clone, Copy)]
pub enum Answer {
    /// The frame's capsule is installed for the handler, with this version.
    Installed { handler: HandlerId, version: u32 },
    /// It is a capsule, and isn't newer than the version that is held for its handler.
    NotNewer { held: u32 },
    /// It is no capsule of the machine.
    NoCapsule(CapsuleFault),
    /// It is a capsule, and the verifier refuses its code.
    BadCode(VerifyFault),
    /// It has more than 1,056 bytes.
    Long,
    /// An escape in it is broken.
    Broken,
}

impl Answer {
    ghost use Rattle.command_documents.specs.FeedLines.{answer_words, HasHandler};

    /// The words that tell it, and a line feed.
    pub(crate) fn print<S: Sink>(self, pen: &mut Pen, out: &mut S, desc: &Description)
        requires { HasHandler desc.now self }
        ensures { Prints (S.written out.old) (S.faults out.old) pen.old.result (S.written out.new) (S.faults out.new) pen.new.result
            (answer_words desc.now self) }
    {
        match self {
            Answer::Installed { handler, version } => {
                print_numbered_name(pen, out, "install ", handler_name(desc, handler), version)
            }
            Answer::NotNewer { held } => print_numbered(pen, out, "notnewer ", held),
            Answer::NoCapsule(fault) => print_refused(pen, out, CapsuleCause::Image(fault)),
            Answer::BadCode(fault) => print_refused(pen, out, CapsuleCause::Code(fault)),
            Answer::Long => pen.text(out, "long\n"),
            Answer::Broken => pen.text(out, "escape\n"),
        }
    }
}

/// The words of a refused capsule, and a line feed.
fn print_refused<S: Sink>(pen: &mut Pen, out: &mut S, cause: CapsuleCause)
    ensures { Prints (S.written out.old) (S.faults out.old) pen.old.result (S.written out.new) (S.faults out.new) pen.new.result
        (codes "refused " ++ capsule_words cause) }
{
    pen.text(out, "refused ");
    cause.print(pen, out);
}
