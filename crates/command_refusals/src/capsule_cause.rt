//! Why a text is no capsule of a machine, as the program says it.

ghost use Rattle.std.specs.Prelude.{◌≡◌, codes};
ghost use Rattle.mate_files.specs.Pen.{Prints};
ghost use Rattle.command_refusals.specs.CapsuleCauses.{digit_words, image_words, verify_words, capsule_words};

use crate::line_ends::print_numbered;
use capsule_codec::{CapsuleFault, HexFault};
use code_verifier::VerifyFault;
use mate_files::{Pen, Sink};

/// The first thing that is wrong with a text that should spell a capsule of a machine.
#[derive(Clone, Copy)]
pub enum CapsuleCause {
    /// It isn't the hexadecimal digits of an image.
    Digits(HexFault),
    /// The image is no capsule of the machine.
    Image(CapsuleFault),
    /// The verifier refuses the capsule's code.
    Code(VerifyFault),
}

impl CapsuleCause {
    /// Prints what is wrong, with the place if it is in the code, and a line feed.
    pub fn print<E: Sink>(self, pen: &mut Pen, err: &mut E)
        ensures { Prints (E.written err.old) (E.faults err.old) pen.old.result (E.written err.new) (E.faults err.new) pen.new.result
            (capsule_words self) }
    {
        match self {
            CapsuleCause::Digits(fault) => pen.text(err, words_of_digits(fault)),
            CapsuleCause::Image(fault) => pen.text(err, words_of_image(fault)),
            CapsuleCause::Code(fault) => print_code(pen, err, fault),
        }
    }
}

fn words_of_digits(fault: HexFault) -> &'static str
    ensures { result.now ≡ digit_words fault }
{
    match fault {
        HexFault::BadHex => "hex\n",
        HexFault::TooLong => "length\n",
    }
}

fn words_of_image(fault: CapsuleFault) -> &'static str
    ensures { result.now ≡ image_words fault }
{
    match fault {
        CapsuleFault::BadMagic => "magic\n",
        CapsuleFault::BadFormat => "format\n",
        CapsuleFault::OtherVm { .. } => "vm\n",
        CapsuleFault::BadHandler => "handler\n",
        CapsuleFault::BadLength => "length\n",
        CapsuleFault::BadVersion => "version\n",
    }
}

fn print_code<E: Sink>(pen: &mut Pen, err: &mut E, fault: VerifyFault)
    ensures { Prints (E.written err.old) (E.faults err.old) pen.old.result (E.written err.new) (E.faults err.new) pen.new.result
        (verify_words fault) }
{
    match fault {
        VerifyFault::Decode { place } => print_numbered(pen, err, "decode ", place),
        VerifyFault::BadTarget { place } => print_numbered(pen, err, "target ", place),
        VerifyFault::BackJump { place } => print_numbered(pen, err, "back ", place),
        VerifyFault::Underflow { place } => print_numbered(pen, err, "underflow ", place),
        VerifyFault::Overflow { place } => print_numbered(pen, err, "overflow ", place),
        VerifyFault::DepthDiffers { place } => print_numbered(pen, err, "differs ", place),
        VerifyFault::BadIndex { place } => print_numbered(pen, err, "index ", place),
        VerifyFault::NoHalt => pen.text(err, "nohalt\n"),
        VerifyFault::TooLong { .. } => pen.text(err, "length\n"),
    }
}
