//! The words that lines are made of.

ghost use Rattle.std.specs.Prelude.{◌≡◌};
ghost use Rattle.mate_files.specs.Pen.{Prints};
ghost use Rattle.report_writer.specs.Words.{number, word, drop_word, fault_word, image_word};

use mate_files::{Pen, Sink};
use mate_journal::DropCause;
use mate_num::FaultKind;

/// A space and a number.
pub fn number<S: Sink>(pen: &mut Pen, out: &mut S, n: u64)
    ensures { Prints (S.written out.old) (S.faults out.old) pen.old.result (S.written out.new) (S.faults out.new) pen.new.result
        (number n) }
{
    pen.text(out, " ");
    pen.number(out, n);
}

/// A space and a word.
pub fn word<S: Sink>(pen: &mut Pen, out: &mut S, bytes: &[u8])
    ensures { Prints (S.written out.old) (S.faults out.old) pen.old.result (S.written out.new) (S.faults out.new) pen.new.result
        (word bytes.now) }
{
    pen.text(out, " ");
    pen.bytes(out, bytes);
}

/// Why an event was dropped.
pub fn drop_word(cause: DropCause) -> &'static str
    ensures { result.now ≡ drop_word cause }
{
    match cause {
        DropCause::NoCode => "nocode",
        DropCause::AllBusy => "busy",
    }
}

/// Why an invocation was stopped.
pub fn fault_word(kind: FaultKind) -> &'static str
    ensures { result.now ≡ fault_word kind }
{
    match kind {
        FaultKind::DivZero => "divzero",
        FaultKind::Index => "index",
        FaultKind::BufferFull => "bufferfull",
        FaultKind::BufferEmpty => "bufferempty",
        FaultKind::Overrun => "overrun",
    }
}

/// An image in hexadecimal digits; `-` is one without bytes.
pub fn image_word<S: Sink>(pen: &mut Pen, out: &mut S, image: &[u8])
    ensures { Prints (S.written out.old) (S.faults out.old) pen.old.result (S.written out.new) (S.faults out.new) pen.new.result
        (image_word image.now) }
{
    if image.is_empty() {
        pen.text(out, "-");
    } else {
        pen.hex(out, image);
    }
}
