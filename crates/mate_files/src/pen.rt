//! A pen, which prints text into a sink.
ghost use Rattle.std.specs.Prelude.{◌≡◌, ◌∷◌, [], decimal, Ok};
ghost use Rattle.std.specs.Fmt.{signed_decimal};
ghost use Rattle.hex.specs.Hex.{encode_lower};
ghost use Rattle.mate_files.specs.Pen.{Prints};

use super::sink::{Sink, SinkFault};
use itoa::Buffer;

// How many bytes are written as hexadecimal digits at a time.
const HEX_PIECE: usize = 64;

/// A pen that prints pieces of text into a sink, one after another, and stops at the first fault.
///
/// It keeps the first fault, and does nothing from then on. So each piece of a text is one call, and the fault is
/// asked for once, by `finish`. No call takes memory of its own.
#[derive(Drop)]
pub struct Pen {
    /// The first fault, if there was one.
    pub result: Result<(), SinkFault>,
}

impl Pen {
    /// A pen that met no fault.
    pub fn new() -> Pen
        ensures { result.result ≡ Ok tt }
    {
        Pen { result: Ok(()) }
    }

    /// Whether all that was printed was taken, or the first fault.
    pub fn finish(self) -> Result<(), SinkFault>
        ensures { result ≡ self.result }
    {
        self.result
    }

    /// Prints bytes as they are.
    pub fn bytes<S: Sink>(&mut self, out: &mut S, bytes: &[u8])
        ensures { Prints (S.written out.old) (S.faults out.old) self.old.result
            (S.written out.new) (S.faults out.new) self.new.result bytes.now }
    {
        if self.result.is_ok() {
            self.result = out.put(bytes);
        }
    }

    /// Prints a text.
    pub fn text<S: Sink>(&mut self, out: &mut S, text: &str)
        ensures { Prints (S.written out.old) (S.faults out.old) self.old.result
            (S.written out.new) (S.faults out.new) self.new.result text.now }
    {
        self.bytes(out, text.as_bytes());
    }

    /// Prints a number in decimal digits.
    pub fn number<S: Sink>(&mut self, out: &mut S, number: u64)
        ensures { Prints (S.written out.old) (S.faults out.old) self.old.result
            (S.written out.new) (S.faults out.new) self.new.result (decimal number) }
    {
        let mut buffer = Buffer::new();
        self.text(out, buffer.format(number));
    }

    /// Prints a number in decimal digits, with a `-` before them if it is negative.
    pub fn signed<S: Sink>(&mut self, out: &mut S, value: i16)
        ensures { Prints (S.written out.old) (S.faults out.old) self.old.result
            (S.written out.new) (S.faults out.new) self.new.result (signed_decimal value) }
    {
        let mut buffer = Buffer::new();
        self.text(out, buffer.format(value));
    }

    /// Prints a byte as two hexadecimal digits, in lower case.
    pub fn hex_byte<S: Sink>(&mut self, out: &mut S, byte: u8)
        ensures { Prints (S.written out.old) (S.faults out.old) self.old.result
            (S.written out.new) (S.faults out.new) self.new.result (encode_lower (byte ∷ [])) }
    {
        self.hex(out, &[byte]);
    }

    /// Prints bytes as two hexadecimal digits each, in lower case.
    pub fn hex<S: Sink>(&mut self, out: &mut S, bytes: &[u8])
        ensures { Prints (S.written out.old) (S.faults out.old) self.old.result
            (S.written out.new) (S.faults out.new) self.new.result (encode_lower bytes.now) }
    {
        let mut rest = bytes;
        while !rest.is_empty() {
            let (front, back) = rest.split_at(rest.len().min(HEX_PIECE));
            let mut digits = [0u8; 2 * HEX_PIECE];
            let room = &mut digits[..2 * front.len()];
            let Ok(()) = hex::encode_to_slice(front, room) else {
                unreachable!()
            };
            self.bytes(out, room);
            rest = back;
        }
    }
}
