//! A short text that is built from its end, and then printed by one call.

ghost use Rattle.std.specs.Prelude.{◌≡◌, ◌+◌, ◌*◌, ◌<◌, ◌≤◌, ◌∷◌, [], length, decimal};
ghost use Rattle.std.specs.Fmt.{signed_decimal};
ghost use Rattle.mate_files.specs.Pen.{encode_lower};
ghost use Rattle.report_writer.specs.Chunk.{IsInFront};

use itoa::write_digits;
use std::marker::Model;

/// A text of at most `ROOM` bytes, to which bytes are added in front. Contracts see its bytes.
#[derive(Drop)]
pub struct Chunk<const ROOM: usize> {
    bytes: [u8; ROOM],
    start: usize,
}

impl<const ROOM: usize> Model for Chunk<ROOM> {
    ghost use Rattle.std.specs.Prelude.{List, ℕ, ◌≡◌, ◌≤◌, drop, length};

    ghost Value = { List ℕ };

    ghost view = { λ c. drop c.start c.bytes };

    ghost invariant = { λ c. (c.start ≤ ROOM) × (length c.bytes ≡ ROOM) };
}

impl<const ROOM: usize> Chunk<ROOM> {
    /// No bytes.
    pub fn new() -> Chunk<ROOM>
        ensures value { result ≡ [] }
        ensures fits { length result ≡ 0 }
    {
        Chunk {
            bytes: [0; ROOM],
            start: ROOM,
        }
    }

    /// The bytes.
    pub fn as_slice(&self) -> &[u8]
        ensures { result.now ≡ self.now }
    {
        let bytes = &self.bytes[..];
        &bytes[self.start..]
    }

    /// Adds a byte in front.
    pub fn byte(&mut self, byte: u8)
        requires { length self.old < ROOM }
        ensures adds { IsInFront self.old self.new (byte ∷ []) }
        ensures fits { length self.new ≡ length self.old + 1 }
    {
        self.start -= 1;
        self.bytes[self.start] = byte;
    }

    /// Adds bytes in front.
    pub fn text(&mut self, text: &[u8])
        requires { length text.now + length self.old ≤ ROOM }
        ensures adds { IsInFront self.old self.new text.now }
        ensures fits { length self.new ≡ length text.now + length self.old }
    {
        let start = self.start - text.len();
        let bytes = &mut self.bytes[..];
        bytes[start..self.start].copy_from_slice(text);
        self.start = start;
    }

    /// Adds two hexadecimal digits a byte in front, in lower case.
    pub fn hex(&mut self, bytes: &[u8])
        requires { 2 * length bytes.now + length self.old ≤ ROOM }
        ensures adds { IsInFront self.old self.new (encode_lower bytes.now) }
        ensures fits { length self.new ≡ 2 * length bytes.now + length self.old }
    {
        let start = self.start - 2 * bytes.len();
        let room = &mut self.bytes[..];
        let Ok(()) = hex::encode_to_slice(bytes, &mut room[start..self.start]) else {
            unreachable!()
        };
        self.start = start;
    }

    /// Adds the digits of a number in front.
    pub fn number(&mut self, number: u64)
        requires { length (decimal number) + length self.old ≤ ROOM }
        ensures adds { IsInFront self.old self.new (decimal number) }
        ensures fits { length self.new ≡ length (decimal number) + length self.old }
    {
        self.start = write_digits(number, &mut self.bytes, self.start);
    }

    /// Adds the digits of a value in front, and before them a `-` if it is negative.
    pub fn value(&mut self, value: i16)
        requires { length self.old + 6 ≤ ROOM }
        ensures adds { IsInFront self.old self.new (signed_decimal value) }
        ensures fits { length self.new ≤ length self.old + 6 }
    {
        self.number(value.unsigned_abs() as u64);
        if value < 0 {
            self.byte(b'-');
        }
    }
}
