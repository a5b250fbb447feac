//! What a view is written with.

use crate::fault::ViewFault;
use mate_files::Sink;
use std::alloc::Global;

/// The digits of hexadecimal numbers.
const DIGITS: [&str; 16] = [
    "0", "1", "2", "3", "4", "5", "6", "7", "8", "9", "a", "b", "c", "d", "e", "f",
];

/// What stands in a line in place of `{}`.
#[derive(Clone, Copy)]
pub enum Fill<'a> {
    Text(&'a str),
    Number(u64),
    /// A number with a digit after the point, given in tenths.
    Tenths(u64),
}

/// The text of a view that isn't handed on yet. Once memory is refused, nothing more is written; `flush` says so.
#[derive(Drop)]
pub struct Ink {
    text: Vec<u8>,
    refused: bool,
}

impl Ink {
    /// No text.
    pub fn new(alloc: Global) -> Ink {
        Ink {
            text: Vec::new(alloc),
            refused: false,
        }
    }

    /// Writes a line, or a part of one, in which each `{}` stands for the next of some things.
    pub fn line(&mut self, form: &str, things: &[Fill<'_>]) {
        let mut place = 0usize;
        for text in form.split("{}") {
            if place > 0 {
                if let Some(thing) = things.get(place - 1) {
                    self.fill(thing);
                }
            }
            self.text(text);
            place = place.saturating_add(1);
        }
    }

    fn fill(&mut self, thing: &Fill<'_>) {
        match thing {
            Fill::Text(text) => self.text(*text),
            Fill::Number(number) => self.number(*number),
            Fill::Tenths(tenths) => {
                self.number(*tenths / 10);
                if *tenths % 10 != 0 {
                    self.text(".");
                    self.number(*tenths % 10);
                }
            }
        }
    }

    /// Writes bytes as they are.
    pub fn bytes(&mut self, bytes: &[u8]) {
        if !self.refused {
            self.refused = self.text.extend_from_slice(bytes).is_err();
        }
    }

    /// Writes a text as it is.
    pub fn text(&mut self, text: &str) {
        self.bytes(text.as_bytes());
    }

    /// Writes a number in decimal digits.
    pub fn number(&mut self, number: u64) {
        let mut buffer = itoa::Buffer::new();
        self.text(buffer.format(number));
    }

    /// Writes a value in decimal digits, with a `-` before them if it is negative.
    pub fn value(&mut self, value: i32) {
        let mut buffer = itoa::Buffer::new();
        self.text(buffer.format(value));
    }

    /// Writes bytes as two hexadecimal digits each, in lower case.
    pub fn hex(&mut self, bytes: &[u8]) {
        for byte in bytes {
            self.text(DIGITS[usize::from(*byte / 16)]);
            self.text(DIGITS[usize::from(*byte % 16)]);
        }
    }

    /// The text that isn't handed on yet.
    pub fn as_bytes(&self) -> &[u8] {
        self.text.as_slice()
    }

    /// Forgets the text.
    pub fn clear(&mut self) {
        self.text.clear();
    }

    /// Hands the text on to a sink.
    pub fn flush<S: Sink>(&mut self, sink: &mut S) -> Result<(), ViewFault> {
        if self.refused {
            return Err(ViewFault::NoMemory);
        }
        sink.put(self.text.as_slice())?;
        self.text.clear();
        Ok(())
    }
}
