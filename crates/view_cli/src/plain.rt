//! A line for a terminal, in which no character controls it.

use mate_files::{Pen, Sink};

/// What comes of a byte of a line.
#[derive(Clone, Copy)]
enum Written {
    /// It is written as it is.
    Byte,
    /// It is a control character, or the last byte of one, and is written in digits.
    Digits,
    /// It is the first byte of what may be a control character of two bytes.
    Lead,
}

/// Writes a line. Each control character in it but the line feed at its end is written as `\x` and two hexadecimal
/// digits: those below 32, 127, and those from 128 to 159, which have two bytes in UTF-8.
pub fn write_plain<E: Sink>(line: &[u8], err: &mut E) {
    let mut pen = Pen::new();
    let mut left = line.len();
    let mut lead = false;
    for byte in line {
        left = left.saturating_sub(1);
        let written = written_of(*byte, lead, left == 0);
        lead = write_byte(*byte, lead, written, &mut pen, err);
    }
    if lead {
        pen.bytes(err, &[LEAD]);
    }
}

/// The first byte of the characters from 128 to 191 in UTF-8.
const LEAD: u8 = 0xc2;

fn written_of(byte: u8, lead: bool, last: bool) -> Written {
    if lead && 0x80 <= byte && byte <= 0x9f {
        return Written::Digits;
    }
    match byte {
        b'\n' if last => Written::Byte,
        LEAD => Written::Lead,
        0..=31 | 127 => Written::Digits,
        _ => Written::Byte,
    }
}

/// Writes a byte behind a lead that isn't written yet, if there is one. The result says whether it is such a lead itself.
fn write_byte<E: Sink>(byte: u8, lead: bool, written: Written, pen: &mut Pen, err: &mut E) -> bool {
    let is_pair = lead && 0x80 <= byte && byte <= 0x9f;
    if lead && !is_pair {
        pen.bytes(err, &[LEAD]);
    }
    match written {
        Written::Byte => pen.bytes(err, &[byte]),
        Written::Digits => {
            pen.text(err, "\\x");
            pen.hex(err, &[byte]);
        }
        Written::Lead => return true,
    }
    false
}
