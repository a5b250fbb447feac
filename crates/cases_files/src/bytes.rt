//! Bytes and texts of a case.

use capsule_codec::from_hex;
use std::alloc::{AllocError, Global};

/// The bytes that hexadecimal digits spell, or None if they spell none. `+` is between parts, and `COUNT*DIGITS` is a
/// part, COUNT times.
pub fn bytes_of(alloc: Global, text: &str) -> Result<Option<Vec<u8>>, AllocError> {
    let mut bytes = Vec::new(alloc);
    for part in text.split('+') {
        let (count, digits) = part.split_once('*').unwrap_or(("1", part));
        let (Ok(count), Ok(image)) = (count.parse::<u16>(), from_hex(digits.as_bytes())) else {
            return Ok(None);
        };
        for _ in 0..count {
            bytes.extend_from_slice(image.as_slice())?;
        }
    }
    Ok(Some(bytes))
}

/// The text of the bytes, with `|` for the end of each line.
pub fn in_one_line(alloc: Global, bytes: &[u8]) -> Result<String, AllocError> {
    let mut text = String::new(alloc);
    for byte in bytes {
        text.push(if *byte == b'\n' {
            '|'
        } else {
            char::from(*byte)
        })?;
    }
    Ok(text)
}
