//! The bytes that a text with marks spells.

use std::alloc::{AllocError, Global};

/// The bytes of a text in which `⏎` is the end of a line, `⟨3×ab⟩` is `ababab`, and `⟨255⟩` is that byte.
pub fn marked_bytes(alloc: Global, text: &str) -> Result<Vec<u8>, AllocError> {
    let text = text.replace(alloc, "⏎", "\n")?;
    let mut bytes = Vec::new(alloc);
    for piece in text.split("⟩") {
        let (plain, marked) = piece.split_once("⟨").unwrap_or((piece, ""));
        bytes.extend_from_slice(plain.as_bytes())?;
        extend(&mut bytes, marked)?;
    }
    Ok(bytes)
}

/// Appends what is between `⟨` and `⟩`.
fn extend(bytes: &mut Vec<u8>, marked: &str) -> Result<(), AllocError> {
    match marked.split_once("×") {
        Some((count, part)) => {
            for _ in 0..count.parse::<usize>().unwrap_or(0) {
                bytes.extend_from_slice(part.as_bytes())?;
            }
        }
        None => {
            if let Ok(byte) = marked.parse::<u8>() {
                bytes.push(byte)?;
            }
        }
    }
    Ok(())
}
