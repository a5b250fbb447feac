//! The texts of cases.

use std::alloc::{AllocError, Global};

/// The bytes of a text, with its escapes and its repeated pieces.
pub fn bytes_of(alloc: Global, text: &str) -> Result<Vec<u8>, AllocError> {
    let mut bytes = Vec::new(alloc);
    let mut repeats = false;
    for piece in text.split('`') {
        if repeats {
            push_repeated(&mut bytes, piece)?;
        } else {
            push_piece(&mut bytes, piece)?;
        }
        repeats = !repeats;
    }
    Ok(bytes)
}

/// Appends a piece that begins with the number of times that it is there.
fn push_repeated(bytes: &mut Vec<u8>, piece: &str) -> Result<(), AllocError> {
    let Some((count, piece)) = piece.split_once(' ') else {
        return Ok(());
    };
    let Ok(count) = count.parse::<u32>() else {
        return Ok(());
    };
    for _ in 0..count {
        push_piece(bytes, piece)?;
    }
    Ok(())
}

fn push_piece(bytes: &mut Vec<u8>, piece: &str) -> Result<(), AllocError> {
    let mut escaped = false;
    for byte in piece.as_bytes() {
        let plain = *byte != b'\\';
        if escaped {
            push_byte(bytes, unescaped(*byte))?;
        } else if plain {
            push_byte(bytes, *byte)?;
        }
        escaped = !escaped && !plain;
    }
    Ok(())
}

fn push_byte(bytes: &mut Vec<u8>, byte: u8) -> Result<(), AllocError> {
    bytes.extend_from_slice(&[byte])
}

/// The byte of a letter after a backslash.
fn unescaped(letter: u8) -> u8 {
    match letter {
        b'n' => b'\n',
        b't' => b'\t',
        b'r' => b'\r',
        b'q' => b'`',
        b'p' => b'|',
        _ => b'\\',
    }
}
