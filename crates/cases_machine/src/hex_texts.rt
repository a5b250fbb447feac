//! Hexadecimal texts: the digits of the image that a text spells, or the fault. Before `*` is how many digits 0 the
//! text begins with; the signs '|', '^', '%' and '@' are the bytes 10, 13, 9 and 11.

use capsule_codec::{HexFault, from_hex, to_hex};
use std::alloc::{AllocError, Global};

pub fn answer(alloc: Global, case: &str) -> Result<String, AllocError> {
    let (zeros, signs) = case.split_once('*').unwrap_or(("0", case));
    let Ok(zeros) = zeros.parse::<u16>() else {
        return "no number".to_string(alloc);
    };
    let text = text_of(alloc, zeros, signs)?;
    let image = match from_hex(text.as_slice()) {
        Ok(image) => image,
        Err(HexFault::BadHex) => return "BadHex".to_string(alloc),
        Err(HexFault::TooLong) => return "TooLong".to_string(alloc),
    };
    if zeros > 0 {
        return format!(in alloc; "{} bytes", image.len());
    }
    match to_hex(alloc, &image) {
        Ok(digits) => Ok(digits),
        Err(fault) => fault.to_string(alloc),
    }
}

fn text_of(alloc: Global, zeros: u16, signs: &str) -> Result<Vec<u8>, AllocError> {
    let mut text = vec![in alloc; b'0'; usize::from(zeros)]?;
    for sign in signs.as_bytes() {
        text.push(unescaped(*sign))?;
    }
    Ok(text)
}

fn unescaped(sign: u8) -> u8 {
    match sign {
        b'|' => b'\n',
        b'^' => b'\r',
        b'%' => b'\t',
        b'@' => 11,
        _ => sign,
    }
}
