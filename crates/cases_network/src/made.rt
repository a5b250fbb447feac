//! The worlds of numbers.

use crate::parts::parts_of;
use script_reader::{Generated, generate};
use std::alloc::{AllocError, Global};
use vm_shape::Description;

/// The case is a number, for the length and the check number of the world's text, or `whole` and a number, for the text.
pub fn answer(alloc: Global, desc: &Description, case: &str) -> Result<String, AllocError> {
    match case.split_once(' ') {
        Some((_, number)) => text_of(alloc, desc, number),
        None => {
            let text = text_of(alloc, desc, case)?;
            format!(in alloc; "{} {}", text.len(), check_number(text.as_bytes()))
        }
    }
}

/// The parts of the world of a number, and its sources.
fn text_of(alloc: Global, desc: &Description, number: &str) -> Result<String, AllocError> {
    let Ok(number) = number.parse::<u64>() else {
        return "no number".to_string(alloc);
    };
    match generate(alloc, desc, number) {
        Ok(made) => whole(alloc, &made),
        Err(_) => "no memory".to_string(alloc),
    }
}

fn whole(alloc: Global, made: &Generated) -> Result<String, AllocError> {
    let mut text = parts_of(alloc, &made.world)?;
    let count = format!(in alloc; "{} sources", made.world.files.len())?;
    text.push_str(count.as_str())?;
    for source in made.sources.as_slice() {
        text.push_str(" [")?;
        text.push_str(source.as_str())?;
        text.push_str("]")?;
    }
    Ok(text)
}

/// FNV-1a of 64 bits.
fn check_number(bytes: &[u8]) -> u64 {
    let mut hash: u64 = 0xcbf2_9ce4_8422_2325;
    for byte in bytes {
        hash = (hash ^ u64::from(*byte)).wrapping_mul(0x0100_0000_01b3);
    }
    hash
}
