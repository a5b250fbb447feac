//! Names: the length and the text of the name that a case spells, or `none`. The sign '`' is the byte 255, which is
//! in no text, so such a name has to be made from bytes.

use mate_num::Name;
use std::alloc::{AllocError, Global};

pub fn answer(alloc: Global, case: &str) -> Result<String, AllocError> {
    let named = if case.contains('`') {
        None
    } else {
        Name::new(case)
    };
    let spelled = Name::of_bytes(bytes_of(alloc, case)?.as_slice());
    match (named, spelled) {
        (Some(name), Some(spelled)) => parts(alloc, &name, &spelled),
        (None, None) => "none".to_string(alloc),
        _ => "one of two".to_string(alloc),
    }
}

fn bytes_of(alloc: Global, case: &str) -> Result<Vec<u8>, AllocError> {
    let mut bytes = Vec::new(alloc);
    for sign in case.as_bytes() {
        bytes.push(if *sign == b'`' { 255 } else { *sign })?;
    }
    Ok(bytes)
}

fn parts(alloc: Global, name: &Name, spelled: &Name) -> Result<String, AllocError> {
    let len = name.as_bytes().len();
    let copied = name.copy() == *spelled;
    let is_default = *name == Name::default();
    format!(in alloc; "{len} {spelled} {copied} {is_default}")
}
