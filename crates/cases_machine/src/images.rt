//! Images in hexadecimal digits: the first fault, or `ok`, the length of the capsule's code, and whether the capsule's
//! image is these bytes.

use capsule_codec::{CapsuleFault, decode, encode};
use cases_files::bytes_of;
use std::alloc::{AllocError, Global};
use vm_shape::Description;

pub fn answer(alloc: Global, desc: &Description, case: &str) -> Result<String, AllocError> {
    let Some(bytes) = bytes_of(alloc, case)? else {
        return "no digits".to_string(alloc);
    };
    match decode(desc, &bytes) {
        Ok(capsule) => {
            let again = encode(&capsule).as_slice() == bytes.as_slice();
            format!(in alloc; "ok {} {again}", capsule.code.len())
        }
        Err(fault) => fault_words(alloc, fault),
    }
}

fn fault_words(alloc: Global, fault: CapsuleFault) -> Result<String, AllocError> {
    match fault {
        CapsuleFault::BadMagic => "BadMagic".to_string(alloc),
        CapsuleFault::BadFormat => "BadFormat".to_string(alloc),
        CapsuleFault::OtherVm { id } => format!(in alloc; "OtherVm {{ id: {id} }}"),
        CapsuleFault::BadHandler => "BadHandler".to_string(alloc),
        CapsuleFault::BadLength => "BadLength".to_string(alloc),
        CapsuleFault::BadVersion => "BadVersion".to_string(alloc),
    }
}
