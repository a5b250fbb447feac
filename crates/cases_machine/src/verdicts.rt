//! What the verifier says of code in hexadecimal digits: its refusal, or `ok`, the number of instructions and the first.

use cases_files::bytes_of;
use code_verifier::{Verified, VerifyFault, verify};
use opcode_gen::table;
use std::alloc::{AllocError, Global};
use vm_shape::Description;

pub fn answer(alloc: Global, desc: &Description, case: &str) -> Result<String, AllocError> {
    let Some(bytes) = bytes_of(alloc, case)? else {
        return "no digits".to_string(alloc);
    };
    match verify(&table(desc), desc, &bytes) {
        Ok(code) => verified(alloc, &code, &bytes),
        Err(fault) => fault_words(alloc, fault),
    }
}

fn fault_words(alloc: Global, fault: VerifyFault) -> Result<String, AllocError> {
    let (name, place) = match fault {
        VerifyFault::Decode { place } => ("Decode", place),
        VerifyFault::BadTarget { place } => ("BadTarget", place),
        VerifyFault::BackJump { place } => ("BackJump", place),
        VerifyFault::Underflow { place } => ("Underflow", place),
        VerifyFault::Overflow { place } => ("Overflow", place),
        VerifyFault::DepthDiffers { place } => ("DepthDiffers", place),
        VerifyFault::BadIndex { place } => ("BadIndex", place),
        VerifyFault::NoHalt => return "NoHalt".to_string(alloc),
        VerifyFault::TooLong { len } => return format!(in alloc; "TooLong {{ len: {len} }}"),
    };
    format!(in alloc; "{name} {{ place: {place} }}")
}

fn verified(alloc: Global, code: &Verified, bytes: &[u8]) -> Result<String, AllocError> {
    if code.code().as_slice() != bytes {
        return "other bytes".to_string(alloc);
    }
    format!(in alloc; "ok {}", code.instrs().len())
}
