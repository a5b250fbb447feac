//! The text of the capsule with an image in hexadecimal digits.

use capsule_codec::decode;
use cases_files::{bytes_of, in_one_line};
use code_verifier::verify;
use mate_files::MemSink;
use opcode_gen::{print_capsule, table};
use std::alloc::{AllocError, Global};
use vm_shape::Description;

pub fn answer(alloc: Global, desc: &Description, case: &str) -> Result<String, AllocError> {
    let Some(bytes) = bytes_of(alloc, case)? else {
        return "no digits".to_string(alloc);
    };
    let Ok(capsule) = decode(desc, &bytes) else {
        return "no capsule".to_string(alloc);
    };
    let Ok(code) = verify(&table(desc), desc, capsule.code.as_slice()) else {
        return "no code".to_string(alloc);
    };
    let mut sink = MemSink::new(alloc);
    if print_capsule(desc, &capsule, &code, &mut sink).is_err() {
        return "no text".to_string(alloc);
    }
    in_one_line(alloc, sink.bytes())
}
