//! The text of a capsule, into a sink that fails.

use capsule_codec::{decode, from_hex};
use code_verifier::verify;
use mate_files::{MemSink, SinkFault};
use opcode_gen::{print_capsule, table};
use std::test::Fail;
use vm_shape::{Description, builtin};

/// Writes the text of the capsule with this image, and returns what the sink did.
fn print(
    desc: &Description,
    digits: &str,
    sink: &mut MemSink,
) -> Result<Result<(), SinkFault>, Fail> {
    let Ok(image) = from_hex(digits.as_bytes()) else {
        return Err("no digits".into());
    };
    let Ok(capsule) = decode(desc, image.as_slice()) else {
        return Err("no capsule".into());
    };
    let Ok(code) = verify(&table(desc), desc, capsule.code.as_slice()) else {
        return Err("code that is refused".into());
    };
    Ok(print_capsule(desc, &capsule, &code, sink))
}

#[test]
fn faults_leave_a_prefix(rt: HostRuntime) -> Result<(), Fail> {
    let desc = builtin();
    let digits = "4d4154450100000000010000000100080207020609040000";
    let mut whole = MemSink::new(rt.alloc());
    print(&desc, digits, &mut whole)??;
    for call in 1..20 {
        let mut sink = MemSink::new(rt.alloc());
        sink.fail_at(call)?;
        let failed = matches!(print(&desc, digits, &mut sink)?, Err(SinkFault::Failed));
        let shorter = sink.bytes().len() < whole.bytes().len();
        assert!(rt; failed && shorter && whole.bytes().starts_with(sink.bytes()));
    }
    Ok(())
}
