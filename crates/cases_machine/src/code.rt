//! Code in hexadecimal digits: its listing, and whether its instructions are encoded as these bytes again, or the first
//! fault.
ghost use Rattle.std.specs.Prelude.{◌≡◌, IfOk};
ghost use Rattle.mate_code.specs.Code.{instrs_of};

use cases_files::{bytes_of, in_one_line};
use mate_code::{DecodeFault, Instr, Instrs, decode, encode, listing};
use mate_files::MemSink;
use mate_num::CODE_MAX;
use opcode_gen::{function_names, table};
use std::alloc::{AllocError, Global};
use vm_shape::Description;

pub fn answer(alloc: Global, desc: &Description, case: &str) -> Result<String, AllocError> {
    let Some(bytes) = bytes_of(alloc, case)? else {
        return "no digits".to_string(alloc);
    };
    if bytes.len() > CODE_MAX {
        return "too long".to_string(alloc);
    }
    let table = table(desc);
    let pairs = match decode(&table, &bytes) {
        Ok(pairs) => pairs,
        Err(fault) => return fault_words(alloc, fault),
    };
    let instrs = without_places(alloc, &pairs)?;
    let again = match encode(&table, &instrs) {
        Ok(code) => code.as_slice() == bytes.as_slice(),
        Err(_) => false,
    };
    let mut sink = MemSink::new(alloc);
    let names = function_names(desc);
    if listing(&table, names.as_slice(), &pairs, &mut sink).is_err() {
        return "no listing".to_string(alloc);
    }
    let listed = in_one_line(alloc, sink.bytes())?;
    format!(in alloc; "{again} {listed}")
}

fn fault_words(alloc: Global, fault: DecodeFault) -> Result<String, AllocError> {
    match fault {
        DecodeFault::BadOpcode { place } => format!(in alloc; "BadOpcode {{ place: {place} }}"),
        DecodeFault::CutShort { place } => format!(in alloc; "CutShort {{ place: {place} }}"),
    }
}

// The instructions without their places.
fn without_places(alloc: Global, pairs: &Instrs) -> Result<Vec<Instr>, AllocError>
    ensures { IfOk result (λ instrs. instrs.items ≡ instrs_of pairs.now) }
{
    let mut instrs = Vec::new(alloc);
    for pair in pairs.as_slice() {
        instrs.push(pair.1)?;
    }
    Ok(instrs)
}
