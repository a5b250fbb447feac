//! A machine's kinds of instructions: the kind at an opcode and the form of its operand, and some of the calls that
//! kinds and instructions have, each by its word.

use mate_code::{Instr, Instrs, Kind, OperandForm};
use mate_num::VarId;
use opcode_gen::table;
use std::alloc::{AllocError, Global};
use vm_shape::Description;

pub fn answer(alloc: Global, desc: &Description, case: &str) -> Result<String, AllocError> {
    let table = table(desc);
    match case {
        "opcodes" => return table.len().to_string(alloc),
        "opcode of MSGSIZE" => return table.opcode(Kind::MsgSize).to_string(alloc),
        "name of Back" => return Kind::Back.name(&[]).to_string(alloc),
        "size of PUSHW" => return Instr::PushW(-2).size().to_string(alloc),
        "instructions" => return instructions(alloc),
        _ => {}
    }
    let Ok(opcode) = case.parse::<u8>() else {
        return "no opcode".to_string(alloc);
    };
    match table.kind(opcode) {
        Some(kind) => format!(in alloc; "{} {}", kind_word(kind), form_word(kind.form())),
        None => "none".to_string(alloc),
    }
}

fn kind_word(kind: Kind) -> &'static str {
    match kind {
        Kind::Halt => "Halt",
        Kind::PushW => "PushW",
        Kind::Jz => "Jz",
        _ => "another kind",
    }
}

fn form_word(form: OperandForm) -> &'static str {
    match form {
        OperandForm::Absent => "Absent",
        OperandForm::Byte => "Byte",
        OperandForm::Word => "Word",
        OperandForm::SignedWord => "SignedWord",
    }
}

fn instructions(alloc: Global) -> Result<String, AllocError> {
    let mut pairs = Instrs::new();
    let empty = pairs.is_empty();
    pairs.push((0, Instr::GetS(VarId(1))));
    pairs.push((2, Instr::Halt));
    let Some((place, instr)) = pairs.get(1) else {
        return "no pair".to_string(alloc);
    };
    let kind = kind_word(instr.kind());
    let third = pairs.get(2).is_some();
    format!(in alloc; "{empty} {} {} {kind} {third}", pairs.len(), *place)
}
