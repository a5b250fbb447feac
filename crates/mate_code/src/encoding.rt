//! From instructions to bytes.

ghost use Rattle.std.specs.Prelude.{◌≡◌, ◌+◌, ◌<◌, ◌≤◌, ◌++◌, ◌∷◌, ◌↔◌, length, sum_by, IfOk, IfErr, IsErr, Ok};
ghost use Rattle.std.specs.Int.{w16, to_be_bytes};
ghost use Rattle.mate_code.specs.Kind.{kind_of, form_of};
ghost use Rattle.mate_code.specs.Instr.{operand_of, size_of, FitsForm};
ghost use Rattle.mate_code.specs.Row.{width_of};
ghost use Rattle.mate_code.specs.Table.{AreInTable};
ghost use Rattle.mate_code.specs.Code.{code_bytes, operand_bytes, decoded, placed, IsWritable};

use crate::instr::Instr;
use crate::kind::OperandForm;
use crate::table::Table;
use mate_num::{CODE_MAX, Code};

/// Instructions that take more than `CODE_MAX` bytes, and how many they take.
#[derive(Clone, Copy)]
pub struct TooLong {
    pub size: u64,
}

/// The one encoding of the instructions: the opcode and the operand of each, one after another.
pub fn encode(table: &Table, instrs: &[Instr]) -> Result<Code, TooLong>
    requires { AreInTable table.now instrs.now }
    ensures code { IfOk result (λ code. code.items ≡ code_bytes table.now instrs.now) }
    ensures too_long { IsErr result ↔ (CODE_MAX < length (code_bytes table.now instrs.now)) }
    ensures size { IfErr result (λ e. e.size ≡ length (code_bytes table.now instrs.now)) }

    // It decodes to these instructions, each at its place.
    ensures again { IfOk result (λ code. decoded table.now code.items ≡ Ok (placed 0 instrs.now)) }
{
    let size = total_size(instrs);
    if size > CODE_MAX as u64 {
        return Err(TooLong { size });
    }
    let mut code = Code::new();
    for instr in instrs {
        put(&mut code, table.opcode(instr.kind()), *instr);
    }
    Ok(code)
}

// How many bytes the instructions take.
fn total_size(instrs: &[Instr]) -> u64
    ensures { result ≡ sum_by size_of instrs.now }
{
    let mut size: u64 = 0;
    for instr in instrs {
        size += instr.size() as u64;
    }
    size
}

// Appends an instruction's bytes.
fn put(code: &mut Code, opcode: u8, instr: Instr)
    requires { length code.old.items + size_of instr ≤ CODE_MAX }
    ensures bytes { code.new.items ≡ code.old.items ++ (opcode ∷ operand_bytes (form_of (kind_of instr)) (operand_of instr)) }
    ensures writable { IsWritable instr }
{
    code.push(opcode);
    put_operand(code, instr.kind().form(), instr.operand());
}

// Appends an operand's bytes, the high one first.
fn put_operand(code: &mut Code, form: OperandForm, operand: u16)
    requires room { length code.old.items + width_of form ≤ CODE_MAX }
    requires fits { FitsForm form operand }
    ensures { code.new.items ≡ code.old.items ++ operand_bytes form operand }
{
    match form {
        OperandForm::Absent => {}
        OperandForm::Byte => code.push(operand as u8),
        OperandForm::Word | OperandForm::SignedWord => put_word(code, operand),
    }
}

fn put_word(code: &mut Code, word: u16)
    requires { length code.old.items + 2 ≤ CODE_MAX }
    ensures { code.new.items ≡ code.old.items ++ to_be_bytes w16 word }
{
    let [high, low] = word.to_be_bytes();
    code.push(high);
    code.push(low);
}
