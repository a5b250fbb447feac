//! From bytes to instructions.

ghost use Rattle.std.specs.Prelude.{◌≡◌, ◌+◌, ◌≤◌, length, MatchResult, IfOk, IfErr, Ok, Err};
ghost use Rattle.mate_code.specs.Instr.{FitsForm, size_of};
ghost use Rattle.mate_code.specs.Row.{width_of};
ghost use Rattle.mate_code.specs.Code.{decoded, instr_at, with_kind, operand_at, IsDecoded, StopsAt};

use crate::instr::Instr;
use crate::instrs::Instrs;
use crate::kind::{Kind, OperandForm};
use crate::table::Table;
use mate_num::CODE_MAX;

/// The first instruction of some bytes that can't be read, with its place: the offset of its opcode.
#[derive(Clone, Copy)]
pub enum DecodeFault {
    /// The table has no such opcode.
    BadOpcode { place: u32 },
    /// The bytes end before the instruction does.
    CutShort { place: u32 },
}

/// The instructions that the bytes spell, with their places, or the first that can't be read.
pub fn decode(table: &Table, bytes: &[u8]) -> Result<Instrs, DecodeFault>
    requires { length bytes.now ≤ CODE_MAX }
    ensures value { result ≡ decoded table.now bytes.now }

    // The bytes are the one encoding of the instructions.
    ensures encoding { IfOk result (λ pairs. IsDecoded table.now 0 bytes.now pairs) }
    // The bytes before the place of a fault are the encoding of some instructions.
    ensures fault { IfErr result (λ fault. StopsAt table.now 0 bytes.now fault) }
{
    read_all(table, bytes)
}

fn read_all(table: &Table, bytes: &[u8]) -> Result<Instrs, DecodeFault>
    requires { length bytes.now ≤ CODE_MAX }
    ensures { result ≡ decoded table.now bytes.now }
{
    let mut instrs = Instrs::new();
    let mut place: u16 = 0;
    let mut rest = bytes;
    'instrs: while let [opcode, operand @ ..] = rest {
        let (instr, after) = read_instr(table, place, *opcode, operand)?;
        instrs.push((place, instr));
        place += instr.size() as u16;
        rest = after;
    }
    Ok(instrs)
}

/// The instruction at `place`, by its opcode and the bytes after it, and what is left of these; or why it can't be read.
pub fn read_instr<'a>(
    table: &Table,
    place: u16,
    opcode: u8,
    bytes: &'a [u8],
) -> Result<(Instr, &'a [u8]), DecodeFault>
    ensures { MatchResult
        result
        (λ read. instr_at table.now place opcode bytes.now ≡ Ok (read.0, read.1.now))
        (λ fault. instr_at table.now place opcode bytes.now ≡ Err fault) }
{
    read_kind(place, table.kind(opcode), bytes)
}

/// The same by the kind that the opcode has, if it has one.
fn read_kind<'a>(
    place: u16,
    kind: Option<Kind>,
    bytes: &'a [u8],
) -> Result<(Instr, &'a [u8]), DecodeFault>
    ensures { MatchResult
        result
        (λ read. with_kind place kind bytes.now ≡ Ok (read.0, read.1.now))
        (λ fault. with_kind place kind bytes.now ≡ Err fault) }
{
    let place = place as u32;
    let Some(kind) = kind else {
        return Err(DecodeFault::BadOpcode { place });
    };
    let form = kind.form();
    if bytes.len() < form.width() {
        return Err(DecodeFault::CutShort { place });
    }
    let operand = read_operand(form, bytes);
    Ok((Instr::of(kind, operand), bytes.split_at(form.width()).1))
}

// The operand that the first bytes spell.
fn read_operand(form: OperandForm, bytes: &[u8]) -> u16
    requires { width_of form ≤ length bytes.now }
    ensures value { result ≡ operand_at form bytes.now }
    ensures fits { FitsForm form result }
{
    match form {
        OperandForm::Absent => 0,
        OperandForm::Byte => bytes[0] as u16,
        OperandForm::Word | OperandForm::SignedWord => u16::from_be_bytes([bytes[0], bytes[1]]),
    }
}
