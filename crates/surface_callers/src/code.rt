//! Byte code: a machine's table of opcodes, code as bytes and as instructions, its listing, and its verification.

ghost use Rattle.std.specs.Prelude.{◌≡◌, ◌≤◌, length, IsTrue};
ghost use Rattle.mate_num.specs.declared.bounds.TheConstants.{CODE_MAX};
ghost use Rattle.mate_code.specs.Code.{instrs_of};
ghost use Rattle.mate_code.specs.Table.{AreInTable, table_of};
ghost use Rattle.mate_code.specs.Verification.{is_start};

use code_verifier::{Verified, VerifyFault, verify};
use lock_inference::locks;
use mate_code::{DecodeFault, Instr, Instrs, Table, TooLong, decode, encode, listing};
use mate_files::{Sink, SinkFault};
use mate_num::{BufId, Code, FunId, LockSet, Name, Shape, VarId};
use opcode_gen::{print_table, table};
use vm_desc::{Description, shape};

/// The bytes of some instructions, and back again.
pub fn there_and_back(shape: &Shape, instrs: &[Instr]) -> Result<Option<Instrs>, TooLong>
    requires { AreInTable (table_of shape.now) instrs.now }
{
    let table = Table::of(shape);
    let code: Code = encode(&table, instrs)?;
    Ok(decoded(&table, code.as_slice()))
}

fn decoded(table: &Table, bytes: &[u8]) -> Option<Instrs>
    requires { length bytes.now ≤ CODE_MAX }
{
    match decode(table, bytes) {
        Ok(instrs) => Some(instrs),
        Err(DecodeFault::BadOpcode { place: _ } | DecodeFault::CutShort { place: _ }) => None,
    }
}

/// A list of one instruction and its place.
pub fn one_instruction(instr: Instr) -> Instrs {
    let mut instrs = Instrs::new();
    instrs.push((0, instr));
    let _first: Option<&(u16, Instr)> = instrs.get(0);
    let _all: &[(u16, Instr)] = instrs.as_slice();
    let _count: usize = instrs.len();
    instrs
}

/// The opcodes of a machine, written to a sink.
pub fn opcodes<S: Sink>(desc: &Description, out: &mut S) -> Result<(), SinkFault> {
    let _table: Table = table(desc);
    print_table(desc, out)
}

/// The code of a machine that is verified, with what it reads and writes; or the place at which it is refused.
pub fn accepted(desc: &Description, bytes: &[u8]) -> Result<(Verified, LockSet), u32> {
    let table = table(desc);
    match verify(&table, desc, bytes) {
        Ok(code) => {
            let set = locks(desc, &code);
            Ok((code, set))
        }
        Err(fault) => Err(place_of(fault)),
    }
}

fn place_of(fault: VerifyFault) -> u32 {
    match fault {
        VerifyFault::Decode { place }
        | VerifyFault::BadTarget { place }
        | VerifyFault::BackJump { place }
        | VerifyFault::Underflow { place }
        | VerifyFault::Overflow { place }
        | VerifyFault::DepthDiffers { place }
        | VerifyFault::BadIndex { place } => place,
        VerifyFault::NoHalt => 0,
        VerifyFault::TooLong { len: _ } => 1040,
    }
}

/// The instruction at a place of verified code, with the code's bytes and the shape that it is verified for.
pub fn at_place(code: &Verified, place: u16) -> (Instr, usize, u8)
    requires { IsTrue (is_start code.now.code place) }
{
    let bytes: &Code = code.code();
    let shape: &Shape = code.shape();
    (code.instr(place), bytes.len(), shape.shared)
}

/// Lists instructions by the names of a machine's functions.
pub fn listed<S: Sink>(
    table: &Table,
    names: &[Name],
    instrs: &Instrs,
    out: &mut S,
) -> Result<(), SinkFault>
    requires in_table { AreInTable table.now (instrs_of instrs.now) }
    requires names { length names.now ≡ length table.now.sends }
{
    listing(table, names, instrs, out)
}

/// The number that an instruction carries, if it carries one.
pub fn operand_of(instr: Instr) -> Option<i32> {
    match instr {
        Instr::PushW(value) => Some(i32::from(value)),
        Instr::PushB(value) | Instr::GetP(value) | Instr::SetP(value) => Some(i32::from(value)),
        Instr::GetS(VarId(number)) | Instr::SetS(VarId(number)) => Some(i32::from(number)),
        Instr::Jz(place) | Instr::Jmp(place) | Instr::Back(place) => Some(i32::from(place)),
        Instr::BGet(BufId(number))
        | Instr::BSet(BufId(number))
        | Instr::BAdd(BufId(number))
        | Instr::BTake(BufId(number))
        | Instr::BSize(BufId(number))
        | Instr::BClear(BufId(number)) => Some(i32::from(number)),
        Instr::Fun(FunId(number)) | Instr::FunBuf(FunId(number), BufId(_)) => {
            Some(i32::from(number))
        }
        Instr::Halt | Instr::Drop | Instr::MsgGet | Instr::MsgSize => None,
        Instr::Add | Instr::Sub | Instr::Mul | Instr::Div | Instr::Mod | Instr::Neg => None,
        Instr::Not | Instr::And | Instr::Or => None,
        Instr::Eq | Instr::Ne | Instr::Lt | Instr::Gt | Instr::Le | Instr::Ge => None,
    }
}
