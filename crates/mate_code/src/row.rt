//! The table of instructions: all that is said of an instruction in one row. (What an instruction does is in the specs' `Effect`.)

ghost use Rattle.std.specs.Prelude.{◌≡◌};
ghost use Rattle.mate_code.specs.Row.{columns, row_of};
ghost use Rattle.mate_code.specs.Kind.{kind_row};
ghost use Rattle.mate_code.specs.RowValue.{row_in};

use crate::flow::Flow;
use crate::instr::Instr;
use crate::kind::{Kind, OperandForm};
use crate::uses::Use;
use Flow::{Branches, Ends, Jumps, Next, Returns};
use Opcode::{Base, Function, Group};
use OperandForm::{Absent, Byte, SignedWord, Word};
use Pops::{Args, Values};
use Resource::{Buffer, Shared};
use Use::{Calls, Changes, Gets, Nothing, Sends};
use mate_num::{FunId, Resource};

/// Which opcode an instruction has, and in which tables.
#[derive(Clone, Copy)]
pub enum Opcode {
    /// This one, in each table.
    Base(u8),
    /// This one, in the tables of machines with a buffer.
    Group(u8),
    /// That of the function, in the tables of machines that have it; whether it sends a buffer.
    Function(FunId, bool),
}

/// How many values an instruction takes from the stack.
#[derive(Clone, Copy)]
pub enum Pops {
    /// This many.
    Values(u8),
    /// As many as the function has arguments.
    Args(FunId),
}

/// An instruction's row.
#[derive(Clone, Copy)]
pub struct Row {
    /// Which opcode it has, and in which tables.
    pub opcode: Opcode,
    /// How it is listed; a function has its name from its machine, and none here.
    pub name: &'static str,
    /// What comes after the opcode.
    pub form: OperandForm,
    /// How many values it takes from the stack.
    pub pops: Pops,
    /// How many values it puts on the stack, 0 or 1; a function's answer is one.
    pub pushes: u8,
    /// Where a run goes on.
    pub flow: Flow,
    /// What it has to do with what handlers share.
    pub uses: Use,
}

impl Kind {
    /// The row of the kind's instruction with the operand 0: its first columns are those of each instruction of the kind.
    pub fn row(self) -> Row
        ensures { row_in result ≡ kind_row self }
    {
        Instr::of(self, 0).row()
    }
}

impl Instr {
    /// The instruction's row. The columns are those of `Row`, in their order: the opcode, the name, what comes after the
    /// opcode, how many values it pops and pushes, where a run goes on, and what it uses. A row by `plain` or `of_byte`
    /// leaves out the columns that all of its sort share. It is inlined, so that who asks for one column makes no other.
    #[inline(always)]
    pub fn row(self) -> Row
        ensures { row_in result ≡ row_of self }
    {
        match self {
            Instr::Halt => columns(Base(0x00), "HALT", Absent, Values(0), 0, Ends, Nothing),
            Instr::PushW(_) => columns(
                Base(0x01),
                "PUSHW",
                SignedWord,
                Values(0),
                1,
                Next,
                Nothing,
            ),
            Instr::PushB(_) => of_byte(Base(0x02), "PUSHB", 0, 1, Nothing),
            Instr::GetS(v) => of_byte(Base(0x03), "GETS", 0, 1, Gets(Shared(v))),
            Instr::SetS(v) => of_byte(Base(0x04), "SETS", 1, 0, Changes(Shared(v))),
            Instr::GetP(_) => of_byte(Base(0x05), "GETP", 0, 1, Nothing),
            Instr::SetP(_) => of_byte(Base(0x06), "SETP", 1, 0, Nothing),
            Instr::Add => plain(0x07, "ADD", 2, 1),
            Instr::Sub => plain(0x08, "SUB", 2, 1),
            Instr::Mul => plain(0x09, "MUL", 2, 1),
            Instr::Div => plain(0x0a, "DIV", 2, 1),
            Instr::Mod => plain(0x0b, "MOD", 2, 1),
            Instr::Neg => plain(0x0c, "NEG", 1, 1),
            Instr::Not => plain(0x0d, "NOT", 1, 1),
            Instr::And => plain(0x0e, "AND", 2, 1),
            Instr::Or => plain(0x0f, "OR", 2, 1),
            Instr::Eq => plain(0x10, "EQ", 2, 1),
            Instr::Ne => plain(0x11, "NE", 2, 1),
            Instr::Lt => plain(0x12, "LT", 2, 1),
            Instr::Gt => plain(0x13, "GT", 2, 1),
            Instr::Le => plain(0x14, "LE", 2, 1),
            Instr::Ge => plain(0x15, "GE", 2, 1),
            Instr::Jz(to) => columns(Base(0x16), "JZ", Word, Values(1), 0, Branches(to), Nothing),
            Instr::Jmp(to) => columns(Base(0x17), "JMP", Word, Values(0), 0, Jumps(to), Nothing),
            Instr::Back(to) => columns(
                Base(0x18),
                "BACK",
                Word,
                Values(0),
                0,
                Returns(to),
                Nothing,
            ),
            Instr::Drop => plain(0x19, "DROP", 1, 0),
            Instr::MsgGet => plain(0x1a, "MSGGET", 1, 1),
            Instr::MsgSize => plain(0x1b, "MSGSIZE", 0, 1),
            Instr::BGet(b) => of_byte(Group(0x1c), "BGET", 1, 1, Gets(Buffer(b))),
            Instr::BSet(b) => of_byte(Group(0x1d), "BSET", 2, 0, Changes(Buffer(b))),
            Instr::BAdd(b) => of_byte(Group(0x1e), "BADD", 1, 0, Changes(Buffer(b))),
            Instr::BTake(b) => of_byte(Group(0x1f), "BTAKE", 0, 1, Changes(Buffer(b))),
            Instr::BSize(b) => of_byte(Group(0x20), "BSIZE", 0, 1, Gets(Buffer(b))),
            Instr::BClear(b) => of_byte(Group(0x21), "BCLEAR", 0, 0, Changes(Buffer(b))),
            Instr::Fun(f) => columns(Function(f, false), "", Absent, Args(f), 1, Next, Calls(f)),
            Instr::FunBuf(f, b) => of_byte(Function(f, true), "", 0, 1, Sends(f, b)),
        }
    }
}

// The row of an instruction with no operand, which goes on at the next place and names nothing.
fn plain(opcode: u8, name: &'static str, pops: u8, pushes: u8) -> Row
    ensures { row_in result ≡ columns (Opcode.Base opcode) name.now OperandForm.Absent (Pops.Values pops) pushes Flow.Next Use.Nothing }
{
    columns(
        Base(opcode),
        name,
        Absent,
        Values(pops),
        pushes,
        Next,
        Nothing,
    )
}

// The row of an instruction with an operand of a byte, which goes on at the next place.
fn of_byte(opcode: Opcode, name: &'static str, pops: u8, pushes: u8, uses: Use) -> Row
    ensures { row_in result ≡ columns opcode name.now OperandForm.Byte (Pops.Values pops) pushes Flow.Next uses }
{
    columns(opcode, name, Byte, Values(pops), pushes, Next, uses)
}

// The row of these columns.
fn columns(
    opcode: Opcode,
    name: &'static str,
    form: OperandForm,
    pops: Pops,
    pushes: u8,
    flow: Flow,
    uses: Use,
) -> Row
    ensures { row_in result ≡ columns opcode name.now form pops pushes flow uses }
{
    Row {
        opcode,
        name,
        form,
        pops,
        pushes,
        flow,
        uses,
    }
}
