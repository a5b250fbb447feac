//! The kinds of instructions, in the order of their opcodes, and what comes after each opcode.

ghost use Rattle.std.specs.Prelude.{◌≡◌, ◌<◌, length, IsSome, slice_get};
ghost use Rattle.mate_code.specs.Kind.{form_of, kind_name, IsKindNamed};
ghost use Rattle.mate_code.specs.Row.{width_of};

use crate::row::Opcode;
use mate_num::{FunId, Name};

/// What comes after an opcode.
#[derive(Clone, Copy)]
pub enum OperandForm {
    /// Nothing.
    Absent,
    /// One byte.
    Byte,
    /// Two bytes, the high one first: a place.
    Word,
    /// Two bytes, the high one first: a value with a sign.
    SignedWord,
}

/// The kind of an instruction: the instruction without its operand. Each function is a kind of its own.
#[derive(Clone, Copy)]
pub enum Kind {
    Halt,
    PushW,
    PushB,
    GetS,
    SetS,
    GetP,
    SetP,
    Add,
    Sub,
    Mul,
    Div,
    Mod,
    Neg,
    Not,
    And,
    Or,
    Eq,
    Ne,
    Lt,
    Gt,
    Le,
    Ge,
    Jz,
    Jmp,
    Back,
    Drop,
    MsgGet,
    MsgSize,
    BGet,
    BSet,
    BAdd,
    BTake,
    BSize,
    BClear,
    /// A function that takes its arguments from the stack.
    Fun(FunId),
    /// A function that sends a buffer.
    FunBuf(FunId),
}

impl OperandForm {
    /// The number of the operand's bytes, from 0 to 2.
    pub fn width(self) -> usize
        ensures { result ≡ width_of self }
    {
        match self {
            OperandForm::Absent => 0,
            OperandForm::Byte => 1,
            OperandForm::Word | OperandForm::SignedWord => 2,
        }
    }
}

impl Kind {
    /// What comes after the kind's opcode.
    pub fn form(self) -> OperandForm
        ensures { result ≡ form_of self }
    {
        self.row().form
    }

    /// The kind's name; a function's is its own, in `functions`.
    pub fn name(self, functions: &[Name]) -> &str
        requires { IsKindNamed functions.now self }
        ensures { result.now ≡ kind_name functions.now self }
    {
        let row = self.row();
        match row.opcode {
            Opcode::Base(_) | Opcode::Group(_) => row.name,
            Opcode::Function(fun, _) => functions[fun.0 as usize].as_str(),
        }
    }
}
