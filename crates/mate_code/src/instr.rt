//! The instructions, in the order of their opcodes.

ghost use Rattle.std.specs.Prelude.{◌≡◌};
ghost use Rattle.mate_code.specs.Kind.{kind_of, instr_of, form_of};
ghost use Rattle.mate_code.specs.Instr.{operand_of, size_of, FitsForm};

use crate::kind::Kind;
use mate_num::{BufId, FunId, VarId};

/// One instruction. A number that names a variable, a buffer, a function or a place may be out of range:
/// only verified code has all of them in range.
#[derive(Clone, Copy, Default)]
pub enum Instr {
    /// Ends the run.
    #[default]
    Halt,
    /// Pushes the value.
    PushW(i16),
    /// Pushes the value, from 0 to 255.
    PushB(u8),
    /// Pushes a shared variable.
    GetS(VarId),
    /// Pops into a shared variable.
    SetS(VarId),
    /// Pushes a private variable, from 0 to 7.
    GetP(u8),
    /// Pops into a private variable, from 0 to 7.
    SetP(u8),
    /// Pops right, pops left, pushes their sum.
    Add,
    /// Pops right, pops left, pushes their difference.
    Sub,
    /// Pops right, pops left, pushes their product.
    Mul,
    /// Pops right, pops left, pushes their quotient, or faults.
    Div,
    /// Pops right, pops left, pushes their remainder, or faults.
    Mod,
    /// Pops, pushes the negative.
    Neg,
    /// Pops, pushes 1 for 0 and 0 for any other value.
    Not,
    /// Pops right, pops left, pushes whether both count as true.
    And,
    /// Pops right, pops left, pushes whether one counts as true.
    Or,
    /// Pops right, pops left, pushes whether they are equal.
    Eq,
    /// Pops right, pops left, pushes whether they differ.
    Ne,
    /// Pops right, pops left, pushes whether left is less.
    Lt,
    /// Pops right, pops left, pushes whether left is greater.
    Gt,
    /// Pops right, pops left, pushes whether left is at most right.
    Le,
    /// Pops right, pops left, pushes whether left is at least right.
    Ge,
    /// Pops; if it is 0, goes on at the place.
    Jz(u16),
    /// Goes on at the place.
    Jmp(u16),
    /// Pays a turn, or faults if none is left, and goes on at the place.
    Back(u16),
    /// Pops.
    Drop,
    /// Pops an index, pushes that value of the message, or faults.
    MsgGet,
    /// Pushes the number of values of the message.
    MsgSize,
    /// Pops an index, pushes that value of the buffer, or faults.
    BGet(BufId),
    /// Pops a value, pops an index, stores the value in the buffer, or faults.
    BSet(BufId),
    /// Pops, appends to the buffer, or faults if it is full.
    BAdd(BufId),
    /// Takes the buffer's last value and pushes it, or faults if it is empty.
    BTake(BufId),
    /// Pushes the number of values in the buffer.
    BSize(BufId),
    /// Empties the buffer.
    BClear(BufId),
    /// Pops the function's arguments, the last one first, calls it, and pushes the answer.
    Fun(FunId),
    /// Calls a function that sends the buffer's values, and pushes the answer.
    FunBuf(FunId, BufId),
}

impl Instr {
    /// The instruction without its operand.
    pub fn kind(self) -> Kind
        ensures { result ≡ kind_of self }
    {
        match self {
            Instr::Halt => Kind::Halt,
            Instr::PushW(_) => Kind::PushW,
            Instr::PushB(_) => Kind::PushB,
            Instr::GetS(_) => Kind::GetS,
            Instr::SetS(_) => Kind::SetS,
            Instr::GetP(_) => Kind::GetP,
            Instr::SetP(_) => Kind::SetP,
            Instr::Add => Kind::Add,
            Instr::Sub => Kind::Sub,
            Instr::Mul => Kind::Mul,
            Instr::Div => Kind::Div,
            Instr::Mod => Kind::Mod,
            Instr::Neg => Kind::Neg,
            Instr::Not => Kind::Not,
            Instr::And => Kind::And,
            Instr::Or => Kind::Or,
            Instr::Eq => Kind::Eq,
            Instr::Ne => Kind::Ne,
            Instr::Lt => Kind::Lt,
            Instr::Gt => Kind::Gt,
            Instr::Le => Kind::Le,
            Instr::Ge => Kind::Ge,
            Instr::Jz(_) => Kind::Jz,
            Instr::Jmp(_) => Kind::Jmp,
            Instr::Back(_) => Kind::Back,
            Instr::Drop => Kind::Drop,
            Instr::MsgGet => Kind::MsgGet,
            Instr::MsgSize => Kind::MsgSize,
            Instr::BGet(_) => Kind::BGet,
            Instr::BSet(_) => Kind::BSet,
            Instr::BAdd(_) => Kind::BAdd,
            Instr::BTake(_) => Kind::BTake,
            Instr::BSize(_) => Kind::BSize,
            Instr::BClear(_) => Kind::BClear,
            Instr::Fun(fun) => Kind::Fun(fun),
            Instr::FunBuf(fun, _) => Kind::FunBuf(fun),
        }
    }

    /// The operand as its bytes spell it: a value with a sign is taken modulo 65536. It is 0 if there is none.
    pub fn operand(self) -> u16
        ensures value { result ≡ operand_of self }
        ensures fits { FitsForm (form_of (kind_of self)) result }
        ensures whole { instr_of (kind_of self) result ≡ self }
    {
        match self {
            Instr::PushW(value) => value.cast_unsigned(),
            Instr::PushB(byte) | Instr::GetP(byte) | Instr::SetP(byte) => byte as u16,
            Instr::GetS(variable) | Instr::SetS(variable) => variable.0 as u16,
            Instr::Jz(place) | Instr::Jmp(place) | Instr::Back(place) => place,
            Instr::BGet(buffer)
            | Instr::BSet(buffer)
            | Instr::BAdd(buffer)
            | Instr::BTake(buffer)
            | Instr::BSize(buffer)
            | Instr::BClear(buffer)
            | Instr::FunBuf(_, buffer) => buffer.0 as u16,
            _ => 0,
        }
    }

    /// The instruction of a kind and an operand.
    pub fn of(kind: Kind, operand: u16) -> Instr
        requires { FitsForm (form_of kind) operand }
        ensures { result ≡ instr_of kind operand }
    {
        match kind {
            Kind::Halt => Instr::Halt,
            Kind::PushW => Instr::PushW(operand.cast_signed()),
            Kind::PushB => Instr::PushB(operand as u8),
            Kind::GetS => Instr::GetS(VarId(operand as u8)),
            Kind::SetS => Instr::SetS(VarId(operand as u8)),
            Kind::GetP => Instr::GetP(operand as u8),
            Kind::SetP => Instr::SetP(operand as u8),
            Kind::Add => Instr::Add,
            Kind::Sub => Instr::Sub,
            Kind::Mul => Instr::Mul,
            Kind::Div => Instr::Div,
            Kind::Mod => Instr::Mod,
            Kind::Neg => Instr::Neg,
            Kind::Not => Instr::Not,
            Kind::And => Instr::And,
            Kind::Or => Instr::Or,
            Kind::Eq => Instr::Eq,
            Kind::Ne => Instr::Ne,
            Kind::Lt => Instr::Lt,
            Kind::Gt => Instr::Gt,
            Kind::Le => Instr::Le,
            Kind::Ge => Instr::Ge,
            Kind::Jz => Instr::Jz(operand),
            Kind::Jmp => Instr::Jmp(operand),
            Kind::Back => Instr::Back(operand),
            Kind::Drop => Instr::Drop,
            Kind::MsgGet => Instr::MsgGet,
            Kind::MsgSize => Instr::MsgSize,
            Kind::BGet => Instr::BGet(BufId(operand as u8)),
            Kind::BSet => Instr::BSet(BufId(operand as u8)),
            Kind::BAdd => Instr::BAdd(BufId(operand as u8)),
            Kind::BTake => Instr::BTake(BufId(operand as u8)),
            Kind::BSize => Instr::BSize(BufId(operand as u8)),
            Kind::BClear => Instr::BClear(BufId(operand as u8)),
            Kind::Fun(fun) => Instr::Fun(fun),
            Kind::FunBuf(fun) => Instr::FunBuf(fun, BufId(operand as u8)),
        }
    }

    /// How many bytes the instruction takes, from 1 to 3.
    pub fn size(self) -> usize
        ensures { result ≡ size_of self }
    {
        1 + self.row().form.width()
    }
}
