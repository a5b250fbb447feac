//! The instructions of a script's words.

ghost use Rattle.std.specs.Prelude.{◌≡◌, ◌≤◌};
ghost use Rattle.mate_code.specs.Instr.{size_of};
ghost use Rattle.ts_semantics.specs.Translation.{number_code, get_code, set_code, operator_code, within_code};

use mate_code::Instr;
use ts_checked::{BinOp, CVar};

/// Pushes a number: by one byte if it is from 0 to 255, else by two.
pub(crate) fn number_instr(value: i16) -> Instr
    ensures { result ≡ number_code value }
{
    if value >= 0 && value < 256 {
        Instr::PushB(value as u8)
    } else {
        Instr::PushW(value)
    }
}

/// How many bytes the instruction takes that pushes a number.
pub(crate) fn number_size(value: i16) -> u16
    ensures size { result ≡ size_of (number_code value) }
    ensures fits { result ≤ 3 }
{
    if value < 0 || value > 255 { 3 } else { 2 }
}

pub(crate) fn get_instr(variable: CVar) -> Instr
    ensures { result ≡ get_code variable }
{
    match variable {
        CVar::Shared(variable) => Instr::GetS(variable),
        CVar::Private(private) => Instr::GetP(private),
    }
}

pub(crate) fn set_instr(variable: CVar) -> Instr
    ensures { result ≡ set_code variable }
{
    match variable {
        CVar::Shared(variable) => Instr::SetS(variable),
        CVar::Private(private) => Instr::SetP(private),
    }
}

pub(crate) fn operator_instr(op: BinOp) -> Instr
    ensures { result ≡ operator_code op }
{
    match op {
        BinOp::Or => Instr::Or,
        BinOp::And => Instr::And,
        BinOp::Eq => Instr::Eq,
        BinOp::Ne => Instr::Ne,
        BinOp::Lt => Instr::Lt,
        BinOp::Gt => Instr::Gt,
        BinOp::Le => Instr::Le,
        BinOp::Ge => Instr::Ge,
        BinOp::Add => Instr::Add,
        BinOp::Sub => Instr::Sub,
        BinOp::Mul => Instr::Mul,
        BinOp::Div => Instr::Div,
        BinOp::Rem => Instr::Mod,
    }
}

/// Tests that the variable of a `for` isn't past its limit.
pub(crate) fn within_instr(step: i16) -> Instr
    ensures { result ≡ within_code step }
{
    if step < 0 { Instr::Ge } else { Instr::Le }
}
