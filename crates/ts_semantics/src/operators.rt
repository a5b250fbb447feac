//! What operators give.

ghost use Rattle.std.specs.Prelude.{◌≡◌};
ghost use Rattle.ts_semantics.specs.Meaning.{applied};
ghost use Rattle.mate_num.specs.Operators.{or_div_zero as or_div_zero_of};

use mate_num::{FaultKind, Num16};
use ts_checked::BinOp;

/// What an operator gives for two numbers: `DivZero` exactly for `/` and `%` with 0 on the right.
pub fn apply(op: BinOp, left: i16, right: i16) -> Result<i16, FaultKind>
    ensures { result ≡ applied op left right }
{
    let (a, b) = (Num16(left), Num16(right));
    match op {
        BinOp::Or => Ok(a.or(b).0),
        BinOp::And => Ok(a.and(b).0),
        BinOp::Eq => Ok(a.eq(b).0),
        BinOp::Ne => Ok(a.ne(b).0),
        BinOp::Lt => Ok(a.lt(b).0),
        BinOp::Gt => Ok(a.gt(b).0),
        BinOp::Le => Ok(a.le(b).0),
        BinOp::Ge => Ok(a.ge(b).0),
        BinOp::Add => Ok(a.add(b).0),
        BinOp::Sub => Ok(a.sub(b).0),
        BinOp::Mul => Ok(a.mul(b).0),
        BinOp::Div => or_div_zero(a.div(b)),
        BinOp::Rem => or_div_zero(a.rem(b)),
    }
}

fn or_div_zero(number: Option<Num16>) -> Result<i16, FaultKind>
    ensures { result ≡ or_div_zero_of number }
{
    match number {
        None => Err(FaultKind::DivZero),
        Some(number) => Ok(number.0),
    }
}
