//! Bodies that are right for one machine, tested for another.

use crate::sources::accepted;
use cases_files::marked_bytes;
use mate_num::{FunId, Shape, VarId};
use std::alloc::{AllocError, Global};
use ts_checked::{CArgs, CBlock, CExpr, CForHead, CStmt, CVar};
use ts_right::is_right;
use vm_desc::read;
use vm_shape::{Description, shape};

/// Whether the body of a case `DESCRIPTION | SOURCE`, in which the source is one for `machine`, is right for the machine
/// of the description.
pub fn answer(alloc: Global, machine: &Description, case: &str) -> Result<String, AllocError> {
    let Some((other, source)) = case.split_once(" | ") else {
        return "not two parts".to_string(alloc);
    };
    let Ok(other) = read(alloc, marked_bytes(alloc, other)?.as_slice()) else {
        return "no machine".to_string(alloc);
    };
    match accepted(alloc, machine, source)? {
        Ok(script) => format!(in alloc; "{}", is_right(&shape(&other), script.body())),
        Err(refusal) => Ok(refusal),
    }
}

/// Whether a body or a shape of that name, which no text spells, is right.
pub fn unspelled(alloc: Global, machine: &Description, name: &str) -> Result<String, AllocError> {
    let mut body = CBlock::new(alloc);
    if let Some(statement) = statement(alloc, name) {
        if body.push(statement).is_err() {
            return "no memory".to_string(alloc);
        }
    }
    let shape = shape(machine);
    let shared = if name == "17 shared variables" {
        17
    } else {
        shape.shared
    };
    let shape = Shape {
        shared,
        buffers: shape.buffers,
        functions: shape.functions,
    };
    format!(in alloc; "{}", is_right(&shape, &body))
}

/// The one statement of a body of that name, if it has one.
fn statement(alloc: Global, name: &str) -> Option<CStmt> {
    match name {
        "private 7" => Some(CStmt::Set(CVar::Private(7), first_call(alloc))),
        "private 8" => Some(CStmt::Set(CVar::Private(8), first_call(alloc))),
        "call in a limit" => Some(counting(alloc, first_call(alloc), 1)),
        "step 1" => Some(counting(alloc, CExpr::MsgSize, 1)),
        "step 0" => Some(counting(alloc, CExpr::MsgSize, 0)),
        "step -32767" => Some(counting(alloc, CExpr::MsgSize, -32767)),
        "step -32768" => Some(counting(alloc, CExpr::MsgSize, -32768)),
        _ => None,
    }
}

fn first_call(alloc: Global) -> CExpr {
    CExpr::Call(FunId(0), CArgs::new(alloc))
}

/// `for a = 0 to to step step next a`
fn counting(alloc: Global, to: CExpr, step: i16) -> CStmt {
    let var = CVar::Shared(VarId(0));
    let from = CExpr::Num(0);
    let head = CForHead {
        var,
        from,
        to,
        step,
    };
    CStmt::For(head, CBlock::new(alloc))
}
