//! Checked trees as text: each node by its type's name and its parts.

use mate_num::{BufId, FunId};
use std::alloc::{AllocError, Global};
use ts_checked::{BinOp, CArgs, CBlock, CExpr, CForHead, CStmt, CVar};

/// A block as text.
#[cycle(stmt_text)]
pub fn block_text(alloc: Global, block: &CBlock) -> Result<String, AllocError> {
    let mut items = String::new(alloc);
    for stmt in block.items.as_slice() {
        push_item(&mut items, stmt_text(alloc, stmt)?.as_str())?;
    }
    format!(in alloc; "CBlock {{ items: [{items}] }}")
}

/// Appends an item to the items before it. No item is the empty text.
fn push_item(items: &mut String, item: &str) -> Result<(), AllocError> {
    if !items.is_empty() {
        items.push_str(", ")?;
    }
    items.push_str(item)
}

#[cycle(stmt_text)]
fn stmt_text(alloc: Global, stmt: &CStmt) -> Result<String, AllocError> {
    match stmt {
        CStmt::Set(variable, value) => {
            let variable = variable_text(alloc, *variable)?;
            let value = expr_text(alloc, value)?;
            format!(in alloc; "Set({variable}, {value})")
        }
        CStmt::SetItem(buffer, index, value) => {
            let index = expr_text(alloc, index)?;
            let value = expr_text(alloc, value)?;
            format!(in alloc; "SetItem(BufId({}), {index}, {value})", buffer.0)
        }
        CStmt::Append(buffer, value) => {
            let value = expr_text(alloc, value)?;
            format!(in alloc; "Append(BufId({}), {value})", buffer.0)
        }
        CStmt::Take(variable, buffer) => {
            let variable = variable_text(alloc, *variable)?;
            format!(in alloc; "Take({variable}, BufId({}))", buffer.0)
        }
        CStmt::Clear(buffer) => format!(in alloc; "Clear(BufId({}))", buffer.0),
        CStmt::Do(fun, args) => {
            let args = args_text(alloc, args)?;
            format!(in alloc; "Do(FunId({}), {args})", fun.0)
        }
        CStmt::SendBuf(fun, buffer) => send_text(alloc, *fun, *buffer),
        CStmt::If(test, body, None) => {
            let test = expr_text(alloc, test)?;
            let body = block_text(alloc, body)?;
            format!(in alloc; "If({test}, {body}, None)")
        }
        CStmt::If(test, body, Some(other)) => {
            let test = expr_text(alloc, test)?;
            let body = block_text(alloc, body)?;
            let other = block_text(alloc, other)?;
            format!(in alloc; "If({test}, {body}, Some({other}))")
        }
        CStmt::For(head, body) => {
            let head = head_text(alloc, head)?;
            let body = block_text(alloc, body)?;
            format!(in alloc; "For({head}, {body})")
        }
        CStmt::While(test, body) => {
            let test = expr_text(alloc, test)?;
            let body = block_text(alloc, body)?;
            format!(in alloc; "While({test}, {body})")
        }
    }
}

fn head_text(alloc: Global, head: &CForHead) -> Result<String, AllocError> {
    let variable = variable_text(alloc, head.var)?;
    let from = expr_text(alloc, &head.from)?;
    let to = expr_text(alloc, &head.to)?;
    let step = head.step;
    format!(in alloc; "CForHead {{ var: {variable}, from: {from}, to: {to}, step: {step} }}")
}

fn variable_text(alloc: Global, variable: CVar) -> Result<String, AllocError> {
    match variable {
        CVar::Shared(variable) => format!(in alloc; "Shared(VarId({}))", variable.0),
        CVar::Private(private) => format!(in alloc; "Private({private})"),
    }
}

fn send_text(alloc: Global, fun: FunId, buffer: BufId) -> Result<String, AllocError> {
    format!(in alloc; "SendBuf(FunId({}), BufId({}))", fun.0, buffer.0)
}

#[cycle(expr_text)]
fn expr_text(alloc: Global, expr: &CExpr) -> Result<String, AllocError> {
    match expr {
        CExpr::Num(value) => format!(in alloc; "Num({value})"),
        CExpr::Shared(variable) => variable_text(alloc, CVar::Shared(*variable)),
        CExpr::Private(private) => variable_text(alloc, CVar::Private(*private)),
        CExpr::Item(buffer, index) => {
            let index = expr_text(alloc, index)?;
            format!(in alloc; "Item(BufId({}), {index})", buffer.0)
        }
        CExpr::Size(buffer) => format!(in alloc; "Size(BufId({}))", buffer.0),
        CExpr::MsgItem(index) => {
            let index = expr_text(alloc, index)?;
            format!(in alloc; "MsgItem({index})")
        }
        CExpr::MsgSize => "MsgSize".to_string(alloc),
        CExpr::Call(fun, args) => {
            let args = args_text(alloc, args)?;
            format!(in alloc; "Call(FunId({}), {args})", fun.0)
        }
        CExpr::SendBuf(fun, buffer) => send_text(alloc, *fun, *buffer),
        CExpr::Neg(of) => {
            let of = expr_text(alloc, of)?;
            format!(in alloc; "Neg({of})")
        }
        CExpr::Not(of) => {
            let of = expr_text(alloc, of)?;
            format!(in alloc; "Not({of})")
        }
        CExpr::Two(op, left, right) => {
            let left = expr_text(alloc, left)?;
            let right = expr_text(alloc, right)?;
            format!(in alloc; "Two({}, {left}, {right})", op_text(*op))
        }
    }
}

#[cycle(expr_text)]
fn args_text(alloc: Global, args: &CArgs) -> Result<String, AllocError> {
    let mut items = String::new(alloc);
    for arg in args.items.as_slice() {
        push_item(&mut items, expr_text(alloc, arg)?.as_str())?;
    }
    format!(in alloc; "CArgs {{ items: [{items}] }}")
}

fn op_text(op: BinOp) -> &'static str {
    match op {
        BinOp::Or => "Or",
        BinOp::And => "And",
        BinOp::Eq => "Eq",
        BinOp::Ne => "Ne",
        BinOp::Lt => "Lt",
        BinOp::Gt => "Gt",
        BinOp::Le => "Le",
        BinOp::Ge => "Ge",
        BinOp::Add => "Add",
        BinOp::Sub => "Sub",
        BinOp::Mul => "Mul",
        BinOp::Div => "Div",
        BinOp::Rem => "Rem",
    }
}
