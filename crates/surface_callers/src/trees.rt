//! The trees of TinyScript: tokens, a parsed script with its words and places, and a checked one with its numbers.

use mate_num::{BufId, FunId, Name, NoMemory, VarId};
use std::alloc::Global;
use ts_syntax::{
    Args, BinOp, Block, CArgs, CBlock, CExpr, CForHead, CStmt, CVar, Checked, Decl, DeclKind,
    Decls, Expr, ForHead, Script, Step, Stmt, Token, TokenKind, Tokens, Word,
};

/// A script that declares a variable, counts it up, and does nothing else.
pub fn a_script(
    alloc: Global,
    declared: Name,
    counted: Name,
    next: Name,
) -> Result<Script, NoMemory> {
    let mut decls = Decls::new(alloc);
    decls.push(Decl {
        kind: DeclKind::Private,
        word: Word {
            name: declared,
            place: 8,
        },
        first: true,
    })?;
    let head = ForHead {
        var: Word {
            name: counted,
            place: 15,
        },
        from: Expr::Num(1),
        to: Expr::Num(3),
        step: Some(Step {
            minus: false,
            size: 1,
            place: 30,
        }),
    };
    let next = Word {
        name: next,
        place: 40,
    };
    let mut body = Block::new(alloc);
    body.push(Stmt::For(head, Block::new(alloc), next))?;
    Ok(Script { decls, body })
}

/// How many parts of its own a parsed statement has.
pub fn parts_of(stmt: &Stmt) -> usize {
    match stmt {
        Stmt::Set(word, value) => word.name.as_bytes().len().min(parts_of_value(value)),
        Stmt::SetItem(_, index, value) => parts_of_value(index).max(parts_of_value(value)),
        Stmt::Append(_, value) => parts_of_value(value),
        Stmt::Take(_, _) => 2,
        Stmt::Clear(_) => 1,
        Stmt::Do(_, args) => args.len(),
        Stmt::If(_, body, None) => body.len(),
        Stmt::If(_, body, Some(other)) => body.len().max(other.len()),
        Stmt::For(_, body, _) | Stmt::While(_, body) => body.as_slice().len(),
        _ => 0,
    }
}

/// How many parts of its own a parsed expression has.
pub fn parts_of_value(value: &Expr) -> usize {
    match value {
        Expr::Num(_) | Expr::Var(_) | Expr::Size(_) | Expr::MsgSize => 0,
        Expr::Item(_, _) | Expr::MsgItem(_) => 1,
        Expr::Call(_, args) => args_of(args),
        Expr::Neg(_) | Expr::Not(_) | Expr::Paren(_) => 1,
        Expr::Two(op, _, _) => if is_comparison(*op) { 3 } else { 2 },
    }
}

fn args_of(args: &Args) -> usize {
    match args.get(0) {
        Some(_) => args.len(),
        None => 0,
    }
}

/// Whether an operator compares.
pub fn is_comparison(op: BinOp) -> bool {
    match op {
        BinOp::Eq | BinOp::Ne | BinOp::Lt | BinOp::Gt | BinOp::Le | BinOp::Ge => true,
        BinOp::Or | BinOp::And => false,
        BinOp::Add | BinOp::Sub | BinOp::Mul | BinOp::Div | BinOp::Rem => false,
    }
}

/// A checked block that sets a variable to a constant, twice: at once, and in a loop.
pub fn a_checked_block(alloc: Global) -> Result<CBlock, NoMemory> {
    let mut inner = CBlock::new(alloc);
    inner.push(CStmt::Set(CVar::Shared(VarId(0)), CExpr::Num(2)))?;
    let head = CForHead {
        var: CVar::Private(0),
        from: CExpr::Num(1),
        to: CExpr::Num(3),
        step: 1,
    };
    let mut block = CBlock::new(alloc);
    block.push(CStmt::Set(CVar::Shared(VarId(0)), CExpr::Num(1)))?;
    block.push(CStmt::For(head, inner))?;
    let _first: Option<&CStmt> = block.get(0);
    let _all: &[CStmt] = block.as_slice();
    let _count: usize = block.len();
    Ok(block)
}

/// How many statements the checked script has, and for how many shared variables.
pub fn size_of(script: &Checked) -> (usize, u8) {
    let body: &CBlock = script.body();
    (body.len(), script.shape().shared)
}

/// The function that a checked statement asks, if it is a call.
pub fn asked_by(stmt: &CStmt) -> Option<FunId> {
    match stmt {
        CStmt::Do(fun, args) => called(*fun, args),
        CStmt::SendBuf(fun, BufId(_)) => Some(*fun),
        CStmt::Set(_, value) | CStmt::Append(_, value) => asked_by_value(value),
        CStmt::SetItem(_, _, value) | CStmt::While(value, _) => asked_by_value(value),
        CStmt::If(test, _, _) => asked_by_value(test),
        CStmt::For(_, _) | CStmt::Take(_, _) | CStmt::Clear(_) => None,
    }
}

fn called(fun: FunId, args: &CArgs) -> Option<FunId> {
    let _first: Option<&CExpr> = args.get(0);
    let _all: &[CExpr] = args.as_slice();
    if args.len() < 32 { Some(fun) } else { None }
}

/// The function that a checked expression asks first.
pub fn asked_by_value(value: &CExpr) -> Option<FunId> {
    match value {
        CExpr::Call(fun, args) => called(*fun, args),
        CExpr::SendBuf(fun, _) => Some(*fun),
        CExpr::Num(_) | CExpr::Shared(_) | CExpr::Private(_) => None,
        CExpr::Item(_, _) | CExpr::Size(_) | CExpr::MsgItem(_) | CExpr::MsgSize => None,
        CExpr::Neg(_) | CExpr::Not(_) | CExpr::Two(_, _, _) => None,
    }
}

/// No arguments, and one.
pub fn checked_arguments(alloc: Global) -> Result<CArgs, NoMemory> {
    let mut args = CArgs::new(alloc);
    args.push(CExpr::MsgSize)?;
    Ok(args)
}

/// How long the text of a token is, in bytes.
pub fn width_of(tokens: &Tokens, at: usize) -> Option<u32> {
    let Token { kind, from, to } = tokens.get(at)?;
    match kind {
        TokenKind::Name(name) => Some(name.as_bytes().len() as u32),
        TokenKind::Num(_) => Some(to.saturating_sub(*from)),
        _ => width_of_word(kind),
    }
}

fn width_of_word(kind: &TokenKind) -> Option<u32> {
    match kind {
        TokenKind::If | TokenKind::To | TokenKind::Or => Some(2),
        TokenKind::End | TokenKind::For | TokenKind::And | TokenKind::Not | TokenKind::Msg => Some(
            3,
        ),
        TokenKind::Then | TokenKind::Else | TokenKind::Step | TokenKind::Next | TokenKind::Size => {
            Some(4)
        }
        TokenKind::While | TokenKind::Clear => Some(5),
        TokenKind::Shared | TokenKind::Buffer => Some(6),
        TokenKind::Private => Some(7),
        TokenKind::Ne | TokenKind::Le | TokenKind::Ge => Some(2),
        TokenKind::Semi | TokenKind::Comma | TokenKind::Open | TokenKind::Close => Some(1),
        TokenKind::OpenBox | TokenKind::CloseBox | TokenKind::Eq | TokenKind::Lt | TokenKind::Gt =>
            { Some(1) }
        TokenKind::Plus | TokenKind::Minus | TokenKind::Star | TokenKind::Slash => Some(1),
        TokenKind::Percent => Some(1),
        _ => None,
    }
}
