//! Checked statements: each name is resolved to its number.

ghost use Rattle.std.specs.Prelude.{◌≡◌, ◌∷◌, ◌++◌, [], length, map, OnErr, OnOk, slice_get, option_map};

use crate::checked_expr::{CArgs, CExpr};
use mate_num::{BufId, FunId, NoMemory, VarId};
use std::alloc::Global;

/// A variable that can be set.
#[derive(Clone, Copy)]
pub enum CVar {
    /// A shared variable.
    Shared(VarId),
    /// A private variable, from 0 to 7 in order of declaration.
    Private(u8),
}

/// The head of `for var = from to to step step`.
pub struct CForHead {
    pub var: CVar,
    pub from: CExpr,
    pub to: CExpr,
    /// 1 if none is written.
    pub step: i16,
}

impl Drop for CForHead {
    fn drop(self) {
        let CForHead {
            var: _,
            from: _from,
            to: _to,
            step: _,
        } = self;
    }
}

/// A statement whose names are resolved.
#[cycle(stmt)]
pub enum CStmt {
    /// `x = e;`
    Set(CVar, CExpr),
    /// `p[i] = e;`
    SetItem(BufId, CExpr, CExpr),
    /// `p[] = e;`
    Append(BufId, CExpr),
    /// `x = p[];`
    Take(CVar, BufId),
    /// `clear(p);`
    Clear(BufId),
    /// `f(e, ..);`, which drops the result.
    Do(FunId, CArgs),
    /// `f(p);`, of a function that sends a buffer's values.
    SendBuf(FunId, BufId),
    /// `if e then .. end if`, with `else` or without.
    If(CExpr, CBlock, Option<CBlock>),
    /// `for .. next x`.
    For(CForHead, CBlock),
    /// `while e .. end while`.
    While(CExpr, CBlock),
}

/// Statements, one after another.
#[cycle(stmt)]
pub struct CBlock {
    pub items: Vec<CStmt>,
}

impl Drop for CStmt {
    #[cycle(stmt)]
    fn drop(self) {
        match self {
            CStmt::Set(_, _value) => {}
            CStmt::SetItem(_, _index, _value) => {}
            CStmt::Append(_, _value) => {}
            CStmt::Take(_, _) | CStmt::Clear(_) | CStmt::SendBuf(_, _) => {}
            CStmt::Do(_, _args) => {}
            CStmt::If(_test, _then, _else) => {}
            CStmt::For(_head, _body) => {}
            CStmt::While(_test, _body) => {}
        }
    }
}

impl Drop for CBlock {
    #[cycle(stmt)]
    fn drop(self) {
        let CBlock { items: _items } = self;
    }
}

impl CBlock {
    ghost use Rattle.ts_checked.specs.TreeOf.{stmt_tree, block_trees};

    /// No statements. It takes no memory.
    pub fn new(alloc: Global) -> CBlock
        ensures { block_trees result ≡ [] }
    {
        CBlock {
            items: Vec::new(alloc),
        }
    }

    pub fn len(&self) -> usize
        ensures { result ≡ length (block_trees self.now) }
    {
        self.items.len()
    }

    /// The statement at `index`, from 0; None exactly if `index` is the length or more.
    pub fn get(&self, index: usize) -> Option<&CStmt>
        ensures { option_map (λ s. stmt_tree s.now) result ≡ slice_get (block_trees self.now) index }
    {
        self.items.get(index)
    }

    pub fn as_slice(&self) -> &[CStmt]
        ensures { map stmt_tree result.now ≡ block_trees self.now }
    {
        self.items.as_slice()
    }

    /// Appends a statement. `NoMemory` leaves the block as it was.
    pub fn push(&mut self, item: CStmt) -> Result<(), NoMemory>
        ensures pushed { OnOk result (block_trees self.new ≡ block_trees self.old ++ stmt_tree item ∷ []) }
        ensures kept { OnErr result (block_trees self.new ≡ block_trees self.old) }
    {
        self.items.push(item)?;
        Ok(())
    }
}
