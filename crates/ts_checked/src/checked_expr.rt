//! Checked expressions: each name is resolved to its number.

ghost use Rattle.std.specs.Prelude.{◌≡◌, ◌∷◌, ◌++◌, [], length, map, OnErr, OnOk, slice_get, option_map};

use crate::bin_op::BinOp;
use mate_num::{BufId, FunId, NoMemory, VarId};
use std::alloc::Global;

/// An expression whose names are resolved.
#[cycle(expr)]
pub enum CExpr {
    /// A number.
    Num(i16),
    /// A shared variable.
    Shared(VarId),
    /// A private variable, from 0 to 7 in order of declaration.
    Private(u8),
    /// `p[e]`: a value of a buffer.
    Item(BufId, Box<CExpr>),
    /// `size(p)`: how many values a buffer holds.
    Size(BufId),
    /// `msg[e]`: a value of the message.
    MsgItem(Box<CExpr>),
    /// `size(msg)`: how many values the message has.
    MsgSize,
    /// `f(e, ..)`: a call of a function that doesn't send a buffer.
    Call(FunId, CArgs),
    /// `f(p)`: a call of a function that sends a buffer's values.
    SendBuf(FunId, BufId),
    /// `-e`.
    Neg(Box<CExpr>),
    /// `not e`.
    Not(Box<CExpr>),
    /// `l op r`.
    Two(BinOp, Box<CExpr>, Box<CExpr>),
}

/// The arguments of a call, in order.
#[cycle(expr)]
pub struct CArgs {
    pub items: Vec<CExpr>,
}

impl Drop for CExpr {
    #[cycle(expr)]
    fn drop(self) {
        match self {
            CExpr::Num(_) | CExpr::Shared(_) | CExpr::Private(_) => {}
            CExpr::Size(_) | CExpr::MsgSize | CExpr::SendBuf(_, _) => {}
            CExpr::Item(_, _part) | CExpr::MsgItem(_part) => {}
            CExpr::Neg(_part) | CExpr::Not(_part) => {}
            CExpr::Call(_, _args) => {}
            CExpr::Two(_, _left, _right) => {}
        }
    }
}

impl Drop for CArgs {
    #[cycle(expr)]
    fn drop(self) {
        let CArgs { items: _items } = self;
    }
}

impl CArgs {
    ghost use Rattle.ts_checked.specs.TreeOf.{expr_tree, args_trees};

    /// No arguments. It takes no memory.
    pub fn new(alloc: Global) -> CArgs
        ensures { args_trees result ≡ [] }
    {
        CArgs {
            items: Vec::new(alloc),
        }
    }

    pub fn len(&self) -> usize
        ensures { result ≡ length (args_trees self.now) }
    {
        self.items.len()
    }

    /// The argument at `index`, from 0; None exactly if `index` is the length or more.
    pub fn get(&self, index: usize) -> Option<&CExpr>
        ensures { option_map (λ e. expr_tree e.now) result ≡ slice_get (args_trees self.now) index }
    {
        self.items.get(index)
    }

    pub fn as_slice(&self) -> &[CExpr]
        ensures { map expr_tree result.now ≡ args_trees self.now }
    {
        self.items.as_slice()
    }

    /// Appends an argument. `NoMemory` leaves the arguments as they were.
    pub fn push(&mut self, item: CExpr) -> Result<(), NoMemory>
        ensures pushed { OnOk result (args_trees self.new ≡ args_trees self.old ++ expr_tree item ∷ []) }
        ensures kept { OnErr result (args_trees self.new ≡ args_trees self.old) }
    {
        self.items.push(item)?;
        Ok(())
    }
}
