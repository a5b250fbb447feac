//! How much a part of a script takes: bytes of code, and places on the stack.

ghost use Rattle.std.specs.Prelude.{◌≡◌, ◌+◌, ◌≤◌, max};
ghost use Rattle.mate_num.specs.declared.bounds.TheConstants.{CODE_MAX};
ghost use Rattle.mate_code.specs.Instr.{size_of};
ghost use Rattle.ts_checked.specs.Expression.{arguments};
ghost use Rattle.ts_checked.specs.TreeOf.{expr_tree, args_trees, stmt_tree, block_tree};
ghost use Rattle.ts_semantics.specs.Translation.{size_of_instrs, args_code, args_need, expr_size, expr_need, stmt_size, stmt_need};
ghost use Rattle.ts_semantics.specs.Translation.{block_size, block_need, script_size, script_need, number_code};
ghost use Rattle.ts_compiler.specs.Parts.{capped};

use crate::words::number_size;
use ts_checked::{CArgs, CBlock, CExpr, CForHead, CStmt};

/// The numbers of an extent stop here.
pub(crate) const CAP: u32 = 1_000_000_000;

/// The bytes that code takes, and the number of values on the stack that it needs room for.
#[derive(Clone, Copy)]
pub(crate) struct Extent {
    pub(crate) size: u32,
    pub(crate) need: u32,
}

fn plus(a: u32, b: u32) -> u32
    ensures { result ≡ capped (a + b) }
{
    a.saturating_add(b).min(CAP)
}

impl Extent {
    // No code.
    fn nothing() -> Extent
        ensures size { result.size ≡ 0 }
        ensures need { result.need ≡ 0 }
    {
        Extent { size: 0, need: 0 }
    }

    // Code of `size` bytes that leaves one value.
    fn one(size: u32) -> Extent
        ensures size { result.size ≡ size }
        ensures need { result.need ≡ 1 }
    {
        Extent { size, need: 1 }
    }

    // This part, and then the other.
    fn then(self, other: Extent) -> Extent
        ensures size { result.size ≡ capped (self.size + other.size) }
        ensures need { result.need ≡ max self.need other.need }
    {
        Extent {
            size: plus(self.size, other.size),
            need: self.need.max(other.need),
        }
    }

    // This part, and then `bytes` bytes of code that need no more room.
    fn with(self, bytes: u32) -> Extent
        ensures size { result.size ≡ capped (self.size + bytes) }
        ensures need { result.need ≡ self.need }
    {
        Extent {
            size: plus(self.size, bytes),
            need: self.need,
        }
    }

    // The part, run above `values` others on the stack.
    fn above(self, values: u32) -> Extent
        ensures size { result.size ≡ self.size }
        ensures need { result.need ≡ capped (self.need + values) }
    {
        Extent {
            size: self.size,
            need: plus(self.need, values),
        }
    }

    // The part, with a need of at least `values`.
    fn at_least(self, values: u32) -> Extent
        ensures size { result.size ≡ self.size }
        ensures need { result.need ≡ max values self.need }
    {
        Extent {
            size: self.size,
            need: values.max(self.need),
        }
    }
}

#[cycle(expr)]
#[tactic(auto, using(crate::proofs::PartLemmas::parts))]
pub(crate) fn expr_extent(expr: &CExpr) -> Extent
    ensures size { result.size ≡ capped (expr_size (expr_tree expr.now)) }
    ensures need { result.need ≡ capped (expr_need (expr_tree expr.now)) }
{
    match expr {
        CExpr::Num(value) => Extent::one(u32::from(number_size(*value))),
        CExpr::Shared(_) => Extent::one(2),
        CExpr::Private(_) => Extent::one(2),
        CExpr::Item(_, index) => expr_extent(index).with(2),
        CExpr::Size(_) => Extent::one(2),
        CExpr::MsgItem(index) => expr_extent(index).with(1),
        CExpr::MsgSize => Extent::one(1),
        CExpr::Call(_, args) => call_extent(args),
        CExpr::SendBuf(_, _) => Extent::one(2),
        CExpr::Neg(of) => expr_extent(of).with(1),
        CExpr::Not(of) => expr_extent(of).with(1),
        CExpr::Two(_, left, right) => {
            let right = expr_extent(right).above(1);
            expr_extent(left).then(right).with(1)
        }
    }
}

#[cycle(expr)]
fn call_extent(args: &CArgs) -> Extent
    ensures size { let given = arguments (args_trees args.now) in
        result.size ≡ capped (size_of_instrs (args_code given) + 1) }
    ensures need { let given = arguments (args_trees args.now) in
        result.need ≡ capped (max 1 (args_need 0 given)) }
{
    args_extent(args).with(1).at_least(1)
}

// The arguments of a call, one above the other.
#[cycle(expr)]
fn args_extent(args: &CArgs) -> Extent
    ensures size { let given = arguments (args_trees args.now) in
        result.size ≡ capped (size_of_instrs (args_code given)) }
    ensures need { let given = arguments (args_trees args.now) in
        result.need ≡ capped (args_need 0 given) }
{
    let mut extent = Extent::nothing();
    let mut below: u32 = 0;
    for arg in args.items.as_slice() {
        extent = extent.then(expr_extent(arg).above(below));
        below = plus(below, 1);
    }
    extent
}

#[cycle(stmt)]
#[tactic(auto, using(crate::proofs::PartLemmas::parts))]
fn stmt_extent(stmt: &CStmt) -> Extent
    ensures size { result.size ≡ capped (stmt_size (stmt_tree stmt.now)) }
    ensures need { result.need ≡ capped (stmt_need (stmt_tree stmt.now)) }
{
    match stmt {
        CStmt::Set(_, value) => expr_extent(value).with(2),
        CStmt::SetItem(_, index, value) => {
            let value = expr_extent(value).above(1);
            expr_extent(index).then(value).with(2)
        }
        CStmt::Append(_, value) => expr_extent(value).with(2),
        CStmt::Take(_, _) => Extent::one(4),
        CStmt::Clear(_) => Extent::nothing().with(2),
        CStmt::Do(_, args) => call_extent(args).with(1),
        CStmt::SendBuf(_, _) => Extent::one(3),
        CStmt::If(test, body, None) => expr_extent(test).with(3).then(block_extent(body)),
        CStmt::If(test, body, Some(other)) => {
            let body = block_extent(body).then(block_extent(other));
            expr_extent(test).with(6).then(body)
        }
        CStmt::For(head, body) => head_extent(head).then(block_extent(body)),
        CStmt::While(test, body) => expr_extent(test).with(6).then(block_extent(body)),
    }
}

// A `for` without its body.
fn head_extent(head: &CForHead) -> Extent
    ensures size { let from = expr_size (expr_tree head.now.from) in
        let to = expr_size (expr_tree head.now.to) in
        result.size ≡ capped (from + to + size_of (number_code head.now.step) + 16) }
    ensures need { let from = expr_need (expr_tree head.now.from) in
        let to = expr_need (expr_tree head.now.to) in
        result.need ≡ capped (max from (max (1 + to) 2)) }
{
    let test = expr_extent(&head.to).above(1).at_least(2);
    let rest = u32::from(number_size(head.step)) + 16;
    expr_extent(&head.from).then(test).with(rest)
}

/// The extent of a block.
#[cycle(stmt)]
pub(crate) fn block_extent(block: &CBlock) -> Extent
    ensures size { result.size ≡ capped (block_size (block_tree block.now)) }
    ensures need { result.need ≡ capped (block_need (block_tree block.now)) }
{
    let mut extent = Extent::nothing();
    for stmt in block.items.as_slice() {
        extent = extent.then(stmt_extent(stmt));
    }
    extent
}

/// The size of a block whose code fits a machine.
pub(crate) fn small_block_size(block: &CBlock) -> u16
    requires { block_size (block_tree block.now) ≤ CODE_MAX }
    ensures size { result ≡ block_size (block_tree block.now) }
    ensures fits { result ≤ CODE_MAX }
{
    block_extent(block).size as u16
}

/// The extent of a script: its statements, and the byte that halts.
pub(crate) fn script_extent(body: &CBlock) -> Extent
    ensures size { result.size ≡ capped (script_size (block_tree body.now)) }
    ensures need { result.need ≡ capped (script_need (block_tree body.now)) }
{
    block_extent(body).with(1)
}
