//! Statements with their names renamed: each is appended to those before it. After `NoMemory` some of what was to be
//! appended may be there.
//!
//! None of them is inlined, so that their stack frames are gone while blocks inside blocks are expanded.

ghost use Rattle.std.specs.Prelude.{◌≡◌, ◌≤◌, ◌+◌, ◌++◌, ◌∷◌, ◌^◌, [], length, map, OnOk};
ghost use Rattle.ts_trees.specs.Seen.{tree_of, trees_of, act_of, acts_of};
ghost use Rattle.ts_trees.specs.Tree.{if_then as if_then_act, if_else as if_else_act, for_next as for_next_act, while_do as while_do_act, run_procedure};
ghost use Rattle.ts_proc_renaming.specs.Renaming.{renamed, renamed_expr, renamed_args, renamed_simple, assigned};
ghost use Rattle.ts_proc_renaming.specs.Hidden.{hiding_of};

use crate::copies::same;
use crate::expressions::{arguments, expression, for_head};
use crate::hidden::Hidden;
use crate::numbers::parameter_name;
use mate_num::NoMemory;
use std::alloc::Global;
use ts_trees::{Block, Expr, ForHead, Stmt, Word};

/// Appends a statement that has no block and runs no procedure; appends nothing for any other. The name of a function stays.
#[inline(never)]
pub fn simple(
    alloc: Global,
    hidden: &Hidden,
    stmt: &Stmt,
    written: &mut Block,
) -> Result<(), NoMemory>
    ensures { let new = renamed_simple (hiding_of hidden.now) (act_of stmt.now) in
        OnOk result (map act_of written.new ≡ map act_of written.old ++ new) }
{
    match stmt {
        Stmt::Set(name, value) => {
            let value = expression(alloc, hidden, value)?;
            written.push(Stmt::Set(hidden.word(name), value))
        }
        Stmt::SetItem(name, index, value) => {
            let index = expression(alloc, hidden, index)?;
            let value = expression(alloc, hidden, value)?;
            written.push(Stmt::SetItem(hidden.word(name), index, value))
        }
        Stmt::Append(name, value) => {
            let value = expression(alloc, hidden, value)?;
            written.push(Stmt::Append(hidden.word(name), value))
        }
        Stmt::Take(name, from) => written.push(Stmt::Take(hidden.word(name), hidden.word(from))),
        Stmt::Clear(name) => written.push(Stmt::Clear(hidden.word(name))),
        Stmt::Do(name, args) => {
            let args = arguments(alloc, hidden, args.as_slice())?;
            written.push(Stmt::Do(same(name), args))
        }
        Stmt::If(..) | Stmt::For(..) | Stmt::While(..) | Stmt::Run(..) => Ok(()),
    }
}

/// Appends an assignment for each argument: the first one to the variable of this number, the others to those after it.
pub fn assignments(
    alloc: Global,
    hidden: &Hidden,
    place: u32,
    first: u32,
    args: &[Expr],
    written: &mut Block,
) -> Result<(), NoMemory>
    requires { first + length args.now ≤ 2 ^ 32 }
    ensures { let made = assigned (hiding_of hidden.now) place first (trees_of args.now) in
        OnOk result (map act_of written.new ≡ map act_of written.old ++ made) }
{
    for (index, arg) in args.iter().enumerate() {
        let name = parameter_name(first + index as u32);
        let value = expression(alloc, hidden, arg)?;
        written.push(Stmt::Set(Word { name, place }, value))?;
    }
    Ok(())
}

/// Appends an `if` without `else`; its block is taken as it is given.
#[inline(never)]
pub fn if_then(
    alloc: Global,
    hidden: &Hidden,
    test: &Expr,
    body: Block,
    written: &mut Block,
) -> Result<(), NoMemory>
    ensures { OnOk result (map act_of written.new ≡ map act_of written.old
        ++ if_then_act (renamed_expr (hiding_of hidden.now) (tree_of test.now)) (acts_of body) ∷ []) }
{
    let test = expression(alloc, hidden, test)?;
    written.push(Stmt::If(test, body, None))
}

/// Appends an `if` with `else`; its blocks are taken as they are given.
#[inline(never)]
pub fn if_else(
    alloc: Global,
    hidden: &Hidden,
    test: &Expr,
    body: Block,
    other: Block,
    written: &mut Block,
) -> Result<(), NoMemory>
    ensures { OnOk result (map act_of written.new ≡ map act_of written.old
        ++ if_else_act (renamed_expr (hiding_of hidden.now) (tree_of test.now)) (acts_of body) (acts_of other) ∷ []) }
{
    let test = expression(alloc, hidden, test)?;
    written.push(Stmt::If(test, body, Some(other)))
}

/// Appends a `for`; its block is taken as it is given.
#[inline(never)]
pub fn for_next(
    alloc: Global,
    hidden: &Hidden,
    head: &ForHead,
    body: Block,
    next: &Word,
    written: &mut Block,
) -> Result<(), NoMemory>
    ensures { let h = hiding_of hidden.now in
        let new = for_next_act (renamed h head.now.var) (renamed_expr h (tree_of head.now.from)) (renamed_expr h (tree_of head.now.to))
        head.now.step (acts_of body) (renamed h next.now) in
        OnOk result (map act_of written.new ≡ map act_of written.old ++ new ∷ []) }
{
    let head = for_head(alloc, hidden, head)?;
    let next = hidden.word(next);
    written.push(Stmt::For(head, body, next))
}

/// Appends a `while`; its block is taken as it is given.
#[inline(never)]
pub fn while_do(
    alloc: Global,
    hidden: &Hidden,
    test: &Expr,
    body: Block,
    written: &mut Block,
) -> Result<(), NoMemory>
    ensures { OnOk result (map act_of written.new ≡ map act_of written.old
        ++ while_do_act (renamed_expr (hiding_of hidden.now) (tree_of test.now)) (acts_of body) ∷ []) }
{
    let test = expression(alloc, hidden, test)?;
    written.push(Stmt::While(test, body))
}

/// Appends a `do` of a procedure, whose name stays.
#[inline(never)]
pub fn run(
    alloc: Global,
    hidden: &Hidden,
    name: &Word,
    args: &[Expr],
    written: &mut Block,
) -> Result<(), NoMemory>
    ensures { OnOk result (map act_of written.new ≡ map act_of written.old
        ++ run_procedure name.now (renamed_args (hiding_of hidden.now) (trees_of args.now)) ∷ []) }
{
    let args = arguments(alloc, hidden, args)?;
    written.push(Stmt::Run(same(name), args))
}
