//! Statements and declarations that exclude wrong bodies of `ts_proc_renaming`.

ghost use Rattle.std.specs.Prelude.{◌≡◌, [], ◌∷◌, codes, map, true, false, IfOk, OnOk};
ghost use Rattle.ts_trees.specs.Seen.{act_of, acts_of, tree_of};
ghost use Rattle.ts_trees.specs.Tree.{number, clear as clear_act, if_else as if_else_act, no_acts, act_then};
ghost use Rattle.ts_proc_renaming.specs.Renaming.{parameter_name};
ghost use Rattle.callers_language.specs.Procedures.{named};

use mate_num::NoMemory;
use std::alloc::Global;
use ts_proc_renaming::Hidden;
use ts_proc_renaming::numbers::declarations;
use ts_proc_renaming::statements::{if_else, simple};
use ts_trees::{Block, DeclKind, Decls, Expr, Stmt, Word};

pub fn a_parameter_has_its_number_among_all(
    alloc: Global,
    params: &[Word],
    stmt: &Stmt,
    written: &mut Block,
) -> Result<(), NoMemory>
    requires params { params.now ≡ named (codes "a") ∷ [] }
    requires stmt { act_of stmt.now ≡ clear_act (named (codes "a")) }
    requires none { map act_of written.old ≡ [] }
    ensures { OnOk result (map act_of written.new ≡ clear_act (named (parameter_name 3)) ∷ []) }
{
    let hidden = Hidden::of(alloc, 3, params)?;
    simple(alloc, &hidden, stmt, written)
}

pub fn the_else_comes_last(
    alloc: Global,
    hidden: &Hidden,
    test: &Expr,
    body: Block,
    other: Block,
    written: &mut Block,
) -> Result<(), NoMemory>
    requires test { tree_of test.now ≡ number 1 }
    requires body { acts_of body ≡ act_then (clear_act (named (codes "p"))) no_acts }
    requires other { acts_of other ≡ no_acts }
    requires none { map act_of written.old ≡ [] }
    ensures { OnOk result (map act_of written.new ≡ if_else_act (number 1) (act_then (clear_act (named (codes "p"))) no_acts) no_acts
        ∷ []) }
{
    if_else(alloc, hidden, test, body, other, written)
}

pub fn the_first_parameter_has_the_keyword(alloc: Global) -> Result<Decls, NoMemory>
    ensures { IfOk result (λ all. all ≡
        record { kind = DeclKind.Private; word = named (parameter_name 0); first = true }
        ∷ record { kind = DeclKind.Private; word = named (parameter_name 1); first = false } ∷ []) }
{
    declarations(alloc, &[], 2)
}
