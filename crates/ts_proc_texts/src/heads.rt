//! Statements without blocks, and what is before the blocks of others: names that are hidden in the body at a place are
//! printed as parameters.
//!
//! None of them is inlined, so that what they need is gone while blocks inside blocks are printed.

ghost use Rattle.std.specs.Prelude.{◌∷◌, ◌++◌, [], List, ℕ};
ghost use Rattle.ts_trees.specs.declared.token.TokenKind.TheVariants as kind;
ghost use Rattle.ts_trees.specs.Seen.{tree_of, acts, act_of};
ghost use Rattle.ts_trees.specs.Spelling.{name, spelled, act_spelled, acts_spelled};
ghost use Rattle.ts_trees.specs.Tree.{set};
ghost use Rattle.ts_syntax.specs.Print.{PrintsTokens, head_spelled};
ghost use Rattle.ts_proc_renaming.specs.Renaming.{renamed, renamed_expr};
ghost use Rattle.ts_proc_expansion.specs.Expansion.{Callee, expanded_act};
ghost use Rattle.ts_proc_texts.specs.Hidings.{hiding_at};
ghost use Rattle.ts_proc_texts.specs.Rest.{IsSimple};

use crate::bodies::Bodies;
use crate::renamed::Renamed;
use mate_files::Sink;
use ts_syntax::Printer;
use ts_trees::{Expr, ForHead, Stmt, Word};

/// Prints a statement that has no block and runs no procedure.
#[inline(never)]
pub(crate) fn simple<S: Sink>(
    bodies: &Bodies,
    place: usize,
    stmt: &Stmt,
    printer: &mut Printer,
    out: &mut S,
)
    ensures { (known : List (List ℕ × Callee)) → IsSimple (act_of stmt.now)
        → PrintsTokens (S.written out.old) (S.faults out.old) printer.old (S.written out.new) (S.faults out.new) printer.new
        (acts_spelled (acts (expanded_act known (hiding_at bodies.now.plan.heads.procs.now place) (act_of stmt.now)))) }
{
    let hidden = bodies.hidden(place);
    printer.stmt(out, &Renamed { hidden }, stmt);
}

/// Prints an assignment to the variable of a parameter.
pub(crate) fn assignment<S: Sink>(
    bodies: &Bodies,
    place: usize,
    word: &Word,
    value: &Expr,
    printer: &mut Printer,
    out: &mut S,
)
    ensures { PrintsTokens (S.written out.old) (S.faults out.old) printer.old (S.written out.new) (S.faults out.new) printer.new
        (act_spelled (set word.now (renamed_expr (hiding_at bodies.now.plan.heads.procs.now place) (tree_of value.now)))) }
{
    let hidden = bodies.hidden(place);
    printer.assignment(out, &Renamed { hidden }, word, value);
}

/// Prints what is before the block of an `if`.
#[inline(never)]
pub(crate) fn if_head<S: Sink>(
    bodies: &Bodies,
    place: usize,
    test: &Expr,
    printer: &mut Printer,
    out: &mut S,
)
    ensures { PrintsTokens (S.written out.old) (S.faults out.old) printer.old (S.written out.new) (S.faults out.new) printer.new
        (kind.If ∷ spelled (renamed_expr (hiding_at bodies.now.plan.heads.procs.now place) (tree_of test.now)) ++ (kind.Then ∷ [])) }
{
    let hidden = bodies.hidden(place);
    printer.if_head(out, &Renamed { hidden }, test);
}

/// Prints what is before the block of a `for`.
#[inline(never)]
pub(crate) fn for_head<S: Sink>(
    bodies: &Bodies,
    place: usize,
    head: &ForHead,
    printer: &mut Printer,
    out: &mut S,
)
    ensures { PrintsTokens (S.written out.old) (S.faults out.old) printer.old (S.written out.new) (S.faults out.new) printer.new
        (head_spelled (renamed (hiding_at bodies.now.plan.heads.procs.now place)) head.now) }
{
    let hidden = bodies.hidden(place);
    printer.for_head(out, &Renamed { hidden }, head);
}

/// Prints the end of a `for`.
#[inline(never)]
pub(crate) fn next<S: Sink>(
    bodies: &Bodies,
    place: usize,
    word: &Word,
    printer: &mut Printer,
    out: &mut S,
)
    ensures { PrintsTokens (S.written out.old) (S.faults out.old) printer.old (S.written out.new) (S.faults out.new) printer.new
        (kind.Next ∷ name (renamed (hiding_at bodies.now.plan.heads.procs.now place) word.now) ∷ []) }
{
    let hidden = bodies.hidden(place);
    printer.next(out, &Renamed { hidden }, word);
}

/// Prints what is before the block of a `while`.
#[inline(never)]
pub(crate) fn while_head<S: Sink>(
    bodies: &Bodies,
    place: usize,
    test: &Expr,
    printer: &mut Printer,
    out: &mut S,
)
    ensures { PrintsTokens (S.written out.old) (S.faults out.old) printer.old (S.written out.new) (S.faults out.new) printer.new
        (kind.While ∷ spelled (renamed_expr (hiding_at bodies.now.plan.heads.procs.now place) (tree_of test.now))) }
{
    let hidden = bodies.hidden(place);
    printer.while_head(out, &Renamed { hidden }, test);
}
