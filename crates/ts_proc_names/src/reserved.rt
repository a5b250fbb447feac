//! Names that an expansion keeps for itself.

ghost use Rattle.std.specs.Prelude.{◌≡◌};
ghost use Rattle.std.specs.Result.{result_err};
ghost use Rattle.ts_trees.specs.Seen.{tree_of, trees_of};
ghost use Rattle.ts_proc_names.specs.NameFaults.{is_reserved as begins_reserved, word_fault, expr_fault, args_fault, decls_fault};

use crate::fault::ProcFault;
use mate_num::Name;
use ts_trees::{Decl, Expr, Word};

// Whether a name begins with `_`.
fn is_reserved(name: &Name) -> bool
    ensures { result ≡ begins_reserved name.now }
{
    match name.as_bytes() {
        [] => false,
        [first, ..] => *first == b'_',
    }
}

/// `Reserved` if the name begins with `_`.
pub(crate) fn word(word: &Word) -> Result<(), ProcFault>
    ensures { result_err result ≡ word_fault word.now }
{
    if is_reserved(&word.name) {
        return Err(ProcFault::Reserved { place: word.place });
    }
    Ok(())
}

/// `Reserved` at the first declared name that begins with `_`.
pub(crate) fn declarations(decls: &[Decl]) -> Result<(), ProcFault>
    ensures { result_err result ≡ decls_fault decls.now }
{
    for decl in decls {
        word(&decl.word)?;
    }
    Ok(())
}

/// `Reserved` at the first name in the expression that begins with `_`.
#[cycle(expression)]
pub(crate) fn expression(expr: &Expr) -> Result<(), ProcFault>
    ensures { result_err result ≡ expr_fault (tree_of expr.now) }
{
    match expr {
        Expr::Num(_) => Ok(()),
        Expr::Var(name) => word(name),
        Expr::Item(name, index) => {
            word(name)?;
            expression(index)
        }
        Expr::Size(name) => word(name),
        Expr::MsgItem(index) => expression(index),
        Expr::MsgSize => Ok(()),
        Expr::Call(name, args) => {
            word(name)?;
            arguments(args.as_slice())
        }
        Expr::Neg(of) => expression(of),
        Expr::Not(of) => expression(of),
        Expr::Two(_, left, right) => {
            expression(left)?;
            expression(right)
        }
        Expr::Paren(of) => expression(of),
    }
}

/// `Reserved` at the first name in the arguments that begins with `_`.
#[cycle(expression)]
pub(crate) fn arguments(args: &[Expr]) -> Result<(), ProcFault>
    ensures { result_err result ≡ args_fault (trees_of args.now) }
{
    for arg in args {
        expression(arg)?;
    }
    Ok(())
}
