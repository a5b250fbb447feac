//! Calls whose checks passed.

use mate_num::{BufId, FunId};
use ts_checked::{CArgs, CExpr, CStmt};

/// A call: of a function that sends a buffer, or of another one.
#[derive(Drop)]
pub(crate) enum Called {
    Sends(FunId, BufId),
    Calls(FunId, CArgs),
}

impl Called {
    ghost use Rattle.std.specs.Prelude.{◌≡◌};
    ghost use Rattle.ts_checked.specs.TreeOf.{expr_tree, stmt_tree};
    ghost use Rattle.ts_checker.specs.Checks.{as_expression, as_statement};
    ghost use Rattle.ts_checker.specs.Seen.{call_of};

    pub(crate) fn into_expr(self) -> CExpr
        ensures { expr_tree result ≡ as_expression (call_of self) }
    {
        match self {
            Called::Sends(fun, buffer) => CExpr::SendBuf(fun, buffer),
            Called::Calls(fun, args) => CExpr::Call(fun, args),
        }
    }

    pub(crate) fn into_stmt(self) -> CStmt
        ensures { stmt_tree result ≡ as_statement (call_of self) }
    {
        match self {
            Called::Sends(fun, buffer) => CStmt::SendBuf(fun, buffer),
            Called::Calls(fun, args) => CStmt::Do(fun, args),
        }
    }
}
