//! The trees of TinyScript, and their printer: how the tree of a script is written.
#![tactic(auto)]

pub mod naming;
pub mod printer;

pub use naming::{AsWritten, Naming};
pub use printer::{Printer, print};
pub use ts_trees::{
    Args, BLOCKS_MAX, BinOp, Block, CArgs, CBlock, CExpr, CForHead, COUNTED_MAX, CStmt, CVar,
    Checked, Decl, DeclKind, Decls, Dialect, Expr, ForHead, Halt, PBlock, PStmt, Proc, ProcScript,
    Procs, Script, Step, Stmt, Token, TokenKind, Tokens, Word, Words, grammar_law, machine_law,
};
