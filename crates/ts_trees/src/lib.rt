//! TinyScript's syntax: tokens, trees, the grammar that both follow, and the machine that reads tokens by it.
#![tactic(auto)]

pub mod code;
pub mod depth;
pub mod dialect;
pub mod expect;
pub mod expr;
pub mod grammar;
pub mod halt;
pub mod machine;
pub mod procedure;
pub mod script;
pub mod stmt;
pub mod token;
pub mod word;

pub use depth::{BLOCKS_MAX, COUNTED_MAX};
pub use dialect::Dialect;
pub use expr::{Args, Expr};
pub use grammar::grammar_law;
pub use halt::Halt;
pub use machine::machine_law;
pub use procedure::{PBlock, PStmt, Proc, ProcScript, Procs, Words};
pub use script::{Decl, DeclKind, Decls, Script};
pub use stmt::{Block, ForHead, Step, Stmt};
pub use token::{Token, TokenKind, Tokens};
pub use ts_checked::{BinOp, CArgs, CBlock, CExpr, CForHead, CStmt, CVar, Checked};
pub use word::Word;
