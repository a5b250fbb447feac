//! Checked scripts of TinyScript: their trees, in which each name is a number, and when a body is right for a shape.
#![tactic(auto)]

pub mod bin_op;
pub mod checked;
pub mod checked_expr;
pub mod checked_stmt;

pub use bin_op::BinOp;
pub use checked::Checked;
pub use checked_expr::{CArgs, CExpr};
pub use checked_stmt::{CBlock, CForHead, CStmt, CVar};
