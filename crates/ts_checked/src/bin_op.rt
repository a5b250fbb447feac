//! The operators between two expressions.

/// An operator, in the order of binding: `or` binds least tightly.
#[derive(Clone, Copy)]
pub enum BinOp {
    Or,
    And,
    Eq,
    Ne,
    Lt,
    Gt,
    Le,
    Ge,
    Add,
    Sub,
    Mul,
    Div,
    Rem,
}
