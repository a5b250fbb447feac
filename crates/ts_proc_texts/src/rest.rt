//! What is left to be printed of a block.

use ts_trees::{Stmt, Word};

/// The statements of a block that are still to be printed, and how it ends. They are those of the procedure at a place,
/// and those of the script if no procedure is there.
#[derive(Clone, Copy)]
pub(crate) struct Rest<'a> {
    pub place: usize,
    pub stmts: &'a [Stmt],
    pub close: Close<'a>,
}

/// What comes after the last statement of a block.
#[derive(Clone, Copy)]
pub(crate) enum Close<'a> {
    /// Nothing: it is the body of a procedure or of the script.
    Nothing,
    EndIf,
    /// The other block of an `if`.
    Else(&'a [Stmt]),
    EndWhile,
    Next(&'a Word),
}
