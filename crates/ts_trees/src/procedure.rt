//! Scripts with procedures.

use crate::script::Decls;
use crate::stmt::{Block, Stmt};
use crate::word::Word;
use mate_num::Items;

/// A statement in a script that may have procedures: each of `Stmt`'s forms.
pub type PStmt = Stmt;

/// Statements in order, in a script that may have procedures.
pub type PBlock = Block;

/// Names in order. Contracts see a list of Word.
pub type Words = Items<Word>;

/// A procedure: `proc name(params) .. end proc`.
#[derive(Drop)]
pub struct Proc {
    pub name: Word,
    pub params: Words,
    pub body: PBlock,
}

/// The procedures of a script, in order. Contracts see a list of Proc.
pub type Procs = Items<Proc>;

/// A script with procedures as it is written: its declarations, its procedures, then its statements. It doesn't say
/// whether each `do` calls a procedure that exists, or with the right number of arguments.
#[derive(Drop)]
pub struct ProcScript {
    pub decls: Decls,
    pub procs: Procs,
    pub body: PBlock,
}
