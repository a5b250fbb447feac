//! Whole scripts.

use crate::stmt::Block;
use crate::word::Word;
use mate_num::Items;

/// What a declaration makes of a name.
#[derive(Clone, Copy)]
pub enum DeclKind {
    Shared,
    Private,
    Buffer,
}

/// A name that is declared.
#[derive(Drop)]
pub struct Decl {
    pub kind: DeclKind,
    pub word: Word,
    /// Whether the keyword is before the name; else a comma is.
    pub first: bool,
}

/// The names that a script declares, in order. Contracts see a list of Decl.
pub type Decls = Items<Decl>;

/// A script: its declarations, then its statements.
pub struct Script {
    pub decls: Decls,
    pub body: Block,
}

/// All that has to be dropped is dropped in one function, so each place at which a script ends has one call.
impl Drop for Script {
    fn drop(self) {
        let Script {
            decls: _decls,
            body: _body,
        } = self;
    }
}
