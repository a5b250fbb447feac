//! What an instruction has to do with what handlers share.

ghost use Rattle.std.specs.Prelude.{◌≡◌};
ghost use Rattle.mate_code.specs.CodeUses.{use_of};

use crate::instr::Instr;
use mate_num::{BufId, FunId, Resource};

/// What an instruction has to do with what handlers share.
#[derive(Clone, Copy)]
pub enum Use {
    /// Nothing.
    Nothing,
    /// It gets from a variable or a buffer.
    Gets(Resource),
    /// It changes a variable or a buffer.
    Changes(Resource),
    /// It calls a function.
    Calls(FunId),
    /// It sends a buffer by a function.
    Sends(FunId, BufId),
}

impl Instr {
    /// What the instruction has to do with what handlers share.
    pub fn uses(self) -> Use
        ensures { result ≡ use_of self }
    {
        self.row().uses
    }
}
