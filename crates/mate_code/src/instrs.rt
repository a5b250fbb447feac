//! A list of instructions with their places.

ghost use Rattle.std.specs.Prelude.{◌≡◌, ◌<◌, ◌≤◌, [], ◌∷◌, ◌++◌, length, slice_get, IsTrue, ◌↔◌};
ghost use Rattle.std.specs.Option.{option_copied};
ghost use Rattle.mate_num.specs.declared.bounds.TheConstants.{CODE_MAX};

use crate::instr::Instr;
use arrayvec::ArrayVec;
use mate_num::CODE_MAX;
use std::marker::Model;

/// At most `CODE_MAX` instructions, each with its place: the offset of its opcode in the code, in bytes.
/// Contracts see the list of pairs. It takes no memory.
#[derive(Drop)]
pub struct Instrs {
    pairs: ArrayVec<(u16, Instr), CODE_MAX>,
}

impl Model for Instrs {
    ghost use Rattle.std.specs.Prelude.{ℕ, List};
    ghost use Rattle.mate_code.specs.declared.instr.Instr.{Instr};

    ghost Value = { List (ℕ × Instr) };

    ghost view = { λ s. s.pairs.items };

    ghost inverse = { λ pairs. record { pairs = record { items = pairs } } };
}

impl Instrs {
    /// The empty list.
    pub fn new() -> Instrs
        ensures { result ≡ [] }
    {
        Instrs {
            pairs: ArrayVec::new(),
        }
    }

    pub fn len(&self) -> usize
        ensures value { result ≡ length self.now }
        ensures fits { result ≤ CODE_MAX }
    {
        self.pairs.len()
    }

    pub fn is_empty(&self) -> bool
        ensures { IsTrue result ↔ (self.now ≡ []) }
    {
        self.pairs.is_empty()
    }

    /// The pair at `index`, from 0; None exactly if `index` is the length or more.
    pub fn get(&self, index: usize) -> Option<&(u16, Instr)>
        ensures { option_copied result ≡ slice_get self.now index }
    {
        self.pairs.get(index)
    }

    pub fn as_slice(&self) -> &[(u16, Instr)]
        ensures value { result.now ≡ self.now }
        ensures fits { length self.now ≤ CODE_MAX }
    {
        self.pairs.as_slice()
    }

    /// Appends a place and its instruction. There must be room.
    pub fn push(&mut self, pair: (u16, Instr))
        requires { length self.old < CODE_MAX }
        ensures { self.new ≡ self.old ++ pair ∷ [] }
    {
        self.pairs.push(pair);
    }
}
