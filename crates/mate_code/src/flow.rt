//! Where an instruction goes on, what it takes from the stack and puts on it, and whether what it names is there.

ghost use Rattle.std.specs.Prelude.{◌≡◌, true};
ghost use Rattle.std.specs.Option.{option_map_or};
ghost use Rattle.mate_code.specs.CodeUses.{cell_in};
ghost use Rattle.mate_code.specs.Effect.{args_of};
ghost use Rattle.mate_code.specs.Flow.{flow_of, pops_of, pushes_of, is_cell, is_in_range};
ghost use Rattle.mate_code.specs.Verification.{is_end};

use crate::instr::Instr;
use crate::row::Pops;
use crate::uses::Use;
use mate_num::{FunId, PRIVATES, Resource, Shape};

/// Where a run goes on after an instruction.
#[derive(Clone, Copy)]
pub enum Flow {
    /// To the next place.
    Next,
    /// Nowhere.
    Ends,
    /// To the next place or the target.
    Branches(u16),
    /// To the target.
    Jumps(u16),
    /// To the target, if a turn is left to pay.
    Returns(u16),
}

impl Flow {
    pub fn is_end(self) -> bool
        ensures { result ≡ is_end self }
    {
        match self {
            Flow::Ends => true,
            Flow::Next | Flow::Branches(_) | Flow::Jumps(_) | Flow::Returns(_) => false,
        }
    }
}

impl Instr {
    /// Where a run goes on after the instruction.
    pub fn flow(self) -> Flow
        ensures { result ≡ flow_of self }
    {
        self.row().flow
    }

    /// How many values the instruction takes from the stack.
    pub fn pops(self, shape: &Shape) -> u8
        ensures { result ≡ pops_of shape.now self }
    {
        match self.row().pops {
            Pops::Values(number) => number,
            Pops::Args(fun) => args(shape, fun),
        }
    }

    /// How many values the instruction puts on the stack, 0 or 1; a function's answer is one.
    pub fn pushes(self) -> u8
        ensures { result ≡ pushes_of self }
    {
        self.row().pushes
    }

    /// Whether the variable, private variable or buffer that the instruction names exists.
    pub fn is_in_range(self, shape: &Shape) -> bool
        ensures { result ≡ is_in_range shape.now self }
    {
        match self {
            Instr::GetP(private) | Instr::SetP(private) => (private as usize) < PRIVATES,
            _ => self.uses().is_there(shape),
        }
    }
}

impl Use {
    // Whether the variable or buffer is there, if one is named.
    fn is_there(self, shape: &Shape) -> bool
        ensures { result ≡ option_map_or (is_cell shape.now) (cell_in self) true }
    {
        match self {
            Use::Gets(cell) | Use::Changes(cell) => is_cell(shape, cell),
            Use::Sends(_, buffer) => buffer.0 < shape.buffers,
            Use::Nothing | Use::Calls(_) => true,
        }
    }
}

// Whether the variable or buffer is there.
fn is_cell(shape: &Shape, cell: Resource) -> bool
    ensures { result ≡ is_cell shape.now cell }
{
    match cell {
        Resource::Shared(variable) => variable.0 < shape.shared,
        Resource::Buffer(buffer) => buffer.0 < shape.buffers,
        Resource::Device(_) => true,
    }
}

/// How many values the instruction of a function takes from the stack.
pub fn args(shape: &Shape, fun: FunId) -> u8
    ensures { result ≡ args_of shape.now fun }
{
    match shape.functions.get(fun.0 as usize) {
        Some(function) => function.args,
        None => 0,
    }
}
