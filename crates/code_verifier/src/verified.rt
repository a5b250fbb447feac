//! Code that was verified.

ghost use Rattle.std.specs.Prelude.{◌≡◌, ◌+◌, ◌≤◌, IsTrue, Some};
ghost use Rattle.mate_code.specs.Instr.{size_of};
ghost use Rattle.mate_code.specs.Run.{fetch};
ghost use Rattle.mate_code.specs.Table.{table_of};
ghost use Rattle.mate_code.specs.Verification.{is_start, IsRightInstr};
ghost use Rattle.mate_num.specs.declared.bounds.TheConstants.{CODE_MAX};
ghost use Rattle.code_verifier.specs.Verified.{depth_of, IsVerifiedCode, KeepsFitting, Verifies};

use crate::placed::Placed;
use crate::verifier::read_once;
use mate_code::{Instr, Instrs, Table, VerifyFault};
use mate_num::{Code, Shape};
use std::marker::Model;

/// Code that was verified for machines of a shape. Only verification makes one.
///
/// What runs it never misses an operand or a place, and never overruns its stack of `STACK_MAX` values.
#[derive(Drop)]
pub struct Verified {
    shape: Shape,
    bytes: Code,
    instrs: Placed,
}

impl Model for Verified {
    ghost use Rattle.code_verifier.specs.Verified.{VerifiedCode, IsVerifiedCode};

    ghost Value = { VerifiedCode };

    ghost view = { λ v. record { shape = v.shape; bytes = v.bytes.items; code = v.instrs } };

    ghost invariant = { λ v. IsVerifiedCode record { shape = v.shape; bytes = v.bytes.items; code = v.instrs } };
}

impl Verified {
    /// The same code again. It takes no memory.
    pub fn copy(&self) -> Verified
        ensures { result ≡ self.now }
    {
        let Ok(bytes) = Code::try_from(self.bytes.as_slice()) else {
            unreachable!()
        };
        Verified {
            shape: self.shape.copy(),
            bytes,
            instrs: self.instrs.copy(),
        }
    }

    /// Another piece of code takes the place of this one. It takes no memory, and writes no more than that code is.
    pub fn copy_from(&mut self, other: &Verified)
        ensures { self.new ≡ other.now }
    {
        self.shape = other.shape.copy();
        self.bytes.clear();
        let Ok(()) = self.bytes.try_extend_from_slice(other.bytes.as_slice()) else {
            unreachable!()
        };
        self.instrs.copy_from(&other.instrs);
    }

    /// The shape by which the code was verified.
    pub fn shape(&self) -> &Shape
        ensures value { result.now ≡ self.now.shape }
        ensures verified { IsVerifiedCode self.now }
    {
        &self.shape
    }

    /// The code's bytes.
    pub fn code(&self) -> &Code
        ensures value { result.now.items ≡ self.now.bytes }
        ensures verified { IsVerifiedCode self.now }
    {
        &self.bytes
    }

    /// The instruction that starts at the place. It is found at once.
    pub fn instr(&self, place: u16) -> Instr
        requires { IsTrue (is_start self.now.code place) }
        ensures value { fetch self.now.code place ≡ Some result }
    {
        *self.at(place as usize)
    }

    /// The instruction that starts at the place, as it stands in the code.
    pub fn at(&self, place: usize) -> &Instr
        requires { IsTrue (is_start self.now.code place) }
        ensures value { fetch self.now.code place ≡ Some result.now }
        ensures within { place + size_of result.now ≤ CODE_MAX }

        // Its names are in range, its operands are there, and it goes on at an instruction.
        ensures right { IsRightInstr self.now.shape self.now.code (depth_of self.now) place result.now }
        // What fits the code goes on fitting it.
        ensures fits { KeepsFitting self.now place result.now }
    {
        self.instrs.at(place)
    }

    /// The pairs of place and instruction, in order.
    pub fn instrs(&self) -> Instrs
        ensures value { result ≡ self.now.code }
        ensures verified { IsVerifiedCode self.now }
    {
        self.instrs.instrs()
    }

    // Verifies the bytes for machines of this shape.
    pub(crate) fn new(table: &Table, shape: Shape, bytes: &[u8]) -> Result<Verified, VerifyFault>
        requires { table.now ≡ table_of shape }
        ensures { Verifies shape bytes.now result }
    {
        let mut instrs = Placed::new();
        read_once(&mut instrs, table, &shape, bytes)?;
        let Ok(bytes) = Code::try_from(bytes) else {
            unreachable!()
        };
        Ok(Verified {
            shape,
            bytes,
            instrs,
        })
    }
}
