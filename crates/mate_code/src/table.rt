//! The opcode table of a machine.

ghost use Rattle.std.specs.Prelude.{◌≡◌, ◌+◌, ◌≤◌, length, slice_get};
ghost use Rattle.std.specs.Option.{option_map};
ghost use Rattle.mate_code.specs.Table.{table_of, opcode_of, kind_at, kinds_of, first_function, function_kind, IsInTable};
ghost use Rattle.mate_code.specs.declared.table.TheConstants.{BASE_END, OPCODES_MAX};

use crate::kind::Kind;
use crate::row::Opcode;
use arrayvec::ArrayVec;
use mate_num::{FUNCTIONS_MAX, FunId, Shape};
use std::marker::Model;

/// How many kinds every table has; the opcode of the first one behind them.
pub const BASE_END: u8 = BASE_KINDS as u8;

/// The opcode of the first kind behind those of buffers, in a table that has them.
pub const BUFFERS_END: u8 = BASE_END + BUFFER_KINDS as u8;

/// The greatest number of opcodes.
pub const OPCODES_MAX: usize = BASE_KINDS + BUFFER_KINDS + FUNCTIONS_MAX;

const BASE_KINDS: usize = 28;

const BUFFER_KINDS: usize = 6;

// The kinds that every table has, in the order of their opcodes.
static BASE: [Kind; BASE_KINDS] = [
    Kind::Halt,
    Kind::PushW,
    Kind::PushB,
    Kind::GetS,
    Kind::SetS,
    Kind::GetP,
    Kind::SetP,
    Kind::Add,
    Kind::Sub,
    Kind::Mul,
    Kind::Div,
    Kind::Mod,
    Kind::Neg,
    Kind::Not,
    Kind::And,
    Kind::Or,
    Kind::Eq,
    Kind::Ne,
    Kind::Lt,
    Kind::Gt,
    Kind::Le,
    Kind::Ge,
    Kind::Jz,
    Kind::Jmp,
    Kind::Back,
    Kind::Drop,
    Kind::MsgGet,
    Kind::MsgSize,
];

// The kinds that follow if the machine has a buffer.
static BUFFER_GROUP: [Kind; BUFFER_KINDS] = [
    Kind::BGet,
    Kind::BSet,
    Kind::BAdd,
    Kind::BTake,
    Kind::BSize,
    Kind::BClear,
];

/// Which kinds of instructions a machine has, and the opcode of each: those that each machine has, those for buffers if
/// it has one, and one for each function, in their order.
#[derive(Drop)]
pub struct Table {
    // Whether the machine has a buffer.
    buffer: bool,
    // For each function, whether it sends a buffer.
    sends: ArrayVec<bool, FUNCTIONS_MAX>,
}

impl Model for Table {
    ghost use Rattle.mate_code.specs.Table.{Layout};

    ghost Value = { Layout };

    ghost view = { λ t. record { buffer = t.buffer; sends = t.sends.items } };

    ghost inverse = { λ l. record { buffer = l.buffer; sends = record { items = l.sends } } };
}

impl Table {
    /// The table of a machine of this shape.
    pub fn of(shape: &Shape) -> Table
        ensures { result ≡ table_of shape.now }
    {
        let mut sends = ArrayVec::new();
        for function in shape.functions.as_slice() {
            sends.push(function.send);
        }
        Table {
            buffer: shape.buffers > 0,
            sends,
        }
    }

    /// How many opcodes the machine has, from `BASE_END` to `OPCODES_MAX`.
    pub fn len(&self) -> usize
        ensures value { result ≡ length (kinds_of self.now) }
        ensures fits { result ≤ OPCODES_MAX }
    {
        self.first_function() as usize + self.sends.len()
    }

    /// The kind of an opcode; None exactly if the machine has no such opcode.
    pub fn kind(&self, opcode: u8) -> Option<Kind>
        ensures { result ≡ kind_at self.now opcode }
    {
        let first = self.first_function();
        if opcode < BASE_END {
            return Some(BASE[opcode as usize]);
        }
        if opcode < first {
            return Some(BUFFER_GROUP[opcode as usize - BASE_KINDS]);
        }
        self.function_kind(opcode - first)
    }

    /// The opcode of a kind that the table has.
    pub fn opcode(&self, kind: Kind) -> u8
        requires { IsInTable self.now kind }
        ensures { result ≡ opcode_of self.now kind }
    {
        match kind.row().opcode {
            Opcode::Base(opcode) | Opcode::Group(opcode) => opcode,
            Opcode::Function(fun, _) => self.first_function() + fun.0,
        }
    }

    // The kind of a function, if the machine has it.
    fn function_kind(&self, fun: u8) -> Option<Kind>
        ensures { result ≡ option_map (function_kind fun) (slice_get self.now.sends fun) }
    {
        match self.sends.get(fun as usize) {
            Some(true) => Some(Kind::FunBuf(FunId(fun))),
            Some(false) => Some(Kind::Fun(FunId(fun))),
            None => None,
        }
    }

    // The opcode of the first function.
    fn first_function(&self) -> u8
        ensures value { result ≡ first_function self.now }
        ensures least { BASE_END ≤ result }
        ensures most { result + length self.now.sends ≤ OPCODES_MAX }
    {
        prove!(self.sends.len() <= 32);
        if self.buffer { BUFFERS_END } else { BASE_END }
    }
}
