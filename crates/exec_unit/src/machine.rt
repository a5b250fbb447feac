//! The machine: what an invocation of a handler has of its own.

ghost use Rattle.std.specs.Prelude.{◌≡◌, ◌≤◌, length, reverse};
ghost use Rattle.mate_num.specs.declared.bounds.TheConstants.{PRIVATES, STACK_MAX};
ghost use Rattle.code_verifier.specs.Verified.{VerifiedCode, IsVerifiedCode, IsAtVerified};

use crate::registers::{Memory, Registers};
use mate_num::{PRIVATES, Payload, STACK_MAX};
use std::marker::Model;

/// What an invocation of a handler has of its own: the place of its next instruction, in bytes, its stack of at most
/// `STACK_MAX` values, its private variables, the turns that it has left, and its message.
///
/// Contracts see it as mate_code's `Private`, whose stack has the top first.
#[derive(Drop)]
pub struct Machine {
    pub(crate) registers: Registers,
    pub(crate) memory: Memory,
}

impl Model for Machine {
    ghost use Rattle.mate_code.specs.Effect.{Private};

    ghost Value = { Private };

    ghost use Rattle.exec_unit.specs.Machine.{private_in};

    ghost view = { λ m. private_in m.registers m.memory };
}

impl Machine {
    ghost use Rattle.exec_unit.specs.Machine.{begun};

    /// The machine of an invocation that begins: at place 0, with an empty stack and private variables of 0.
    #[tactic(auto, unfolding(crate::specs::Machine::private_in))]
    pub fn new(turns: u32, msg: Payload) -> Machine
        ensures value { result ≡ begun turns msg.items }
        ensures fits { (v : VerifiedCode) → IsVerifiedCode v → IsAtVerified v result }
    {
        Machine {
            registers: Registers {
                place: 0,
                depth: 0,
                turns,
            },
            memory: Memory {
                stack: [0; STACK_MAX],
                privates: [0; PRIVATES],
                msg,
            },
        }
    }

    /// The place of the next instruction.
    #[tactic(auto, unfolding(crate::specs::Machine::private_in))]
    pub fn place(&self) -> u32
        ensures { result ≡ self.now.pc }
    {
        self.registers.place
    }

    /// The turns that are left.
    #[tactic(auto, unfolding(crate::specs::Machine::private_in))]
    pub fn turns(&self) -> u32
        ensures { result ≡ self.now.turns }
    {
        self.registers.turns
    }

    /// The values on the stack, the top last.
    #[tactic(auto, unfolding(crate::specs::Machine::private_in))]
    pub fn stack(&self) -> &[i16]
        ensures value { reverse result.now ≡ self.now.stack }
        ensures fits { length result.now ≤ STACK_MAX }
    {
        &self.memory.stack[..self.registers.depth]
    }

    /// The private variables.
    #[tactic(auto, unfolding(crate::specs::Machine::private_in))]
    pub fn privates(&self) -> &[i16]
        ensures value { result.now ≡ self.now.privates }
        ensures eight { length result.now ≡ PRIVATES }
    {
        &self.memory.privates
    }

    /// Goes on at the place, with these turns left, these values on the stack, the top last, and these private
    /// variables. The message stays.
    #[tactic(auto, unfolding(crate::specs::Machine::private_in))]
    pub fn move_to(&mut self, place: u32, turns: u32, stack: &[i16], privates: &[i16])
        requires few { length stack.now ≤ STACK_MAX }
        requires eight { length privates.now ≡ PRIVATES }
        ensures { self.new ≡ record { pc = place; stack = reverse stack.now; privates = privates.now; msg = self.old.msg; turns = turns } }
    {
        self.memory.stack[..stack.len()].copy_from_slice(stack);
        self.memory.privates.copy_from_slice(privates);
        self.registers = Registers {
            place,
            depth: stack.len(),
            turns,
        };
    }
}
