//! What the instructions do with the registers and the memory of a machine.
#![tactic(auto, unfolding(crate::specs::Machine::private_in))]

ghost use Rattle.std.specs.Prelude.{◌≡◌, ◌+◌, ◌-◌, ◌<◌, ◌≤◌, ◌∷◌, pos, length, drop, take, reverse, slice_index_or, slice_set};
ghost use Rattle.mate_num.specs.Store.{item_of};
ghost use Rattle.mate_num.specs.declared.bounds.TheConstants.{CODE_MAX, PRIVATES, STACK_MAX};
ghost use Rattle.mate_code.specs.Effect.{push, with_stack, at_place, arguments};
ghost use Rattle.exec_unit.specs.declared.registers.Memory.{Memory as AnyMemory};
ghost use Rattle.exec_unit.specs.declared.registers.Registers.{Registers as AnyRegisters};
ghost use Rattle.exec_unit.specs.Machine.{private_in};
ghost use Rattle.exec_unit.specs.Operands.{Pays};

use crate::registers::{Memory, Registers};
use mate_num::{FaultKind, PAYLOAD_MAX, Payload, STACK_MAX};

impl Registers {
    // Goes past an instruction of `size` bytes.
    pub(crate) fn past(&mut self, size: u32) -> &mut Registers
        requires { self.old.place + size ≤ CODE_MAX }
        ensures same { result.ghost_name ≡ self.entry.ghost_name }
        ensures value { (m : AnyMemory) → private_in result.now m ≡ at_place (self.old.place + size) (private_in self.old m) }
        ensures depth { result.now.depth ≡ self.old.depth }
    {
        self.place += size;
        self
    }

    // Goes on at a place.
    pub(crate) fn go_to(&mut self, place: u16)
        ensures { (m : AnyMemory) → private_in self.new m ≡ at_place place (private_in self.old m) }
    {
        self.place = u32::from(place);
    }

    // Pays a turn. Returns whether one was left.
    pub(crate) fn pay(&mut self) -> bool
        ensures { (m : AnyMemory) → Pays (private_in self.old m) result (private_in self.new m) }
    {
        if self.turns == 0 {
            return false;
        }
        self.turns -= 1;
        true
    }

    pub(crate) fn push(&mut self, memory: &mut Memory, value: i16)
        requires { self.old.depth < STACK_MAX }
        ensures { private_in self.new memory.new ≡ push value (private_in self.old memory.old) }
    {
        put(&mut memory.stack, self.depth, value);
        self.depth += 1;
    }

    pub(crate) fn pop(&mut self, memory: &Memory) -> i16
        requires { 1 ≤ self.old.depth }
        ensures value { private_in self.old memory.now ≡ push result (private_in self.new memory.now) }
        ensures depth { self.new.depth + 1 ≡ self.old.depth }
    {
        let value = last(&memory.stack, self.depth);
        self.depth -= 1;
        value
    }

    // Pops `count` values, the last argument first.
    pub(crate) fn pop_arguments(&mut self, memory: &Memory, count: u8) -> Payload
        requires { count ≤ self.old.depth }
        ensures value { result ≡ arguments count (private_in self.old memory.now).stack }
        ensures left { private_in self.new memory.now ≡ with_stack (drop count (private_in self.old memory.now).stack)
            (private_in self.old memory.now) }
    {
        let first = self.depth - usize::from(count);
        let values = between(&memory.stack, first, self.depth);
        let room = values.len().min(PAYLOAD_MAX);
        let Ok(args) = Payload::try_from(&values[..room]) else {
            unreachable!()
        };
        self.depth = first;
        args
    }

    // The depth is that of the stack that contracts see.
    pub(crate) fn has_depth(&self, memory: &Memory)
        ensures { length (private_in self.now memory.now).stack ≡ self.now.depth }
    {
        let _values = between(&memory.stack, 0, self.depth);
    }
}

impl Memory {
    // The value of a private variable.
    pub(crate) fn private(&self, private: u8) -> i16
        requires { private < PRIVATES }
        ensures { (r : AnyRegisters) → result ≡ slice_index_or (private_in r self.now).privates private (pos 0) }
    {
        self.privates[usize::from(private)]
    }

    pub(crate) fn set_private(&mut self, private: u8, value: i16)
        requires { private < PRIVATES }
        ensures { (r : AnyRegisters)
            → private_in r self.new ≡ record (private_in r self.old) {
              privates = slice_set (private_in r self.old).privates private value;
            } }
    {
        self.privates[usize::from(private)] = value;
    }

    // The value of the message at an index; the fault `Index` exactly if it is outside its values.
    pub(crate) fn message_item(&self, index: i16) -> Result<i16, FaultKind>
        ensures { (r : AnyRegisters) → result ≡ item_of (private_in r self.now).msg index }
    {
        match usize::try_from(index) {
            Ok(i) if i < self.msg.len() => Ok(self.msg[i]),
            _ => Err(FaultKind::Index),
        }
    }

    // How many values the message has.
    pub(crate) fn message_size(&self) -> i16
        ensures { (r : AnyRegisters) → result ≡ pos (length (private_in r self.now).msg) }
    {
        self.msg.len() as i16
    }
}

// The first `depth` values, with one more after them.
#[tactic(auto, using(mate_code::proofs::StackLemmas::put_reverse))]
fn put(stack: &mut [i16; STACK_MAX], depth: usize, value: i16)
    requires { depth < STACK_MAX }
    ensures { reverse (take (depth + 1) stack.new) ≡ value ∷ reverse (take depth stack.old) }
{
    stack[depth] = value;
}

// The last of the first `depth` values.
#[tactic(auto, using(mate_code::proofs::StackLemmas::last_reverse))]
fn last(stack: &[i16; STACK_MAX], depth: usize) -> i16
    requires some { 1 ≤ depth }
    requires fits { depth ≤ STACK_MAX }
    ensures { reverse (take depth stack.now) ≡ result ∷ reverse (take (depth - 1) stack.now) }
{
    stack[depth - 1]
}

// The values from `first` on, up to `depth`.
#[tactic(auto, using(mate_code::proofs::StackLemmas::between_is))]
fn between(stack: &[i16; STACK_MAX], first: usize, depth: usize) -> &[i16]
    requires first { first ≤ depth }
    requires fits { depth ≤ STACK_MAX }
    ensures value { result.now ≡ drop first (take depth stack.now) }
    ensures len { length (take depth stack.now) ≡ depth }
{
    let _last = stack[STACK_MAX - 1];
    &stack[first..depth]
}
