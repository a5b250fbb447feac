//! The instructions that work on the machine alone. Each function does its instruction for registers that are already at
//! the place after it.

ghost use Rattle.std.specs.Prelude.{◌≡◌, ◌<◌, ◌≤◌, length};
ghost use Rattle.mate_num.specs.declared.bounds.TheConstants.{PRIVATES, STACK_MAX};
ghost use Rattle.mate_code.specs.Effect.{push, gives, or_div_zero};
ghost use Rattle.mate_code.specs.declared.instr.Instr.TheVariants as instrs;
ghost use Rattle.exec_unit.specs.Follows.{FollowsAlone, DoesAlone, step_end};
ghost use Rattle.exec_unit.specs.Machine.{private_in};
ghost use Rattle.exec_unit.specs.Operands.{ReplacesOne, ReplacesTwo, DividesTwo};
ghost use Rattle.exec_unit.specs.declared.step_end.PlainEnd.TheVariants.{Next};

use crate::registers::{Memory, Registers};
use crate::step_end::PlainEnd;
use mate_num::{FaultKind, Num16};

// Pushes a value.
pub fn give(registers: &mut Registers, memory: &mut Memory, value: i16) -> PlainEnd
    requires { registers.old.depth < STACK_MAX }
    ensures end { result ≡ Next }
    ensures pushed { private_in registers.new memory.new ≡ push value (private_in registers.old memory.old) }
{
    registers.push(memory, value);
    PlainEnd::Next
}

// Pushes a value, or faults.
pub fn give_or_fault(
    registers: &mut Registers,
    memory: &mut Memory,
    value: Result<i16, FaultKind>,
) -> PlainEnd
    requires { registers.old.depth < STACK_MAX }
    ensures { FollowsAlone (gives value (private_in registers.old memory.old)) (step_end result) (private_in registers.new memory.new) }
{
    match value {
        Ok(value) => give(registers, memory, value),
        Err(kind) => PlainEnd::Fault(kind),
    }
}

// Replaces the topmost value by a function of it.
pub fn on_one<F: FnOnce(Num16) -> Num16>(
    registers: &mut Registers,
    memory: &mut Memory,
    f: F,
) -> PlainEnd
    requires callable { F.IsAlwaysCallable f }
    requires operand { 1 ≤ registers.old.depth }
    ensures value { ReplacesOne (F.post f) (private_in registers.old memory.old) (private_in registers.new memory.new) }
    ensures end { result ≡ Next }
{
    let operand = Num16(registers.pop(memory));
    let value = f(operand);
    registers.push(memory, value.0);
    PlainEnd::Next
}

// Replaces the topmost two values, the right one above the left one, by a function of them.
pub fn on_two<F: FnOnce(Num16, Num16) -> Num16>(
    registers: &mut Registers,
    memory: &mut Memory,
    f: F,
) -> PlainEnd
    requires callable { F.IsAlwaysCallable f }
    requires operands { 2 ≤ registers.old.depth }
    ensures value { ReplacesTwo (F.post f) (private_in registers.old memory.old) (private_in registers.new memory.new) }
    ensures end { result ≡ Next }
{
    let right = Num16(registers.pop(memory));
    let left = Num16(registers.pop(memory));
    let value = f(left, right);
    registers.push(memory, value.0);
    PlainEnd::Next
}

// The same for a function that has no value if the right one is 0.
pub fn divide<F: FnOnce(Num16, Num16) -> Option<Num16>>(
    registers: &mut Registers,
    memory: &mut Memory,
    f: F,
) -> PlainEnd
    requires callable { F.IsAlwaysCallable f }
    requires operands { 2 ≤ registers.old.depth }
    ensures { DividesTwo (F.post f) (private_in registers.old memory.old) (step_end result) (private_in registers.new memory.new) }
{
    let right = Num16(registers.pop(memory));
    let left = Num16(registers.pop(memory));
    let quotient = f(left, right);
    give_quotient(registers, memory, quotient)
}

// Pushes a quotient or a remainder, or faults if there is none.
fn give_quotient(registers: &mut Registers, memory: &mut Memory, value: Option<Num16>) -> PlainEnd
    requires { registers.old.depth < STACK_MAX }
    ensures { FollowsAlone (gives (or_div_zero value) (private_in registers.old memory.old)) (step_end result)
        (private_in registers.new memory.new) }
{
    match value {
        Some(value) => give(registers, memory, value.0),
        None => PlainEnd::Fault(FaultKind::DivZero),
    }
}

/// Pushes a private variable, from 0 to 7.
pub fn get_private(registers: &mut Registers, memory: &mut Memory, private: u8) -> PlainEnd
    requires known { private < PRIVATES }
    requires room { registers.old.depth < STACK_MAX }
    ensures { DoesAlone (instrs.GetP private) (private_in registers.old memory.old) (step_end result)
        (private_in registers.new memory.new) }
{
    let value = memory.private(private);
    give(registers, memory, value)
}

/// Pops into a private variable, from 0 to 7.
pub fn set_private(registers: &mut Registers, memory: &mut Memory, private: u8) -> PlainEnd
    requires known { private < PRIVATES }
    requires operand { 1 ≤ registers.old.depth }
    ensures { DoesAlone (instrs.SetP private) (private_in registers.old memory.old) (step_end result)
        (private_in registers.new memory.new) }
{
    let value = registers.pop(memory);
    memory.set_private(private, value);
    PlainEnd::Next
}

/// Pops, and drops the value.
pub fn drop_top(registers: &mut Registers, memory: &mut Memory) -> PlainEnd
    requires { 1 ≤ registers.old.depth }
    ensures { DoesAlone instrs.Drop (private_in registers.old memory.old) (step_end result) (private_in registers.new memory.new) }
{
    registers.pop(memory);
    PlainEnd::Next
}

/// Pops; if the value is 0, goes on at `place`.
pub fn jump_at_zero(registers: &mut Registers, memory: &mut Memory, place: u16) -> PlainEnd
    requires { 1 ≤ registers.old.depth }
    ensures { DoesAlone (instrs.Jz place) (private_in registers.old memory.old) (step_end result) (private_in registers.new memory.new) }
{
    let value = registers.pop(memory);
    if value == 0 {
        registers.go_to(place);
    }
    PlainEnd::Next
}

/// Goes on at `place`.
pub fn jump(registers: &mut Registers, memory: &mut Memory, place: u16) -> PlainEnd
    ensures { DoesAlone (instrs.Jmp place) (private_in registers.old memory.old) (step_end result) (private_in registers.new memory.new) }
{
    registers.go_to(place);
    PlainEnd::Next
}

/// Pays a turn, and goes on at `place`; faults with `Overrun` if no turn is left.
pub fn go_back(registers: &mut Registers, memory: &mut Memory, place: u16) -> PlainEnd
    ensures { DoesAlone (instrs.Back place) (private_in registers.old memory.old) (step_end result) (private_in registers.new memory.new) }
{
    if !registers.pay() {
        return PlainEnd::Fault(FaultKind::Overrun);
    }
    registers.go_to(place);
    PlainEnd::Next
}

/// Pops an index, from 0, and pushes that value of the message; faults with `Index` outside its values.
pub fn get_message_item(registers: &mut Registers, memory: &mut Memory) -> PlainEnd
    requires operand { 1 ≤ registers.old.depth }
    ensures { DoesAlone instrs.MsgGet (private_in registers.old memory.old) (step_end result) (private_in registers.new memory.new) }
{
    let index = registers.pop(memory);
    let value = memory.message_item(index);
    give_or_fault(registers, memory, value)
}

/// Pushes the number of values of the message.
pub fn get_message_size(registers: &mut Registers, memory: &mut Memory) -> PlainEnd
    requires { registers.old.depth < STACK_MAX }
    ensures { DoesAlone instrs.MsgSize (private_in registers.old memory.old) (step_end result) (private_in registers.new memory.new) }
{
    let size = memory.message_size();
    give(registers, memory, size)
}
