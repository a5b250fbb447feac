//! Stepping a machine through verified code.

ghost use Rattle.std.specs.Prelude.{◌≡◌};
ghost use Rattle.mate_code.specs.Effect.{push};
ghost use Rattle.code_verifier.specs.Verified.{IsAtVerified};
ghost use Rattle.exec_unit.specs.Machine.{private_in};
ghost use Rattle.exec_unit.specs.Step.{HasLengths, IsStep, ComesTo, Waits};

use crate::calls::{ask, send};
use crate::instruction::act;
use crate::machine::Machine;
use crate::registers::{Memory, Registers};
use crate::step_end::{Act, StepEnd};
use code_verifier::Verified;
use node_heap::Heap;

// Executes the instruction at the registers' place, unless it calls a function. It returns nothing that a loop over
// instructions would have to write in each round.
#[inline(always)]
pub(crate) fn advance(
    code: &Verified,
    registers: &mut Registers,
    memory: &mut Memory,
    heap: &mut Heap,
) -> Act
    requires fits { IsAtVerified code.now (private_in registers.old memory.old) }
    requires lengths { HasLengths code.now.shape heap.old }
    ensures { ComesTo result code.now (private_in registers.old memory.old) heap.old (private_in registers.new memory.new) heap.new }
{
    registers.has_depth(memory);
    let instr = code.at(registers.place as usize);
    act(code.shape(), instr, registers, memory, heap)
}

// Executes the instruction at the registers' place.
fn execute(
    code: &Verified,
    registers: &mut Registers,
    memory: &mut Memory,
    heap: &mut Heap,
) -> StepEnd
    requires fits { IsAtVerified code.now (private_in registers.old memory.old) }
    requires lengths { HasLengths code.now.shape heap.old }
    ensures { IsStep code.now (private_in registers.old memory.old) heap.old result (private_in registers.new memory.new) heap.new }
{
    match advance(code, registers, memory, heap) {
        Act::Done(end) => end.step_end(),
        Act::Asks(fun) => ask(code, registers, memory, heap, fun),
        Act::Sends(fun, buffer) => send(code, registers, memory, heap, fun, buffer),
    }
}

/// Executes the instruction at the machine's place. It takes no memory, and copies neither code nor payloads, except
/// that it builds the arguments of an `Ask` once.
///
/// After `Next` the machine fits the code again; after an `Ask` it waits in the code, for `resume`. After `Halt` and
/// `Fault` the machine isn't stepped again.
pub fn step(code: &Verified, machine: &mut Machine, heap: &mut Heap) -> StepEnd
    requires fits { IsAtVerified code.now machine.old }
    requires lengths { HasLengths code.now.shape heap.old }
    ensures { IsStep code.now machine.old heap.old result machine.new heap.new }
{
    execute(code, &mut machine.registers, &mut machine.memory, heap)
}

/// Gives the answer of its call to a machine that waits in this code.
pub fn resume(code: &Verified, machine: &mut Machine, value: i16)
    requires { Waits code.now machine.old }
    ensures pushed { machine.new ≡ push value machine.old }
    ensures fits { IsAtVerified code.now machine.new }
{
    let _ = code;
    machine.registers.has_depth(&machine.memory);
    machine.registers.push(&mut machine.memory, value);
}
