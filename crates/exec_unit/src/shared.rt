//! The instructions that use shared variables and buffers. Each function does its instruction for registers that are
//! already at the place after it.

ghost use Rattle.std.specs.Prelude.{◌≡◌, ◌<◌, ◌≤◌, length};
ghost use Rattle.mate_num.specs.declared.bounds.TheConstants.{STACK_MAX};
ghost use Rattle.mate_code.specs.declared.instr.Instr.TheVariants as instrs;
ghost use Rattle.exec_unit.specs.Follows.{Does, ended, step_end};
ghost use Rattle.exec_unit.specs.Machine.{private_in};

use crate::operands::{give, give_or_fault};
use crate::registers::{Memory, Registers};
use crate::step_end::PlainEnd;
use mate_num::{BufId, FaultKind, VarId};
use node_heap::Heap;

/// Pushes a shared variable.
pub fn get_variable(
    registers: &mut Registers,
    memory: &mut Memory,
    heap: &Heap,
    variable: VarId,
) -> PlainEnd
    requires known { variable.0 < length heap.now.shared.items }
    requires room { registers.old.depth < STACK_MAX }
    ensures { Does (instrs.GetS variable) (private_in registers.old memory.old) heap.now (step_end result)
        (private_in registers.new memory.new) heap.now }
{
    give(registers, memory, heap.get(variable))
}

/// Pops into a shared variable.
pub fn set_variable(
    registers: &mut Registers,
    memory: &mut Memory,
    heap: &mut Heap,
    variable: VarId,
) -> PlainEnd
    requires known { variable.0 < length heap.old.shared.items }
    requires operand { 1 ≤ registers.old.depth }
    ensures { Does (instrs.SetS variable) (private_in registers.old memory.old) heap.old (step_end result)
        (private_in registers.new memory.new) heap.new }
{
    let value = registers.pop(memory);
    heap.put(variable, value);
    PlainEnd::Next
}

/// Pops an index, from 0, and pushes that value of the buffer; faults with `Index` outside its values.
pub fn get_item(
    registers: &mut Registers,
    memory: &mut Memory,
    heap: &Heap,
    buffer: BufId,
) -> PlainEnd
    requires known { buffer.0 < length heap.now.buffers.items }
    requires operand { 1 ≤ registers.old.depth }
    ensures { Does (instrs.BGet buffer) (private_in registers.old memory.old) heap.now (step_end result)
        (private_in registers.new memory.new) heap.now }
{
    let index = registers.pop(memory);
    give_or_fault(registers, memory, heap.item(buffer, index))
}

/// Pops a value, pops an index, and stores the value in the buffer; faults with `Index` outside its values.
pub fn set_item(
    registers: &mut Registers,
    memory: &mut Memory,
    heap: &mut Heap,
    buffer: BufId,
) -> PlainEnd
    requires known { buffer.0 < length heap.old.buffers.items }
    requires operands { 2 ≤ registers.old.depth }
    ensures { Does (instrs.BSet buffer) (private_in registers.old memory.old) heap.old (step_end result)
        (private_in registers.new memory.new) heap.new }
{
    let value = registers.pop(memory);
    let index = registers.pop(memory);
    end_of(heap.set_item(buffer, index, value))
}

/// Pops, and appends to the buffer; faults with `BufferFull` if it holds 10.
pub fn append(
    registers: &mut Registers,
    memory: &mut Memory,
    heap: &mut Heap,
    buffer: BufId,
) -> PlainEnd
    requires known { buffer.0 < length heap.old.buffers.items }
    requires operand { 1 ≤ registers.old.depth }
    ensures { Does (instrs.BAdd buffer) (private_in registers.old memory.old) heap.old (step_end result)
        (private_in registers.new memory.new) heap.new }
{
    let value = registers.pop(memory);
    end_of(heap.append(buffer, value))
}

/// Takes the buffer's last value and pushes it; faults with `BufferEmpty` if there is none.
pub fn take(
    registers: &mut Registers,
    memory: &mut Memory,
    heap: &mut Heap,
    buffer: BufId,
) -> PlainEnd
    requires known { buffer.0 < length heap.old.buffers.items }
    requires room { registers.old.depth < STACK_MAX }
    ensures { Does (instrs.BTake buffer) (private_in registers.old memory.old) heap.old (step_end result)
        (private_in registers.new memory.new) heap.new }
{
    give_or_fault(registers, memory, heap.take(buffer))
}

/// Pushes the number of values in the buffer.
pub fn get_size(
    registers: &mut Registers,
    memory: &mut Memory,
    heap: &Heap,
    buffer: BufId,
) -> PlainEnd
    requires known { buffer.0 < length heap.now.buffers.items }
    requires room { registers.old.depth < STACK_MAX }
    ensures { Does (instrs.BSize buffer) (private_in registers.old memory.old) heap.now (step_end result)
        (private_in registers.new memory.new) heap.now }
{
    give(registers, memory, heap.size(buffer))
}

/// Empties the buffer.
pub fn clear(
    registers: &mut Registers,
    memory: &mut Memory,
    heap: &mut Heap,
    buffer: BufId,
) -> PlainEnd
    requires { buffer.0 < length heap.old.buffers.items }
    ensures { Does (instrs.BClear buffer) (private_in registers.old memory.old) heap.old (step_end result)
        (private_in registers.new memory.new) heap.new }
{
    let _ = registers;
    let _ = memory;
    heap.clear(buffer);
    PlainEnd::Next
}

// How an instruction ends that changes a buffer, or whose change was refused.
fn end_of(outcome: Result<(), FaultKind>) -> PlainEnd
    ensures { result ≡ ended outcome }
{
    match outcome {
        Ok(()) => PlainEnd::Next,
        Err(kind) => PlainEnd::Fault(kind),
    }
}
