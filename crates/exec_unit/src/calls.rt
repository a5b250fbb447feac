//! The instructions that call a function.

ghost use Rattle.std.specs.Prelude.{◌≡◌, ◌<◌, ◌≤◌, length, Some};
ghost use Rattle.mate_code.specs.Effect.{args_of};
ghost use Rattle.mate_code.specs.Run.{fetch};
ghost use Rattle.mate_code.specs.declared.instr.Instr.TheVariants as instrs;
ghost use Rattle.mate_num.specs.declared.store.Store.{Store};
ghost use Rattle.code_verifier.specs.Verified.{IsAtVerified};
ghost use Rattle.exec_unit.specs.Follows.{DoesIn, Does};
ghost use Rattle.exec_unit.specs.Machine.{private_in};
ghost use Rattle.exec_unit.specs.Step.{HasLengths, IsStep};
ghost use Rattle.exec_unit.specs.declared.step_end.StepEnd.TheVariants.{Next};

use crate::registers::{Memory, Registers};
use crate::step_end::StepEnd;
use code_verifier::{Verified, args};
use mate_num::{BufId, FunId, Shape};
use node_heap::Heap;

/// Does the instruction at the registers' place, a call of the function with values of the stack.
pub fn ask(
    code: &Verified,
    registers: &mut Registers,
    memory: &mut Memory,
    heap: &Heap,
    fun: FunId,
) -> StepEnd
    requires fits { IsAtVerified code.now (private_in registers.old memory.old) }
    requires lengths { HasLengths code.now.shape heap.now }
    requires asks { fetch code.now.code registers.old.place ≡ Some (instrs.Fun fun) }
    ensures step { IsStep code.now (private_in registers.old memory.old) heap.now result (private_in registers.new memory.new) heap.now }
    ensures waits { result ≡ Next → ⊥ }
{
    registers.has_depth(memory);
    let _instr = code.at(registers.place as usize);
    let _ = heap;
    take_arguments(code.shape(), registers.past(1), memory, fun)
}

/// Does the instruction at the registers' place, a call of the function with the values of the buffer.
pub fn send(
    code: &Verified,
    registers: &mut Registers,
    memory: &mut Memory,
    heap: &Heap,
    fun: FunId,
    buffer: BufId,
) -> StepEnd
    requires fits { IsAtVerified code.now (private_in registers.old memory.old) }
    requires lengths { HasLengths code.now.shape heap.now }
    requires sends { fetch code.now.code registers.old.place ≡ Some (instrs.FunBuf fun buffer) }
    ensures step { IsStep code.now (private_in registers.old memory.old) heap.now result (private_in registers.new memory.new) heap.now }
    ensures waits { result ≡ Next → ⊥ }
{
    let _instr = code.at(registers.place as usize);
    take_values(registers.past(2), memory, heap, fun, buffer)
}

// Calls with the arguments on the stack.
fn take_arguments(
    shape: &Shape,
    registers: &mut Registers,
    memory: &mut Memory,
    fun: FunId,
) -> StepEnd
    requires { args_of shape.now fun ≤ registers.old.depth }
    ensures does { (store : Store)
        → DoesIn shape.now (instrs.Fun fun) (private_in registers.old memory.old) store result (private_in registers.new memory.new) store }
    ensures waits { result ≡ Next → ⊥ }
{
    registers.has_depth(memory);
    let args = registers.pop_arguments(memory, args(shape, fun));
    StepEnd::Ask { fun, args }
}

// Calls with the values of a buffer.
fn take_values(
    registers: &mut Registers,
    memory: &mut Memory,
    heap: &Heap,
    fun: FunId,
    buffer: BufId,
) -> StepEnd
    requires { buffer.0 < length heap.now.buffers.items }
    ensures does { Does (instrs.FunBuf fun buffer) (private_in registers.old memory.old) heap.now result
        (private_in registers.new memory.new) heap.now }
    ensures waits { result ≡ Next → ⊥ }
{
    let _ = registers;
    let _ = memory;
    StepEnd::Ask {
        fun,
        args: heap.payload(buffer),
    }
}
