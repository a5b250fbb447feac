//! A heap of variables and buffers, and a machine that runs verified code on it, instruction by instruction.

ghost use Rattle.std.specs.Prelude.{◌≡◌, ◌<◌, ◌≤◌, length};
ghost use Rattle.mate_num.specs.declared.bounds.TheConstants.{SHARED_MAX, BUFFERS_MAX};
ghost use Rattle.code_verifier.specs.Verified.{IsAtVerified};
ghost use Rattle.exec_unit.specs.Step.{HasLengths, Waits};

use code_verifier::Verified;
use exec_unit::{Machine, StepEnd, resume, step};
use mate_num::{BufId, FaultKind, Payload, Store, VarId};
use node_heap::Heap;

/// A variable is set and read.
pub fn a_variable(heap: &mut Heap, var: VarId) -> i16
    requires { var.0 < length heap.old.shared.items }
{
    heap.put(var, 7);
    heap.get(var)
}

/// Everything that is done with a buffer; what it holds at the end, and the store.
pub fn a_buffer(heap: &mut Heap, buf: BufId) -> Result<(Payload, Store), FaultKind>
    requires { buf.0 < length heap.old.buffers.items }
{
    heap.clear(buf);
    heap.append(buf, 1)?;
    heap.set_item(buf, 0, 2)?;
    let item: i16 = heap.item(buf, 0)?;
    let taken: i16 = heap.take(buf)?;
    heap.append(buf, item.max(taken))?;
    let _size: i16 = heap.size(buf);
    Ok((heap.payload(buf), heap.store()))
}

/// A new heap of a machine that has so many variables and buffers, all 0 and empty.
pub fn a_heap(shared: u8, buffers: u8) -> Heap
    requires shared { shared ≤ SHARED_MAX }
    requires buffers { buffers ≤ BUFFERS_MAX }
{
    Heap::new(shared, buffers)
}

/// One instruction of a machine: how the run goes on.
pub fn one_step(code: &Verified, machine: &mut Machine, heap: &mut Heap) -> Option<FaultKind>
    requires fits { IsAtVerified code.now machine.old }
    requires lengths { HasLengths code.now.shape heap.old }
{
    match step(code, machine, heap) {
        StepEnd::Next | StepEnd::Halt => None,
        StepEnd::Ask { fun: _, args: _ } => None,
        StepEnd::Fault(kind) => Some(kind),
    }
}

/// A machine that has yet to run, for a message.
pub fn a_machine(turns: u32, message: Payload) -> Machine {
    Machine::new(turns, message)
}

/// The machine's call is answered.
pub fn answered(code: &Verified, machine: &mut Machine, value: i16)
    requires { Waits code.now machine.old }
{
    resume(code, machine, value);
}
