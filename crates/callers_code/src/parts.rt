//! The parts of a node: its heap, its ring of ready contexts and its pending calls.

ghost use Rattle.std.specs.Prelude.{◌≡◌, [], ◌∷◌, pos, length, Ok, Err, Some, None, IfOk, true, false};
ghost use Rattle.mate_num.specs.Store.{buffer_at, payload};
ghost use Rattle.mate_num.specs.declared.call.FaultKind.TheVariants.{Index, BufferEmpty, BufferFull};

use context_sched::Ring;
use mate_num::{BufId, ContextId, FaultKind, FunId, NoMemory, Payload, VarId};
use node_heap::Heap;
use split_phase::Pending;
use std::alloc::Global;

pub fn variables_stand_apart() -> i16
    ensures { result ≡ pos 0 }
{
    let mut heap = Heap::new(2, 1);
    heap.put(VarId(0), 5);
    heap.get(VarId(1))
}

pub fn a_variable_holds_what_was_put() -> i16
    ensures { result ≡ pos 5 }
{
    let mut heap = Heap::new(2, 1);
    heap.put(VarId(1), 5);
    heap.get(VarId(1))
}

pub fn the_last_value_is_taken() -> Result<i16, FaultKind>
    ensures { result ≡ Ok (pos 6) }
{
    let mut heap = Heap::new(0, 1);
    heap.append(BufId(0), 5)?;
    heap.append(BufId(0), 6)?;
    heap.take(BufId(0))
}

pub fn a_taken_value_is_gone() -> Result<i16, FaultKind>
    ensures { result ≡ Err BufferEmpty }
{
    let mut heap = Heap::new(0, 1);
    heap.append(BufId(0), 5)?;
    heap.take(BufId(0))?;
    heap.take(BufId(0))
}

pub fn ten_values_leave_no_room(heap: &mut Heap) -> Result<(), FaultKind>
    requires one { length heap.old.buffers.items ≡ 1 }
    requires ten { length (buffer_at heap.old 0) ≡ 10 }
    ensures { result ≡ Err BufferFull }
{
    heap.append(BufId(0), 5)
}

pub fn the_size_is_no_index() -> Result<i16, FaultKind>
    ensures { result ≡ Err Index }
{
    let mut heap = Heap::new(0, 1);
    heap.append(BufId(0), 5)?;
    heap.item(BufId(0), 1)
}

pub fn buffers_stand_apart() -> Result<i16, FaultKind>
    ensures { result ≡ Ok (pos 0) }
{
    let mut heap = Heap::new(0, 2);
    heap.append(BufId(0), 5)?;
    Ok(heap.size(BufId(1)))
}

pub fn a_cleared_buffer_is_empty() -> Result<i16, FaultKind>
    ensures { result ≡ Ok (pos 0) }
{
    let mut heap = Heap::new(0, 1);
    heap.append(BufId(0), 5)?;
    heap.clear(BufId(0));
    Ok(heap.size(BufId(0)))
}

pub fn the_first_ready_context_has_the_first_turn(
    alloc: Global,
) -> Result<Option<ContextId>, NoMemory>
    ensures { IfOk result (λ ctx. ctx ≡ Some (record { 0 = 7 })) }
{
    let mut ring = Ring::new(alloc)?;
    ring.ready(ContextId(7));
    ring.ready(ContextId(3));
    Ok(ring.next())
}

pub fn a_removed_context_has_no_turn(alloc: Global) -> Result<Option<ContextId>, NoMemory>
    ensures { IfOk result (λ ctx. ctx ≡ Some (record { 0 = 3 })) }
{
    let mut ring = Ring::new(alloc)?;
    ring.ready(ContextId(7));
    ring.ready(ContextId(3));
    ring.remove(ContextId(7));
    Ok(ring.next())
}

pub fn a_ready_context_is_found_behind_another(alloc: Global) -> Result<bool, NoMemory>
    ensures { IfOk result (λ found. found ≡ true) }
{
    let mut ring = Ring::new(alloc)?;
    ring.ready(ContextId(7));
    ring.ready(ContextId(3));
    Ok(ring.contains(ContextId(3)))
}

pub fn a_cleared_ring_has_no_turn(alloc: Global) -> Result<Option<ContextId>, NoMemory>
    ensures { IfOk result (λ ctx. ctx ≡ None) }
{
    let mut ring = Ring::new(alloc)?;
    ring.ready(ContextId(7));
    ring.clear();
    Ok(ring.next())
}

pub fn a_call_is_answered_at_its_context() -> bool
    ensures { result ≡ false }
{
    let mut pending = Pending::new();
    pending.ask(ContextId(3), FunId(1), Payload::new());
    pending.asked(ContextId(4)).is_some()
}

pub fn a_call_waits_with_its_arguments() -> Option<(FunId, Payload)>
    ensures { result ≡ Some (record { 0 = 1 }, payload (pos 5 ∷ [])) }
{
    let mut args = Payload::new();
    args.push(5);
    let mut pending = Pending::new();
    pending.ask(ContextId(3), FunId(1), args);
    pending.asked(ContextId(3))
}

pub fn a_call_is_answered_once() -> bool
    ensures { result ≡ false }
{
    let mut pending = Pending::new();
    pending.ask(ContextId(3), FunId(1), Payload::new());
    let _first = pending.answer(ContextId(3)).is_ok();
    pending.answer(ContextId(3)).is_ok()
}

pub fn a_cancelled_call_is_gone() -> bool
    ensures { result ≡ false }
{
    let mut pending = Pending::new();
    pending.ask(ContextId(3), FunId(1), Payload::new());
    pending.cancel();
    pending.answer(ContextId(3)).is_ok()
}
