//! A heap: `SHARED BUFFERS: `, and then what is done with it in turn. A call that returns nothing prints nothing.

ghost use Rattle.std.specs.Prelude.{◌<◌, length};

use crate::steps::{Part, Step, answers, place, step_of};
use cases_files::fault_word;
use mate_num::{BufId, FaultKind, VarId};
use node_heap::Heap;
use std::alloc::{AllocError, Global};

pub fn answer(alloc: Global, case: &str) -> Result<String, AllocError> {
    let Some((sizes, steps)) = case.split_once(": ") else {
        return "no heap".to_string(alloc);
    };
    let mut sizes = sizes.split(' ');
    let shared = place(sizes.next());
    let buffers = place(sizes.next());
    if shared > 16 || buffers > 8 {
        return "no heap".to_string(alloc);
    }
    let mut heap = Heap::new(shared, buffers);
    answers(alloc, &mut heap, steps)
}

impl Part for Heap {
    fn take(&mut self, alloc: Global, step: &str) -> Result<String, AllocError> {
        taken(alloc, self, step)
    }
}

fn taken(alloc: Global, heap: &mut Heap, step: &str) -> Result<String, AllocError> {
    let Step {
        verb,
        at,
        first,
        second,
    } = step_of(step);
    let store = heap.store();
    if verb == "store" {
        return format!(in alloc; "{:?} {:?}", store.shared, store.buffers);
    }
    if usize::from(at) < store.shared.len() && (verb == "get" || verb == "put") {
        return on_variable(alloc, heap, verb, VarId(at), first);
    }
    if usize::from(at) < store.buffers.len() {
        return on_buffer(alloc, heap, verb, BufId(at), first, second);
    }
    "no step".to_string(alloc)
}

fn on_variable(
    alloc: Global,
    heap: &mut Heap,
    verb: &str,
    var: VarId,
    new: i16,
) -> Result<String, AllocError>
    requires { var.0 < length heap.old.shared.items }
{
    match verb {
        "get" => format!(in alloc; "{}", heap.get(var)),
        _ => {
            heap.put(var, new);
            Ok(String::new(alloc))
        }
    }
}

fn on_buffer(
    alloc: Global,
    heap: &mut Heap,
    verb: &str,
    buf: BufId,
    first: i16,
    second: i16,
) -> Result<String, AllocError>
    requires { buf.0 < length heap.old.buffers.items }
{
    match verb {
        "append" => done(alloc, heap.append(buf, first)),
        "item" => taken_value(alloc, heap.item(buf, first)),
        "set" => done(alloc, heap.set_item(buf, first, second)),
        "take" => taken_value(alloc, heap.take(buf)),
        "size" => format!(in alloc; "{}", heap.size(buf)),
        "values" => format!(in alloc; "{:?}", heap.payload(buf)),
        "clear" => {
            heap.clear(buf);
            Ok(String::new(alloc))
        }
        _ => "no step".to_string(alloc),
    }
}

fn done(alloc: Global, outcome: Result<(), FaultKind>) -> Result<String, AllocError> {
    match outcome {
        Ok(()) => "Ok(())".to_string(alloc),
        Err(kind) => format!(in alloc; "Err({})", fault_word(kind)),
    }
}

fn taken_value(alloc: Global, outcome: Result<i16, FaultKind>) -> Result<String, AllocError> {
    match outcome {
        Ok(value) => format!(in alloc; "Ok({value})"),
        Err(kind) => format!(in alloc; "Err({})", fault_word(kind)),
    }
}
