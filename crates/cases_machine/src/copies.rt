//! Values in words, named by the type or by how a run ends: copies of those that a call copies.

use arrayvec::ArrayVec;
use cases_files::{call_words, end_words, shape_words, store_words, zero_store};
use mate_num::{
    Call, DeviceId, End, FaultKind, FunId, FunShape, NoMemory, Payload, Shape, copy_of,
};
use std::alloc::{AllocError, Global};

pub fn answer(alloc: Global, case: &str) -> Result<String, AllocError> {
    match case {
        "payload" => format!(in alloc; "{:?}", copy_of(&payload())),
        "store" => store(alloc),
        "shape" => shape_words(alloc, &shape().copy()),
        "call" => call_words(alloc, &call()),
        "halt" => end_words(alloc, &End::Halt),
        "fault" => end_words(alloc, &End::Fault(FaultKind::Index)),
        "wants" => wants(alloc),
        "memory" => format!(in alloc; "{NoMemory}"),
        _ => "no type".to_string(alloc),
    }
}

fn payload() -> Payload {
    let mut payload = Payload::new();
    payload.push(5);
    payload.push(-5);
    payload
}

fn store(alloc: Global) -> Result<String, AllocError> {
    let zero = zero_store(2, 1);
    let mut store = zero.copy();
    let _ = store.shared.try_push(7);
    let _ = store.buffers.try_push(payload());
    let copy = store.copy();
    let same = copy.shared == zero.shared && copy.buffers == zero.buffers;
    let (zero, copy) = (store_words(alloc, &zero)?, store_words(alloc, &copy)?);
    format!(in alloc; "{zero} {copy} {same}")
}

fn shape() -> Shape {
    let mut functions = ArrayVec::new();
    functions.push(FunShape {
        args: 2,
        send: false,
        device: Some(DeviceId(3)),
    });
    Shape {
        shared: 2,
        buffers: 1,
        functions,
    }
}

fn call() -> Call {
    Call {
        fun: FunId(4),
        args: payload(),
        result: -1,
    }
}

fn wants(alloc: Global) -> Result<String, AllocError> {
    let end = End::Wants {
        fun: FunId(4),
        args: payload(),
    };
    end_words(alloc, &end)
}
