//! Values that several tables print: each by the name of its type or its variant, with its fields.

use mate_num::{Call, DeviceId, End, FaultKind, FunShape, Shape, Store, Text};
use script_steps::Cause;
use std::alloc::{AllocError, Global};

/// Why a handler was stopped.
pub fn fault_word(kind: FaultKind) -> &'static str {
    match kind {
        FaultKind::DivZero => "DivZero",
        FaultKind::Index => "Index",
        FaultKind::BufferFull => "BufferFull",
        FaultKind::BufferEmpty => "BufferEmpty",
        FaultKind::Overrun => "Overrun",
    }
}

/// How a run ended.
pub fn end_words(alloc: Global, end: &End) -> Result<String, AllocError> {
    match end {
        End::Halt => "Halt".to_string(alloc),
        End::Fault(kind) => format!(in alloc; "Fault({})", fault_word(*kind)),
        End::Wants { fun, args } => {
            format!(in alloc; "Wants {{ fun: FunId({}), args: {args:?} }}", fun.0)
        }
    }
}

/// A call that was answered.
pub fn call_words(alloc: Global, call: &Call) -> Result<String, AllocError> {
    let (fun, args, result) = (call.fun.0, &call.args, call.result);
    format!(in alloc; "Call {{ fun: FunId({fun}), args: {args:?}, result: {result} }}")
}

/// The values of a store.
pub fn store_words(alloc: Global, store: &Store) -> Result<String, AllocError> {
    let (shared, buffers) = (&store.shared, &store.buffers);
    format!(in alloc; "Store {{ shared: {shared:?}, buffers: {buffers:?} }}")
}

/// A machine's shape.
pub fn shape_words(alloc: Global, shape: &Shape) -> Result<String, AllocError> {
    let mut functions = String::new(alloc);
    for (place, function) in shape.functions.iter().enumerate() {
        if place > 0 {
            functions.push_str(", ")?;
        }
        functions.push_str(function_words(alloc, function)?.as_str())?;
    }
    let (shared, buffers) = (shape.shared, shape.buffers);
    format!(in alloc; "Shape {{ shared: {shared}, buffers: {buffers}, functions: [{functions}] }}")
}

fn function_words(alloc: Global, function: &FunShape) -> Result<String, AllocError> {
    let (args, send) = (function.args, function.send);
    let device = device_words(alloc, function.device)?;
    format!(in alloc; "FunShape {{ args: {args}, send: {send}, device: {device} }}")
}

/// The device that a function uses, if any.
pub fn device_words(alloc: Global, device: Option<DeviceId>) -> Result<String, AllocError> {
    match device {
        Some(device) => format!(in alloc; "Some(DeviceId({}))", device.0),
        None => "None".to_string(alloc),
    }
}

/// Texts in quotes.
pub fn quoted(alloc: Global, texts: &[Text]) -> Result<String, AllocError> {
    let mut list = String::from_str(alloc, "[")?;
    for (place, text) in texts.iter().enumerate() {
        if place > 0 {
            list.push_str(", ")?;
        }
        list.push_str(format!(in alloc; "{:?}", text.as_str())?.as_str())?;
    }
    list.push_str("]")?;
    Ok(list)
}

/// What is wrong with a line of a script.
pub fn cause_word(cause: Cause) -> &'static str {
    match cause {
        Cause::Word => "word",
        Cause::Number => "number",
        Cause::Range => "range",
        Cause::TimeBack => "timeback",
        Cause::OldVersion => "oldversion",
        Cause::Name => "name",
        Cause::Node => "node",
        Cause::Packet => "packet",
    }
}
