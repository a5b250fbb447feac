//! Descriptions of machines.

use cases_files::{device_words, marked_bytes, shape_words};
use mate_num::ContextId;
use opcode_gen::table;
use std::alloc::{AllocError, Global};
use vm_desc::read;
use vm_shape::{
    DescFault, Description, FunKind, Function, Handler, HandlerKind, RadioSet, TrickleSet, shape,
};

/// The number of instructions that the machine of a case has, or why its text describes none. After the text comes the
/// end of its line.
pub fn instructions(alloc: Global, case: &str) -> Result<String, AllocError> {
    let mut bytes = marked_bytes(alloc, case)?;
    bytes.push(b'\n')?;
    match read(alloc, bytes.as_slice()) {
        Ok(desc) => format!(in alloc; "ok {}", table(&desc).len()),
        Err(fault) => fault_words(alloc, &fault),
    }
}

/// All parts of the machine of a case; the built-in machine is the one of no text.
pub fn parts(alloc: Global, case: &str) -> Result<String, AllocError> {
    if case.is_empty() {
        return described(alloc, &vm_shape::builtin());
    }
    match read(alloc, marked_bytes(alloc, case)?.as_slice()) {
        Ok(desc) => described(alloc, &desc.copy()),
        Err(fault) => fault_words(alloc, &fault),
    }
}

fn fault_words(alloc: Global, fault: &DescFault) -> Result<String, AllocError> {
    match fault {
        DescFault::NotToml => "toml".to_string(alloc),
        DescFault::BadField { key } => format!(in alloc; "field {}", key.word()),
        DescFault::OverLimit { key } => format!(in alloc; "limit {}", key.word()),
        DescFault::Duplicate { name } => format!(in alloc; "duplicate {name}"),
        DescFault::SlowImax { need, have } => format!(in alloc; "slow {need} {have}"),
        DescFault::NoMemory => "no memory".to_string(alloc),
    }
}

fn described(alloc: Global, desc: &Description) -> Result<String, AllocError> {
    let mut text = settings(alloc, desc)?;
    push_contexts(alloc, &mut text, desc)?;
    push_handlers(alloc, &mut text, desc.handlers.as_slice())?;
    push_functions(alloc, &mut text, desc.functions.as_slice())?;
    text.push_str(", ")?;
    text.push_str(shape_words(alloc, &shape(desc))?.as_str())?;
    Ok(text)
}

/// Appends the handler of each context, and this handler's first context.
fn push_contexts(alloc: Global, text: &mut String, desc: &Description) -> Result<(), AllocError> {
    for context in 0..desc.contexts() {
        let handler = desc.handler_of(ContextId(context));
        let first = desc.first_context(handler);
        text.push_str(format!(in alloc; ", {} from {}", handler.0, first.0)?.as_str())?;
    }
    Ok(())
}

fn push_handlers(alloc: Global, text: &mut String, handlers: &[Handler]) -> Result<(), AllocError> {
    for handler in handlers {
        let (name, contexts) = (&handler.name, handler.contexts);
        let kind = handler_words(alloc, handler.kind)?;
        text.push_str(format!(in alloc; ", {name} {kind} {contexts}")?.as_str())?;
    }
    Ok(())
}

fn push_functions(
    alloc: Global,
    text: &mut String,
    functions: &[Function],
) -> Result<(), AllocError> {
    for function in functions {
        let (name, latency) = (&function.name, function.latency);
        let kind = function_words(alloc, function.kind)?;
        let device = device_words(alloc, function.device)?;
        text.push_str(format!(in alloc; ", {name} {kind} {device} {latency}")?.as_str())?;
    }
    Ok(())
}

fn handler_words(alloc: Global, kind: HandlerKind) -> Result<String, AllocError> {
    match kind {
        HandlerKind::Plain => "Plain".to_string(alloc),
        HandlerKind::Timer { period } => format!(in alloc; "Timer {{ period: {period} }}"),
        HandlerKind::Receive => "Receive".to_string(alloc),
        HandlerKind::Once => "Once".to_string(alloc),
    }
}

fn function_words(alloc: Global, kind: FunKind) -> Result<String, AllocError> {
    match kind {
        FunKind::Sense => "Sense".to_string(alloc),
        FunKind::Act { args } => format!(in alloc; "Act {{ args: {args} }}"),
        FunKind::Send => "Send".to_string(alloc),
        FunKind::Id => "Id".to_string(alloc),
        FunKind::Rand => "Rand".to_string(alloc),
        FunKind::Clock => "Clock".to_string(alloc),
    }
}

fn settings(alloc: Global, desc: &Description) -> Result<String, AllocError> {
    let (number, turns, quantum) = (desc.vm_id, desc.turns, desc.quantum);
    let trickle = trickle_words(alloc, desc.trickle)?;
    let (longest, radio) = (desc.trickle.longest(), radio_words(alloc, desc.radio)?);
    format!(in alloc; "{number} {turns} {quantum}, {trickle} to {longest}, {radio}")
}

fn trickle_words(alloc: Global, set: TrickleSet) -> Result<String, AllocError> {
    let (imin, doublings, k) = (set.imin, set.doublings, set.k);
    format!(in alloc; "TrickleSet {{ imin: {imin}, doublings: {doublings}, k: {k} }}")
}

fn radio_words(alloc: Global, set: RadioSet) -> Result<String, AllocError> {
    format!(in alloc; "RadioSet {{ delay: {}, gap: {} }}", set.delay, set.gap)
}
