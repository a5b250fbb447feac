//! Descriptions of machines, read from TOML.

use mate_num::{DeviceId, Name, Shape};
use std::alloc::Global;
use vm_desc::{
    DescFault, Description, FunKind, Function, Handler, HandlerKind, Key, RadioSet, TrickleSet,
    builtin, read, shape,
};

/// The shape of the described machine; that of the built-in one for a text that describes none.
pub fn shape_of(alloc: Global, bytes: &[u8]) -> Shape {
    let described: Result<Description, DescFault> = read(alloc, bytes);
    match described {
        Ok(desc) => shape(&desc),
        Err(_) => shape(&builtin()),
    }
}

/// The number of a machine, its limits, and the longest of what else counts in it.
pub fn numbers_of(desc: &Description) -> (u32, u32, u32, u32, usize) {
    let TrickleSet { imin, doublings, k } = desc.trickle;
    let RadioSet { delay, gap } = desc.radio;
    let parts = desc
        .handlers
        .len()
        .max(desc.functions.len())
        .max(desc.shared.len())
        .max(desc.buffers.len())
        .max(desc.devices.len());
    let radio = delay.max(gap).max(imin);
    let trickle = u32::from(doublings).max(u32::from(k));
    (
        desc.vm_id,
        desc.turns,
        desc.quantum,
        radio.max(trickle),
        parts,
    )
}

/// The period of a handler, in ms, if a timer posts it.
pub fn period_of(handler: &Handler) -> Option<u32> {
    let _name: &Name = &handler.name;
    let _contexts: u8 = handler.contexts;
    match handler.kind {
        HandlerKind::Timer { period } => Some(period),
        HandlerKind::Plain | HandlerKind::Receive | HandlerKind::Once => None,
    }
}

/// How many arguments a function takes, if that is fixed.
pub fn arguments_of(function: &Function) -> Option<u8> {
    let _name: &Name = &function.name;
    let _device: Option<DeviceId> = function.device;
    let _latency: u32 = function.latency;
    match function.kind {
        FunKind::Sense | FunKind::Id | FunKind::Rand | FunKind::Clock => Some(0),
        FunKind::Act { args } => Some(args),
        FunKind::Send => None,
    }
}

/// The word of the refused key, if a key is refused.
pub fn refused_word(fault: &DescFault) -> Option<&'static str> {
    match fault {
        DescFault::BadField { key } | DescFault::OverLimit { key } => Some(key.word()),
        DescFault::NotToml | DescFault::NoMemory => None,
        DescFault::Duplicate { name: _ } => None,
        DescFault::SlowImax { need: _, have: _ } => None,
    }
}

/// Whether a key is one of a handler's or a function's table.
pub fn is_of_a_table(key: Key) -> bool {
    match key {
        Key::Vm | Key::Shared | Key::Buffers | Key::Devices | Key::Turns | Key::Quantum => false,
        Key::Handler
        | Key::HandlerName
        | Key::HandlerKind
        | Key::HandlerContexts
        | Key::HandlerPeriod => true,
        Key::Function
        | Key::FunctionName
        | Key::FunctionKind
        | Key::FunctionArgs
        | Key::FunctionDevice
        | Key::FunctionLatency => true,
        Key::TrickleImin | Key::TrickleDoublings | Key::TrickleK => false,
        Key::RadioDelay | Key::RadioGap | Key::Unknown => false,
    }
}
