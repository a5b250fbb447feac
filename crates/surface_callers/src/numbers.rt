//! Numbers, names, the shape of a machine, and what a handler leaves and calls.

use arrayvec::ArrayVec;
use mate_num::{
    BufId, CODE_MAX, Call, Code, ContextId, DeviceId, End, FaultKind, FunId, FunShape, HandlerId,
    IMAGE_MAX, Image, Name, NoMemory, Num16, PacketBytes, Payload, Resource, Shape, Stamp, Store,
    Text, Texts, VarId,
};
use std::alloc::Global;

/// Every operation of TinyScript on two numbers, in one sum.
pub fn every_operation(a: Num16, b: Num16) -> Num16 {
    let compared = a
        .eq(b)
        .add(a.ne(b))
        .add(a.lt(b))
        .add(a.gt(b))
        .add(a.le(b))
        .add(a.ge(b));
    let joined = a.and(b).or(a.not()).sub(b.neg()).mul(a).add(compared);
    let quotient: Option<Num16> = joined.div(b);
    let remainder: Option<Num16> = joined.rem(b);
    match (quotient, remainder) {
        (Some(Num16(quotient)), Some(remainder)) => Num16(quotient).add(remainder),
        _ => joined,
    }
}

/// The number within an id of each kind.
pub fn every_id(resource: Resource) -> u8 {
    let (HandlerId(handler), FunId(fun), ContextId(context)) = (
        HandlerId(0),
        FunId(0),
        ContextId(0),
    );
    match resource {
        Resource::Shared(VarId(number)) => number.max(handler),
        Resource::Buffer(BufId(number)) => number.max(fun),
        Resource::Device(DeviceId(number)) => number.max(context),
    }
}

/// Bytes of each bounded kind: they are array vectors of these sizes.
pub fn every_kind_of_bytes() -> (Code, Image, PacketBytes, Payload) {
    let code: ArrayVec<u8, 1040> = Code::new();
    let image: ArrayVec<u8, 1056> = Image::new();
    let bytes: ArrayVec<u8, 64> = PacketBytes::new();
    let payload: ArrayVec<i16, 10> = Payload::new();
    let _sizes: [usize; 2] = [CODE_MAX, IMAGE_MAX];
    (code, image, bytes, payload)
}

/// A shape with one function that asks a device.
pub fn a_shape() -> Shape {
    let mut functions: ArrayVec<FunShape, 32> = ArrayVec::new();
    let device: Option<DeviceId> = Some(DeviceId(0));
    let _room = functions.try_push(FunShape {
        args: 1,
        send: false,
        device,
    });
    Shape {
        shared: 1,
        buffers: 0,
        functions,
    }
}

/// What a call of a function was, after a run that left this store.
pub fn call_of(store: &Store, fun: FunId, end: End) -> Call {
    let Store { shared, buffers } = store;
    let _count = shared.len() + buffers.len();
    let (args, result) = match end {
        End::Halt => (Payload::new(), 0),
        End::Fault(kind) => (Payload::new(), fault_number(kind)),
        End::Wants { fun: _, args } => (args, 1),
    };
    Call { fun, args, result }
}

fn fault_number(kind: FaultKind) -> i16 {
    match kind {
        FaultKind::DivZero => 1,
        FaultKind::Index => 2,
        FaultKind::BufferFull => 3,
        FaultKind::BufferEmpty => 4,
        FaultKind::Overrun => 5,
    }
}

/// The moment after another.
pub fn later(stamp: Stamp) -> Stamp {
    let Stamp { event, time } = stamp;
    Stamp {
        event: event.saturating_add(1),
        time,
    }
}

/// A list of one text, and whether it is a name.
pub fn a_text(alloc: Global, text: &str) -> Result<(Texts, bool), NoMemory> {
    let mut texts = Texts::new(alloc);
    texts.push(Text::of(alloc, text)?)?;
    let is_name = match texts.get(0) {
        Some(first) => Name::new(first.as_str()).is_some(),
        None => false,
    };
    let _all: &[Text] = texts.as_slice();
    let _count: usize = texts.len();
    Ok((texts, is_name))
}
