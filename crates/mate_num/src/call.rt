//! How a handler's run ends, the calls that it makes on the way, and when things happen.

use crate::bounds::Payload;
use crate::id::FunId;

/// Why a handler was stopped.
#[derive(Clone, Copy)]
pub enum FaultKind {
    /// A division by 0, or a remainder of one.
    DivZero,
    /// An index outside a buffer's or a message's values.
    Index,
    /// A value appended to a buffer that holds 10.
    BufferFull,
    /// A value taken from an empty buffer.
    BufferEmpty,
    /// A loop went back with no turn left.
    Overrun,
}

/// A split-phase call that was answered: the function, its arguments and the answer.
#[derive(Drop)]
pub struct Call {
    pub fun: FunId,
    pub args: Payload,
    pub result: i16,
}

/// How far a run of a handler came. `Wants` ends a run that called a function for which there is no answer yet.
#[derive(Drop)]
pub enum End {
    /// It ran to its end.
    Halt,
    /// It was stopped.
    Fault(FaultKind),
    /// It called `fun` with `args`, and there is no answer yet.
    Wants { fun: FunId, args: Payload },
}

/// When something happened: the number of the event, and the simulated time in ms.
#[derive(Clone, Copy)]
pub struct Stamp {
    pub event: u64,
    pub time: u32,
}
