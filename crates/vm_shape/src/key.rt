//! The keys of a description's text.

ghost use Rattle.std.specs.Prelude.{◌≡◌};

/// A key of a description, in the order in which keys are judged. `Unknown` is every other.
#[derive(Clone, Copy)]
pub enum Key {
    Vm,
    Shared,
    Buffers,
    Devices,
    Turns,
    Quantum,
    Handler,
    HandlerName,
    HandlerKind,
    HandlerContexts,
    HandlerPeriod,
    Function,
    FunctionName,
    FunctionKind,
    FunctionArgs,
    FunctionDevice,
    FunctionLatency,
    TrickleImin,
    TrickleDoublings,
    TrickleK,
    RadioDelay,
    RadioGap,
    Unknown,
}

impl Key {
    ghost use Rattle.vm_shape.specs.Keys.{word_of};

    /// The key as a text names it, with the table that it is in.
    pub fn word(self) -> &'static str
        ensures { result.now ≡ word_of self }
    {
        match self {
            Key::Vm => "vm",
            Key::Shared => "shared",
            Key::Buffers => "buffers",
            Key::Devices => "devices",
            Key::Turns => "turns",
            Key::Quantum => "quantum",
            Key::Handler => "handler",
            Key::HandlerName => "handler.name",
            Key::HandlerKind => "handler.kind",
            Key::HandlerContexts => "handler.contexts",
            Key::HandlerPeriod => "handler.period",
            Key::Function => "function",
            Key::FunctionName => "function.name",
            Key::FunctionKind => "function.kind",
            Key::FunctionArgs => "function.args",
            Key::FunctionDevice => "function.device",
            Key::FunctionLatency => "function.latency",
            Key::TrickleImin => "trickle.imin",
            Key::TrickleDoublings => "trickle.doublings",
            Key::TrickleK => "trickle.k",
            Key::RadioDelay => "radio.delay",
            Key::RadioGap => "radio.gap",
            Key::Unknown => "unknown",
        }
    }
}
