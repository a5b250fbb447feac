//! The functions that a machine's scripts call.

ghost use Rattle.std.specs.Prelude.{◌≡◌};

use mate_num::{DeviceId, Name};

/// What a function does.
#[derive(Clone, Copy, Default)]
pub enum FunKind {
    /// Reads a sensor.
    Sense,
    /// Drives an actuator with `args` values, from 0 to 4.
    Act { args: u8 },
    /// Sends a buffer by radio.
    Send,
    /// Gives the node's number.
    #[default]
    Id,
    /// Gives a random number.
    Rand,
    /// Gives the time.
    Clock,
}

/// A function of the machine. A call of it waits for its answer.
#[derive(Default, Drop)]
pub struct Function {
    pub name: Name,
    pub kind: FunKind,
    /// The device that it uses, which one invocation holds at a time.
    pub device: Option<DeviceId>,
    /// The time from a call to its answer in a simulated world, in ms: 1 to 60,000.
    pub latency: u32,
}

impl Function {
    /// A copy of the function. It takes no memory.
    pub fn copy(&self) -> Function
        ensures { result ≡ self.now }
    {
        Function {
            name: self.name.copy(),
            kind: self.kind,
            device: self.device,
            latency: self.latency,
        }
    }
}
