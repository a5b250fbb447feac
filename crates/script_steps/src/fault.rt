//! Why a script is refused.

/// What is wrong with a line.
#[derive(Clone, Copy)]
pub enum Cause {
    /// An unknown, a missing or an extra word, or a byte that is neither a blank nor printable ASCII.
    Word,
    /// A word that isn't a number or, for noise, an even number of hexadecimal digits.
    Number,
    /// A number, a value, a context, a link or a length of noise that is out of its range.
    Range,
    /// A time before that of the line before.
    TimeBack,
    /// A version that isn't newer than all earlier ones of its handler.
    OldVersion,
    /// No handler or no function of the machine has this name.
    Name,
    /// A number that is no node's.
    Node,
    /// Noise whose bytes are a packet of the machine.
    Packet,
}

/// Why bytes are no script for the machine.
#[derive(Clone, Copy)]
pub enum ScriptFault {
    /// The first line that is refused, counted from 1, and the first cause in it from left to right.
    BadLine { line: u32, cause: Cause },
    NoMemory,
}

impl From<mate_num::NoMemory> for ScriptFault {
    ghost use Rattle.std.specs.Prelude.{◌≡◌};
    ghost use Rattle.script_steps.specs.declared.fault.ScriptFault.TheVariants.{NoMemory};

    ghost from_gives = { λ _ fault. fault ≡ NoMemory };

    fn from(_error: mate_num::NoMemory) -> ScriptFault {
        ScriptFault::NoMemory
    }
}
