//! Why code is refused.

/// The first refusal of some code. A `place` is the offset of the instruction's opcode, in bytes.
#[derive(Clone, Copy)]
pub enum VerifyFault {
    /// No instruction can be read there.
    Decode { place: u32 },
    /// A jump whose target isn't an instruction's start.
    BadTarget { place: u32 },
    /// A `Jz` or `Jmp` whose target doesn't lie forward, or a `Back` whose target does.
    BackJump { place: u32 },
    /// The stack has too few operands.
    Underflow { place: u32 },
    /// The stack would hold more than `STACK_MAX` values.
    Overflow { place: u32 },
    /// Two depths of the stack are given to the place; or a `Back`'s depth isn't that of its target.
    DepthDiffers { place: u32 },
    /// A shared variable or a buffer that the machine doesn't have, or a private variable above 7.
    BadIndex { place: u32 },
    /// The code is empty, or its last instruction isn't `Halt`.
    NoHalt,
    /// There are more than `CODE_MAX` bytes.
    TooLong { len: usize },
}
