//! What an invocation of a handler has of its own, in two parts: what nearly every instruction changes, and the rest.

ghost use Rattle.std.specs.Prelude.{◌≤◌};
ghost use Rattle.mate_num.specs.declared.bounds.TheConstants.{STACK_MAX};

use mate_num::{PRIVATES, Payload, STACK_MAX};

/// The place of the next instruction, how many values are on the stack, and the turns that are left.
///
/// A loop over instructions holds these apart from the arrays, so that the compiler keeps them in registers. The
/// depth is as wide as an index and the place isn't, since two of one width would be kept in one vector.
#[derive(Clone, Copy)]
pub struct Registers {
    pub place: u32,
    pub depth: usize,
    pub turns: u32,
    ghost fits: { depth ≤ STACK_MAX },
}

/// The stack, whose values are its first `depth` ones, the top last, the private variables, and the message.
#[derive(Drop)]
pub struct Memory {
    pub stack: [i16; STACK_MAX],
    pub privates: [i16; PRIVATES],
    pub msg: Payload,
}
