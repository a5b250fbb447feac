//! How a step of a machine ends.

ghost use Rattle.std.specs.Prelude.{◌≡◌};
ghost use Rattle.exec_unit.specs.Follows.{step_end};

use mate_num::{BufId, FaultKind, FunId, Payload};

/// How a step ended.
#[derive(Drop)]
pub enum StepEnd {
    /// The machine goes on at its next instruction.
    Next,
    /// It calls `fun` with `args`, and waits for the answer.
    Ask { fun: FunId, args: Payload },
    /// It ran to its end.
    Halt,
    /// It was stopped.
    Fault(FaultKind),
}

/// How an instruction ended that calls no function.
#[derive(Clone, Copy)]
pub enum PlainEnd {
    Next,
    Halt,
    Fault(FaultKind),
}

/// What an instruction came to: it was done; or it calls a function, with values of the stack or of a buffer, and
/// nothing was done yet. It holds no arguments, so that a loop over instructions writes nothing for it.
#[derive(Clone, Copy)]
pub enum Act {
    Done(PlainEnd),
    Asks(FunId),
    Sends(FunId, BufId),
}

impl PlainEnd {
    pub(crate) fn step_end(self) -> StepEnd
        ensures { result ≡ step_end self }
    {
        match self {
            PlainEnd::Next => StepEnd::Next,
            PlainEnd::Halt => StepEnd::Halt,
            PlainEnd::Fault(kind) => StepEnd::Fault(kind),
        }
    }
}
