//! Where a live invocation stands.

ghost use Rattle.std.specs.Prelude.{◌≡◌};
ghost use Rattle.audit_rules.specs.Views.{stands_at};

use mate_num::{FunId, Payload, copy_of};

/// Where a live invocation stands.
#[derive(Drop)]
pub enum Phase {
    /// It waits for its locks.
    Queued,
    /// It can run.
    Ready,
    /// It waits for the answer to a call.
    Waiting { fun: FunId, args: Payload },
}

/// Where an invocation stands, without the call that it waits for.
#[derive(Clone, Copy)]
pub enum Stage {
    Queued,
    Ready,
    Waiting,
}

impl Phase {
    /// The same again. It takes no memory.
    pub fn copy(&self) -> Phase
        ensures { result ≡ self.now }
    {
        match self {
            Phase::Queued => Phase::Queued,
            Phase::Ready => Phase::Ready,
            Phase::Waiting { fun, args } => Phase::Waiting {
                fun: *fun,
                args: copy_of(args),
            },
        }
    }

    pub fn is(&self, stage: Stage) -> bool
        ensures { result ≡ stands_at stage self.now }
    {
        match (self, stage) {
            (Phase::Queued, Stage::Queued) => true,
            (Phase::Ready, Stage::Ready) => true,
            (Phase::Waiting { .. }, Stage::Waiting) => true,
            _ => false,
        }
    }
}
