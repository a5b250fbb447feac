//! What an invocation does between two of its records.

use mate_num::{ContextId, FaultKind, FunId, HandlerId, LockSet, Stamp};

/// What an invocation is doing.
#[derive(Clone, Copy)]
pub enum Phase {
    /// It was posted, and waits for its locks.
    Waiting,
    /// It has its locks, and waits for no answer.
    Running,
    /// It waits for the answer of this function.
    Asking(FunId),
}

/// An older invocation of the same node, one of whose locks keeps another from its start.
#[derive(Clone, Copy)]
pub struct Blocker {
    pub inv: u32,
    pub handler: HandlerId,
    /// Its locks.
    pub locks: LockSet,
}

/// An invocation that hasn't ended, and since when it does what it is doing.
#[derive(Clone, Copy)]
pub struct Live {
    pub inv: u32,
    pub handler: HandlerId,
    pub ctx: ContextId,
    pub phase: Phase,
    pub since: Stamp,
    /// What its program locks.
    pub locks: LockSet,
    /// The oldest of those that kept it from its start when it was posted.
    pub blocker: Option<Blocker>,
}

/// What ended a stretch.
#[derive(Clone, Copy)]
pub enum StretchEnd {
    /// The invocation was granted its locks, or it called a function.
    Next,
    /// A call was answered by this value.
    Answered(i16),
    /// The invocation halted.
    Halted,
    /// The invocation was stopped.
    Faulted(FaultKind),
    /// An install or a reset cut the invocation.
    Cut,
    /// The report ended first.
    Open,
    /// It isn't known, as nothing was followed behind.
    Unseen,
}

/// What an invocation did without a break.
#[derive(Clone, Copy)]
pub struct Stretch {
    pub node: u8,
    pub live: Live,
    pub to: Stamp,
    pub end: StretchEnd,
}

impl Stretch {
    /// How long it took, in ms.
    pub fn ms(&self) -> u64 {
        u64::from(self.to.time.saturating_sub(self.live.since.time))
    }

    /// How many events came from its first to its last one.
    pub fn events(&self) -> u64 {
        self.to.event.saturating_sub(self.live.since.event)
    }
}
