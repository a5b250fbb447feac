//! What can go on at a node.

use mate_num::{ContextId, FunId, Payload};

/// What can go on.
#[derive(Clone, Copy)]
pub enum Standing {
    /// The invocation in the context is ready to run.
    Can(ContextId),
    /// None is ready, and the one in the context waits for an answer from outside.
    Outside(ContextId),
    /// No invocation is live.
    Idle,
}

/// The call whose answer an invocation waits for.
#[derive(Drop)]
pub struct Asked {
    pub inv: u32,
    pub fun: FunId,
    pub args: Payload,
}

/// No ready invocation is in the context.
#[derive(Clone, Copy)]
pub struct NotReady;
