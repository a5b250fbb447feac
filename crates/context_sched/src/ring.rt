//! The ring of ready contexts: the first has the next turn, and one that becomes ready goes last.

ghost use Rattle.std.specs.Prelude.{◌≡◌, ◌<◌, ◌≤◌, ◌↔◌, [], ◌∷◌, ◌++◌, true, false, length, slice_get, IsTrue, MatchOption, IfOk, IfSome};
ghost use Rattle.context_sched.specs.Ready.{holds, without, AreContexts, Changes};

use circular_buffer::HeapCircularBuffer;
use mate_num::{CONTEXTS_MAX, ContextId, NoMemory};
use std::alloc::Global;
use std::marker::Model;

/// The ready contexts, none twice. Contracts see the list of them, the one with the next turn first.
pub struct Ring {
    ready: HeapCircularBuffer<ContextId>,
}

impl Drop for Ring {
    fn drop(self) {
        let Ring { ready: _ready } = self;
    }
}

impl Model for Ring {
    ghost use Rattle.std.specs.Prelude.{◌≡◌, List};
    ghost use Rattle.mate_num.specs.declared.id.ContextId.{ContextId};
    ghost use Rattle.mate_num.specs.declared.bounds.TheConstants.{CONTEXTS_MAX};
    ghost use Rattle.context_sched.specs.Ready.{AreContexts};

    ghost Value = { List ContextId };

    ghost view = { λ r. r.ready.items };

    ghost invariant = { λ r. AreContexts r.ready.items × (r.ready.capacity ≡ CONTEXTS_MAX) };
}

impl Ring {
    /// An empty ring, with room for all contexts that a node can have. No other call takes memory.
    pub fn new(alloc: Global) -> Result<Ring, NoMemory>
        ensures { IfOk result (λ ring. ring ≡ []) }
    {
        let ready = HeapCircularBuffer::with_capacity(alloc, CONTEXTS_MAX)?;
        Ok(Ring { ready })
    }

    /// How many contexts are ready: at most `CONTEXTS_MAX`.
    pub fn len(&self) -> usize
        ensures count { result ≡ length self.now }
        ensures room { result ≤ CONTEXTS_MAX }
        ensures contexts { AreContexts self.now }
    {
        self.ready.len()
    }

    pub fn is_empty(&self) -> bool
        ensures { IsTrue result ↔ (self.now ≡ []) }
    {
        self.ready.is_empty()
    }

    /// The context that has the next turn; None exactly if none is ready.
    pub fn first(&self) -> Option<ContextId>
        ensures { result ≡ slice_get self.now 0 }
    {
        self.ready.front().copied()
    }

    /// Whether `ctx` is ready.
    pub fn contains(&self, ctx: ContextId) -> bool
        ensures { result ≡ holds self.now ctx }
    {
        self.ready.iter().any(|c| ctx.0 == c.0)
    }

    /// Puts `ctx` last. It must not be ready yet.
    pub fn ready(&mut self, ctx: ContextId)
        requires context { ctx.0 < CONTEXTS_MAX }
        requires absent { holds self.old ctx ≡ false }
        ensures last { self.new ≡ self.old ++ ctx ∷ [] }
        ensures held { Changes self.old self.new ctx true }
    {
        let _ = self.ready.push_back(ctx);
    }

    /// Takes the first context; None exactly if none is ready.
    pub fn next(&mut self) -> Option<ContextId>
        ensures first { MatchOption result ((self.old ≡ []) × (self.new ≡ [])) (λ ctx. self.old ≡ ctx ∷ self.new) }
        ensures context { IfSome result (λ ctx. ctx.0 < CONTEXTS_MAX) }
        ensures held { IfSome result (λ ctx. IsTrue (holds self.old ctx) × Changes self.old self.new ctx false) }
    {
        self.ready.pop_front()
    }

    /// Takes `ctx` out, wherever it is; the others keep their order. Nothing changes if it isn't ready.
    pub fn remove(&mut self, ctx: ContextId)
        ensures rest { self.new ≡ without self.old ctx }
        ensures held { Changes self.old self.new ctx false }
    {
        for _ in 0..self.ready.len() {
            if let Some(first) = self.ready.pop_front() {
                if first.0 != ctx.0 {
                    let _ = self.ready.push_back(first);
                }
            }
        }
    }

    /// No context is ready any more.
    pub fn clear(&mut self)
        ensures { self.new ≡ [] }
    {
        self.ready.clear();
    }
}
