//! The contexts of a node: the invocation in each, the locks that it waits for or holds, whether it is ready,
//! and the call whose answer it waits for.

ghost use Rattle.std.specs.Prelude.{◌≡◌, ℕ, ◌<◌, ◌≤◌, ◌++◌, ◌∷◌, [], length, Some, None, IfOk, MatchBool, MatchOption, IsSome, IfSome, slice_get, true};
ghost use Rattle.std.specs.Option.{option_copied};
ghost use Rattle.mate_num.specs.declared.id.ContextId.{ContextId as Context};
ghost use Rattle.lock_manager.specs.Claims.{AreOnce, Enqueues, Grants, GrantsNone, Releases};
ghost use Rattle.context_sched.specs.Ready.{without, AreContexts};

use crate::seat::Seat;
use crate::seats::Seats;
use context_sched::Ring;
use lock_manager::Locks;
use mate_num::{CONTEXTS_MAX, ContextId, FunId, LockSet, NoMemory, Payload};
use split_phase::Pending;
use std::alloc::Global;

/// The contexts of a node.
#[derive(Drop)]
pub struct Contexts {
    pub seats: Seats,
    pub locks: Locks,
    pub ring: Ring,
    pub pending: Pending,
}

impl Contexts {
    ghost use Rattle.node_state.specs.At.{at, idle, queued, ready, waiting, seat_at, Becomes, AreIdle, CanStart, StartsContext, Asks, Ends};
    ghost use Rattle.node_state.specs.At.{GivesWay, IsAsking, IsNoneAsking};

    /// Contexts that are all idle, with a seat for each of this number of contexts. No other call takes memory.
    pub fn new(alloc: Global, count: usize) -> Result<Contexts, NoMemory>
        requires { count ≤ CONTEXTS_MAX }
        ensures idle { IfOk result AreIdle }
        ensures seats { IfOk result (λ contexts. length contexts.seats ≡ count) }
    {
        let ring = Ring::new(alloc)?;
        let seats = Seats::new(alloc, count)?;
        Ok(Contexts {
            seats,
            locks: Locks::new(),
            ring,
            pending: Pending::new(),
        })
    }

    /// Whether no invocation is in the context.
    pub fn is_idle(&self, ctx: ContextId) -> bool
        requires { ctx.0 < CONTEXTS_MAX }
        ensures { MatchBool result ((at self.now ctx).seat ≡ None) (IsSome (at self.now ctx).seat) }
    {
        self.seats.get(usize::from(ctx.0)).is_none()
    }

    /// The invocation in the context.
    pub fn seat(&self, ctx: ContextId) -> Option<&Seat>
        requires { ctx.0 < CONTEXTS_MAX }
        ensures { option_copied result ≡ (at self.now ctx).seat }
    {
        self.seats.get(usize::from(ctx.0))
    }

    /// Puts an invocation into the idle context. It waits for its locks.
    pub fn post(&mut self, ctx: ContextId, seat: Seat, set: LockSet)
        requires context { ctx.0 < CONTEXTS_MAX }
        requires seat { ctx.0 < length self.old.seats }
        requires free { at self.old ctx ≡ idle }
        ensures becomes { Becomes self.old self.new ctx (queued seat set) }
        ensures locks { Enqueues self.old.locks self.new.locks ctx set }
        ensures ring { self.new.ring ≡ self.old.ring }
    {
        self.seats.put(usize::from(ctx.0), seat);
        self.locks.enqueue(ctx, set);
    }

    /// Gives the first invocation that nothing holds back its locks: it is ready, and its context is the answer. None
    /// exactly if each is held back.
    pub fn grant(&mut self) -> Option<ContextId>
        requires { CanStart self.old }
        ensures granted { MatchOption result (GrantsNone self.old.locks self.new.locks × (self.new ≡ self.old))
            (StartsContext self.old self.new) }
        ensures small { IfSome result (λ ctx. ctx.0 < CONTEXTS_MAX) }
        ensures once { AreOnce (self.old.locks.started ++ self.old.locks.waiting) }
    {
        let ctx = self.locks.grant()?;
        self.ring.ready(ctx);
        Some(ctx)
    }

    /// The ready invocation in the context waits for the answer to a call from now on.
    pub fn ask(&mut self, ctx: ContextId, fun: FunId, args: Payload)
        requires context { ctx.0 < CONTEXTS_MAX }
        requires free { (at self.old ctx).call ≡ None }
        ensures { Asks self.old self.new ctx (fun, args) }
    {
        self.pending.ask(ctx, fun, args);
        self.ring.remove(ctx);
    }

    /// The function that the invocation in the context called and a copy of the arguments; None exactly if it doesn't
    /// wait for an answer.
    pub fn asked(&self, ctx: ContextId) -> Option<(FunId, Payload)>
        requires { ctx.0 < CONTEXTS_MAX }
        ensures { result ≡ (at self.now ctx).call }
    {
        self.pending.asked(ctx)
    }

    /// Takes the ready invocation, which is over, from its context: the context is idle.
    pub fn finish(&mut self, ctx: ContextId)
        requires context { ctx.0 < CONTEXTS_MAX }
        requires started { IsSome (at self.old ctx).holds }
        ensures { Ends self.old self.new ctx }
    {
        let _ = self.seats.take(usize::from(ctx.0));
        self.locks.release(ctx);
        self.ring.remove(ctx);
    }

    /// Whether the invocation in the context is ready.
    pub fn is_ready(&self, ctx: ContextId) -> bool
        ensures { result ≡ (at self.now ctx).ready }
    {
        self.ring.contains(ctx)
    }

    /// The lowest context whose invocation waits for the answer to a call; None exactly if none does.
    pub fn first_waiting(&self) -> Option<ContextId>
        ensures { MatchOption result (IsNoneAsking self.now) (IsAsking self.now) }
    {
        let _places = self.seats.len();
        for place in 0..CONTEXTS_MAX as u8 {
            if self.asked(ContextId(place)).is_some() {
                return Some(ContextId(place));
            }
        }
        None
    }

    /// The ready context that has the next turn; None exactly if none is ready.
    pub fn first_ready(&self) -> Option<ContextId>
        ensures first { result ≡ slice_get self.now.ring 0 }
        ensures small { IfSome result (λ ctx. ctx.0 < CONTEXTS_MAX) }
        ensures contexts { AreContexts self.now.ring }
    {
        let _len = self.ring.len();
        self.ring.first()
    }

    /// Puts the ready context behind all others: it has its next turn after theirs.
    pub fn give_way(&mut self, last: ContextId)
        requires small { last.0 < CONTEXTS_MAX }
        requires ready { (at self.old last).ready ≡ true }
        ensures { GivesWay self.old self.new last }
    {
        // (one that is ready alone is behind all others)
        if self.ring.len() > 1 {
            self.ring.remove(last);
            self.ring.ready(last);
        }
    }

    /// Makes all contexts idle.
    pub fn clear(&mut self)
        ensures idle { AreIdle self.new }
        ensures seats { length self.new.seats ≡ length self.old.seats }
    {
        self.seats.clear();
        self.locks.clear();
        self.ring.clear();
        self.pending.cancel();
    }
}
