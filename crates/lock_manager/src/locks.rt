//! The lists of waiters and of started contexts, and the rule by which a waiter is started.

ghost use Rattle.std.specs.Prelude.{◌≡◌, ◌<◌, ◌++◌, IsSome, IsNone, MatchOption, is_some};
ghost use Rattle.lock_manager.specs.Claims.{AreOnce, no_claims, set_of, blocked_of, Enqueues, Grants, GrantsNone, Releases};

use crate::claim::{Claim, Waiter};
use crate::conflict::{count, count_waiting, lower};
use crate::search::{first_free, number_of, place_of};
use arrayvec::ArrayVec;
use mate_num::{CONTEXTS_MAX, ContextId, LockSet};
use std::marker::Model;

/// The locks of a node. Each lock is held by one writer or by any number of readers, and a context takes all
/// that it needs at once. Contracts see the waiters' claims, in the order in which they came, and the claims of
/// the started contexts.
#[derive(Drop)]
pub struct Locks {
    waiting: ArrayVec<Waiter, CONTEXTS_MAX>,
    started: ArrayVec<Claim, CONTEXTS_MAX>,
}

impl Model for Locks {
    ghost use Rattle.lock_manager.specs.Claims.{Claims};
    ghost use Rattle.lock_manager.specs.Counts.{claims_of, AreLocks};

    ghost Value = { Claims };

    ghost view = { λ l. record { waiting = claims_of l.waiting.items; started = l.started.items } };

    ghost invariant = { λ l. AreLocks l.waiting.items l.started.items };
}

impl Locks {
    /// No context waits, and none is started.
    pub fn new() -> Locks
        ensures { result ≡ no_claims }
    {
        Locks {
            waiting: ArrayVec::new(),
            started: ArrayVec::new(),
        }
    }

    /// Whether `ctx` waits.
    pub fn is_waiting(&self, ctx: ContextId) -> bool
        ensures { result ≡ is_some (set_of self.now.waiting ctx) }
    {
        self.blocked(ctx).is_some()
    }

    /// Whether `ctx` is started.
    pub fn is_started(&self, ctx: ContextId) -> bool
        ensures { result ≡ is_some (set_of self.now.started ctx) }
    {
        place_of(self.started.as_slice(), ctx).is_some()
    }

    /// The number of started contexts and earlier waiters that `ctx` conflicts with; None exactly if it doesn't wait.
    pub fn blocked(&self, ctx: ContextId) -> Option<u8>
        ensures number { result ≡ blocked_of self.now.started self.now.waiting ctx }
        ensures contexts { AreOnce (self.now.started ++ self.now.waiting) }
    {
        number_of(self.waiting.as_slice(), ctx)
    }

    /// `ctx` waits for `set`, after all that wait.
    pub fn enqueue(&mut self, ctx: ContextId, set: LockSet)
        requires context { ctx.0 < CONTEXTS_MAX }
        requires not_waiting { IsNone (set_of self.old.waiting ctx) }
        requires not_started { IsNone (set_of self.old.started ctx) }
        ensures { Enqueues self.old self.new ctx set }
    {
        let blocked = count(&set, self.started.as_slice())
            + count_waiting(&set, self.waiting.as_slice());
        self.waiting.push(Waiter {
            claim: Claim { ctx, set },
            blocked: blocked as u8,
        });
    }

    /// Starts the first waiter that conflicts neither with a started context nor with an earlier waiter. None comes
    /// exactly if there is no such waiter.
    pub fn grant(&mut self) -> Option<ContextId>
        ensures granted { MatchOption result (GrantsNone self.old self.new) (Grants self.old self.new) }
        ensures contexts { AreOnce (self.old.started ++ self.old.waiting) }
    {
        let place = first_free(self.waiting.as_slice())?;
        // (the claim is read by its parts, before the waiter is moved out as a whole)
        let Claim { ctx, set } = self.waiting.as_slice()[place].claim;
        let _ = self.waiting.remove(place);
        self.started.push(Claim { ctx, set });
        Some(ctx)
    }

    /// `ctx` gives back all its locks, and is no longer started.
    pub fn release(&mut self, ctx: ContextId)
        requires { IsSome (set_of self.old.started ctx) }
        ensures { Releases self.old self.new ctx }
    {
        let Some(place) = place_of(self.started.as_slice(), ctx) else {
            unreachable!()
        };
        let released = self.started.as_slice()[place].set;
        let _ = self.started.remove(place);
        lower(self.waiting.as_mut_slice(), &released);
    }

    /// No context waits any more, and none is started.
    pub fn clear(&mut self)
        ensures { self.new ≡ no_claims }
    {
        self.waiting.clear();
        self.started.clear();
    }
}
