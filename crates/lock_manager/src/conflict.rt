//! The number of claims that a set conflicts with, kept for each waiter and lowered at a release.

ghost use Rattle.std.specs.Prelude.{◌≡◌, ◌<◌, ℕ, ◌+◌, map, length, All, IsTrue};
ghost use Rattle.lock_manager.specs.Conflict.{conflict};
ghost use Rattle.lock_manager.specs.Claims.{against};
ghost use Rattle.lock_manager.specs.Counts.{claims_of, lowered};

use crate::claim::{Claim, Waiter};
use mate_num::LockSet;

/// Whether one of the two sets writes what the other reads or writes.
pub(crate) fn conflicts(set: &LockSet, other: &LockSet) -> bool
    ensures { result ≡ conflict set.now other.now }
{
    !set.compatible(other)
}

/// How many of the claims conflict with `set`.
pub(crate) fn count(set: &LockSet, claims: &[Claim]) -> usize
    ensures { result ≡ against set.now claims.now }
{
    claims.iter().filter(|c| conflicts(set, &c.set)).count()
}

/// How many of the waiters' claims conflict with `set`.
pub(crate) fn count_waiting(set: &LockSet, waiters: &[Waiter]) -> usize
    ensures { result ≡ against set.now (claims_of waiters.now) }
{
    waiters
        .iter()
        .filter(|w| conflicts(set, &w.claim.set))
        .count()
}

/// The waiter after a claim on `released` has gone from those ahead of it: one less if the two conflict.
fn without(waiter: Waiter, released: &LockSet) -> Waiter
    requires { IsTrue (conflict waiter.claim.set released.now) → 0 < waiter.blocked }
    ensures { result ≡ lowered released.now waiter }
{
    if conflicts(&waiter.claim.set, released) {
        Waiter {
            claim: waiter.claim,
            blocked: waiter.blocked - 1,
        }
    } else {
        waiter
    }
}

/// A claim on `released` has gone from those ahead of all waiters.
pub(crate) fn lower(waiters: &mut [Waiter], released: &LockSet)
    requires { All (λ w. IsTrue (conflict w.claim.set released.now) → 0 < w.blocked) waiters.old }
    ensures { waiters.new ≡ map (lowered released.now) waiters.old }
{
    for waiter in waiters {
        *waiter = without(*waiter, released);
    }
}
