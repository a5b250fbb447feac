//! The place of a context or a free waiter in a list.

ghost use Rattle.std.specs.Prelude.{◌≡◌, ◌==◌, position};
ghost use Rattle.lock_manager.specs.Claims.{is_of};
ghost use Rattle.lock_manager.specs.Counts.{waiting_number as number_in};

use crate::claim::{Claim, Waiter};
use mate_num::ContextId;

/// The place of the claim of `ctx`; None if it has none.
pub(crate) fn place_of(claims: &[Claim], ctx: ContextId) -> Option<usize>
    ensures { result ≡ position (is_of ctx) claims.now }
{
    claims.iter().position(|c| c.ctx.0 == ctx.0)
}

/// The place of the first waiter that conflicts with nothing ahead of it.
pub(crate) fn first_free(waiters: &[Waiter]) -> Option<usize>
    ensures { result ≡ position (λ w. w.blocked == 0) waiters.now }
{
    waiters.iter().position(|w| w.blocked == 0)
}

/// The number that is kept for the waiter `ctx`; None if it doesn't wait.
pub(crate) fn number_of(waiters: &[Waiter], ctx: ContextId) -> Option<u8>
    ensures { result ≡ number_in waiters.now ctx }
{
    waiters
        .iter()
        .find(|w| w.claim.ctx.0 == ctx.0)
        .map(|w| w.blocked)
}
