//! The locks of a node.

ghost use Rattle.std.specs.Prelude.{◌≡◌, ◌≢◌, [], ◌∷◌, Some, IfSome, IsSome, Contains, IsTrue, true, false};
ghost use Rattle.mate_num.specs.Uses.{IsCompatible};
ghost use Rattle.mate_num.specs.Locks.{lock_uses};
ghost use Rattle.mate_num.specs.declared.lock_set.LockSet.{LockSet as Claimed};
ghost use Rattle.mate_num.specs.declared.resource.Resource.TheVariants.{Shared};
ghost use Rattle.lock_manager.specs.Claims.{set_of};
ghost use Rattle.lock_manager.specs.Conflict.{conflict};
ghost use Rattle.lock_manager.specs.declared.claim.Claim.{Claim};

use lock_manager::Locks;
use mate_num::{ContextId, LockSet, Resource, VarId};

pub fn a_cleared_waiter_is_gone() -> bool
    ensures { result ≡ false }
{
    let mut locks = Locks::new();
    locks.enqueue(ContextId(3), LockSet::empty());
    locks.clear();
    locks.is_waiting(ContextId(3))
}

/// The set that writes the first shared variable.
fn first_variable() -> LockSet
    ensures { IsTrue ((lock_uses result).writes (Shared (record { 0 = 0 }))) }
{
    LockSet::empty().with_write(Resource::Shared(VarId(0)))
}

/// Equal sets conflict if they write, and a waiter comes after those that wait already.
pub fn a_writer_waits_for_another() -> Option<u8>
    ensures { result ≡ Some 1 }
{
    let set = first_variable();
    let mut locks = Locks::new();
    locks.enqueue(ContextId(3), set);
    locks.enqueue(ContextId(5), set);
    locks.blocked(ContextId(5))
}

/// A waiter isn't started if one started context conflicts with it.
pub fn what_is_started_conflicts_with_nothing_started(locks: &mut Locks) -> Option<ContextId>
    ensures { IfSome result (λ ctx. (set : Claimed) (other : Claim) → set_of locks.new.started ctx ≡ Some set
        → Contains locks.old.started other → IsCompatible (lock_uses set) (lock_uses other.set)) }
{
    locks.grant()
}

/// A release doesn't free a waiter from its conflict with another started context.
pub fn a_conflict_outlasts_anothers_release(
    locks: &mut Locks,
    gone: ContextId,
    waiter: ContextId,
) -> Option<u8>
    requires { IsSome (set_of locks.old.started gone) }
    ensures { (first second third : Claim) → locks.old.started ≡ first ∷ second ∷ [] → locks.old.waiting ≡ third ∷ []
        → first.ctx.0 ≡ gone.0 → second.ctx.0 ≢ gone.0
        → third.ctx.0 ≡ waiter.0 → conflict third.set second.set ≡ true → result ≡ Some 1 }
{
    locks.release(gone);
    locks.blocked(waiter)
}
