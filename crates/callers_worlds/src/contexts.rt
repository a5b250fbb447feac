//! The contexts of a node.

ghost use Rattle.std.specs.Prelude.{◌≡◌, ◌<◌, Some, IfOk, IsSome, IsSomeAnd, IsTrue, false, pos};
ghost use Rattle.mate_num.specs.declared.bounds.TheConstants.{CONTEXTS_MAX};
ghost use Rattle.mate_num.specs.Locks.{lock_uses};
ghost use Rattle.mate_num.specs.declared.resource.Resource.TheVariants.{Shared};
ghost use Rattle.mate_code.specs.Effect.{push};
ghost use Rattle.node_state.specs.At.{at};
ghost use Rattle.node_state.specs.Executing.{CanAnswer};
ghost use Rattle.node_state.specs.Programs.{held_at};
ghost use Rattle.node_state.specs.declared.seat.Seat.{Seat as Sitting};

use mate_num::{CONTEXTS_MAX, ContextId, LockSet, NoMemory, Resource, VarId};
use node_state::{Contexts, Handlers, Seat, answer};
use std::alloc::Global;

/// The value that comes is the one that is pushed.
pub fn an_answer_is_pushed(contexts: &mut Contexts, handlers: &Handlers, ctx: ContextId)
    requires { CanAnswer (held_at handlers.now.programs) contexts.old ctx }
    ensures { (before after : Sitting) → (at contexts.old ctx).seat ≡ Some before → (at contexts.new ctx).seat ≡ Some after
        → after.machine ≡ push (pos 7) before.machine }
{
    answer(contexts, handlers, ctx, 7);
}

pub fn a_finished_invocation_holds_no_locks(contexts: &mut Contexts, ctx: ContextId) -> bool
    requires small { ctx.0 < CONTEXTS_MAX }
    requires started { IsSome (at contexts.old ctx).holds }
    ensures { result ≡ false }
{
    contexts.finish(ctx);
    contexts.locks.is_started(ctx)
}

/// It waits for a set that writes a variable, and not for none.
pub fn a_posted_invocation_waits_for_its_locks(
    alloc: Global,
    seat: Seat,
) -> Result<Contexts, NoMemory>
    ensures { IfOk result (λ contexts. IsSomeAnd (at contexts (record { 0 = 3 })).waits
        (λ set. IsTrue ((lock_uses set).writes (Shared (record { 0 = 0 }))))) }
{
    let mut contexts = Contexts::new(alloc, CONTEXTS_MAX)?;
    let set = LockSet::empty().with_write(Resource::Shared(VarId(0)));
    contexts.post(ContextId(3), seat, set);
    Ok(contexts)
}
