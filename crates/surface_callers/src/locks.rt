//! Lock sets, and who holds them: locks are taken all together, contexts take turns, and a call waits for its answer.

ghost use Rattle.std.specs.Prelude.{◌≡◌, ◌<◌, ◌≤◌, None, IsTrue, IsNone, IsSome, false};
ghost use Rattle.mate_num.specs.declared.bounds.TheConstants.{CONTEXTS_MAX};
ghost use Rattle.mate_num.specs.Locks.{is_resource};
ghost use Rattle.lock_manager.specs.Claims.{set_of};
ghost use Rattle.context_sched.specs.Ready.{holds};
ghost use Rattle.split_phase.specs.Calls.{call_at};

use context_sched::Ring;
use lock_manager::Locks;
use mate_num::{ContextId, FunId, LockSet, NoMemory, Payload, Resource};
use split_phase::{NotWaiting, Pending};
use std::alloc::Global;

/// A set that reads one resource and writes another, and whether it may run beside a second set.
pub fn may_run_beside(reads: Resource, writes: Resource, other: &LockSet) -> bool
    requires reads { IsTrue (is_resource reads) }
    requires writes { IsTrue (is_resource writes) }
{
    let set = LockSet::empty().with_read(reads).with_write(writes);
    set.reads(reads) && set.writes(writes) && set.compatible(other)
}

/// Who is granted its locks next, once this context waits too.
pub fn granted_next(locks: &mut Locks, ctx: ContextId, set: LockSet) -> Option<ContextId>
    requires context { ctx.0 < CONTEXTS_MAX }
    requires not_waiting { IsNone (set_of locks.old.waiting ctx) }
    requires not_started { IsNone (set_of locks.old.started ctx) }
{
    locks.enqueue(ctx, set);
    let _conflicts: Option<u8> = locks.blocked(ctx);
    locks.grant()
}

/// A context gives its locks back.
pub fn given_back(locks: &mut Locks, ctx: ContextId)
    requires { IsSome (set_of locks.old.started ctx) }
{
    locks.release(ctx);
}

/// No context waits or holds.
pub fn nobody(locks: &mut Locks) -> Locks {
    locks.clear();
    Locks::new()
}

/// The context whose turn is next in a new ring that has this one alone.
pub fn turn_of(alloc: Global, ctx: ContextId) -> Result<Option<ContextId>, NoMemory>
    requires { ctx.0 < CONTEXTS_MAX }
{
    let mut ring = Ring::new(alloc)?;
    ring.ready(ctx);
    let next = ring.next();
    ring.remove(ctx);
    ring.clear();
    Ok(next)
}

/// A call that is asked, seen and answered.
pub fn asked_and_answered(ctx: ContextId, fun: FunId, args: Payload) -> Result<FunId, NotWaiting>
    requires { ctx.0 < CONTEXTS_MAX }
{
    let mut pending = Pending::new();
    pending.ask(ctx, fun, args);
    let _asked: Option<(FunId, Payload)> = pending.asked(ctx);
    let answered = pending.answer(ctx);
    pending.cancel();
    answered
}
