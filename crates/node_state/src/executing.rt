//! The invocation in a context: its number, and the answer that it takes.

ghost use Rattle.std.specs.Prelude.{◌≡◌, ◌<◌, IsSome};
ghost use Rattle.mate_num.specs.declared.bounds.TheConstants.{CONTEXTS_MAX};
ghost use Rattle.node_state.specs.At.{at as at_context, IsPlaced};
ghost use Rattle.node_state.specs.Programs.{held_at};
ghost use Rattle.node_state.specs.Executing.{CanAnswer, IsAnswered};

use crate::contexts::Contexts;
use crate::handlers::Handlers;
use exec_unit::resume;
use mate_num::ContextId;

/// The number of the invocation in the context.
pub fn number(contexts: &Contexts, ctx: ContextId) -> u32
    requires small { ctx.0 < CONTEXTS_MAX }
    requires taken { IsSome (at_context contexts.now ctx).seat }
    ensures { IsPlaced (at_context contexts.now ctx) result }
{
    let Some(seat) = contexts.seat(ctx) else {
        unreachable!()
    };
    seat.inv
}

/// Gives the waiting invocation in the context the answer to its call: it is ready, and has its turn after all others.
pub fn answer(contexts: &mut Contexts, handlers: &Handlers, ctx: ContextId, value: i16)
    requires { CanAnswer (held_at handlers.now.programs) contexts.old ctx }
    ensures { IsAnswered contexts.old contexts.new ctx value }
{
    let place = usize::from(ctx.0);
    let seat = contexts.seats.at_mut(place);
    let Some(held) = handlers.get(seat.handler) else {
        unreachable!()
    };
    resume(&held.code, &mut seat.machine, value);
    let _ = contexts.pending.answer(ctx);
    contexts.ring.ready(ctx);
}
