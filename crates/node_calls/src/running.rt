//! The instructions of a turn, and what holds of the node after them.

ghost use Rattle.std.specs.Prelude.{◌≡◌, ◌<◌, true};
ghost use Rattle.mate_num.specs.declared.bounds.TheConstants.{CONTEXTS_MAX};
ghost use Rattle.node_state.specs.At.{at};
ghost use Rattle.node_state.specs.Executing.{CanExecute, HasTurn};
ghost use Rattle.node_state.specs.Programs.{held_at};
ghost use Rattle.node_state.specs.Starting.{KeepsOrder};
ghost use Rattle.node_calls.specs.Pacing.{RunsFor};

use code_runs::run;
use exec_unit::Ran;
use mate_num::ContextId;
use node_heap::Heap;
use node_state::{Contexts, Handlers, Parts};
use vm_shape::Description;

/// Executes n instructions of the invocation in the context, or fewer if it calls a function or ends.
pub fn run_some(description: &Description, parts: &mut Parts, ctx: ContextId, n: u32) -> Ran
    requires order { KeepsOrder description.now parts.old }
    requires small { ctx.0 < CONTEXTS_MAX }
    requires ready { (at parts.old.contexts ctx).ready ≡ true }
    ensures runs { RunsFor description.now parts.old parts.new ctx n result }
    ensures log { parts.new.log ≡ parts.old.log }
    ensures handlers { parts.new.handlers ≡ parts.old.handlers }
{
    let _turns = description.turns;
    turn(
        &mut parts.contexts,
        &parts.handlers,
        &mut parts.heap,
        ctx,
        n,
    )
}

// The invocation in the context executes n instructions, or fewer if one of them calls a function or ends it.
fn turn(
    contexts: &mut Contexts,
    handlers: &Handlers,
    heap: &mut Heap,
    ctx: ContextId,
    n: u32,
) -> Ran
    requires { CanExecute (held_at handlers.now.programs) contexts.old heap.old ctx }
    ensures { HasTurn (held_at handlers.now.programs) contexts.old heap.old ctx n result contexts.new heap.new }
{
    let place = usize::from(ctx.0);
    let seat = contexts.seats.at_mut(place);
    let Some(held) = handlers.get(seat.handler) else {
        unreachable!()
    };
    let ran = run(&held.code, &mut seat.machine, heap, n);
    seat.count += u64::from(ran.instructions);
    ran
}
