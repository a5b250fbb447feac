//! Turns, one after another.

ghost use Rattle.std.specs.Prelude.{◌≡◌, ◌<◌, ◌≤◌, ◌+◌, true};
ghost use Rattle.mate_num.specs.declared.bounds.TheConstants.{CONTEXTS_MAX};
ghost use Rattle.node_state.specs.At.{at as at_context};
ghost use Rattle.node_state.specs.Keeps.{IsTimely};
ghost use Rattle.node_state.specs.Totals.{owes, starts_left};
ghost use Rattle.node_state.specs.Starting.{Rests};
ghost use Rattle.node_calls.specs.Pacing.{TakesTurn, AreQuanta, SettlesAll};

use crate::running::run_some;
use exec_unit::{Ran, StepEnd};
use mate_journal::Entry;
use mate_num::{ContextId, Stamp, copy_of};
use node_state::{Parts, number, start_all, tell};
use vm_shape::Description;

/// The ready invocation in the context has a turn of n instructions. If it calls a function or ends, that is recorded; if it
/// ends, those that it held back start. Answers how many instructions it executed.
pub fn take_turn(
    description: &Description,
    parts: &mut Parts,
    at: Stamp,
    ctx: ContextId,
    n: u32,
) -> u32
    requires rests { Rests description.now parts.old }
    requires timely { IsTimely at parts.old.log.all }
    requires room { starts_left parts.old.contexts + 1 ≤ parts.old.log.all.spare }
    requires small { ctx.0 < CONTEXTS_MAX }
    requires ready { (at_context parts.old.contexts ctx).ready ≡ true }
    requires some { 0 < n }
    ensures turn { TakesTurn description.now parts.old parts.new at ctx n result }
    ensures gone { parts.new.log.gone ≡ parts.old.log.gone }
    ensures handlers { parts.new.handlers ≡ parts.old.handlers }
{
    let inv = number(&parts.contexts, ctx);
    let Ran { instructions, how } = run_some(description, parts, ctx, n);
    match how {
        StepEnd::Next => {}
        StepEnd::Ask { fun, args } => {
            let told = copy_of(&args);
            parts.contexts.ask(ctx, fun, args);
            tell(
                &mut parts.log,
                at,
                Entry::Ask {
                    inv,
                    fun,
                    args: told,
                },
            );
        }
        StepEnd::Halt => {
            parts.contexts.finish(ctx);
            tell(&mut parts.log, at, Entry::Halt { inv });
            start_all(description, parts, at);
        }
        StepEnd::Fault(kind) => {
            parts.contexts.finish(ctx);
            tell(&mut parts.log, at, Entry::Fault { inv, kind });
            start_all(description, parts, at);
        }
    }
    instructions
}

/// How many instructions the first of this number of ready invocations executes at once: a quantum, or if no other is
/// ready, as many quanta as a number holds. Turns of one invocation, one after another, are one longer turn.
fn length_of_turn(quantum: u32, ready: usize) -> u32
    requires { 0 < quantum }
    ensures { AreQuanta quantum ready result }
{
    if ready == 1 {
        u32::MAX / quantum * quantum
    } else {
        quantum
    }
}

/// Turns follow one another until no invocation is ready.
pub fn settle(description: &Description, parts: &mut Parts, at: Stamp)
    requires rests { Rests description.now parts.old }
    requires timely { IsTimely at parts.old.log.all }
    requires room { owes parts.old.contexts ≤ parts.old.log.all.spare }
    requires quantum { 0 < description.now.quantum }
    ensures settles { SettlesAll description.now parts.old parts.new at }
    ensures gone { parts.new.log.gone ≡ parts.old.log.gone }
    ensures handlers { parts.new.handlers ≡ parts.old.handlers }
{
    while let Some(ctx) = parts.contexts.first_ready() {
        let n = length_of_turn(description.quantum, parts.contexts.ring.len());
        parts.contexts.give_way(ctx);
        let _ = take_turn(description, parts, at, ctx, n);
    }
}
