//! Answers to the calls of invocations that wait.

ghost use Rattle.std.specs.Prelude.{◌≡◌, ◌<◌, ◌≤◌, MatchResult};
ghost use Rattle.mate_num.specs.declared.bounds.TheConstants.{CONTEXTS_MAX};
ghost use Rattle.mate_journal.specs.NodeScript.{AnswersCall};
ghost use Rattle.node_state.specs.Keeps.{reading, IsTimely};
ghost use Rattle.node_state.specs.Starting.{Rests};
ghost use Rattle.node_calls.specs.Calls.{RestsAgain, NobodyWaits};

use mate_journal::Entry;
use mate_num::{ContextId, Stamp};
use node_state::{Parts, answer, number, tell};
use split_phase::NotWaiting;
use vm_shape::Description;

/// Gives the invocation that waits in the context the answer to its call: it is ready, behind all others. `NotWaiting`
/// comes exactly if none waits there, and then nothing changes.
pub fn answer_in(
    description: &Description,
    parts: &mut Parts,
    ctx: ContextId,
    value: i16,
    at: Stamp,
) -> Result<(), NotWaiting>
    requires rests { Rests description.now parts.old }
    requires timely { IsTimely at parts.old.log.all }
    requires room { 1 ≤ parts.old.log.all.spare }
    requires context { ctx.0 < CONTEXTS_MAX }
    ensures answers { MatchResult result
        (λ _. RestsAgain description.now parts.old parts.new at (AnswersCall (reading description.now parts.old.log.all) ctx value))
        (λ _. NobodyWaits (reading description.now parts.old.log.all) ctx × (parts.new ≡ parts.old)) }
    ensures gone { parts.new.log.gone ≡ parts.old.log.gone }
    ensures handlers { parts.new.handlers ≡ parts.old.handlers }
{
    let _description = description;
    let Some(_) = parts.contexts.asked(ctx) else {
        return Err(NotWaiting);
    };
    answer(&mut parts.contexts, &parts.handlers, ctx, value);
    let inv = number(&parts.contexts, ctx);
    tell(&mut parts.log, at, Entry::Answer { inv, value });
    Ok(())
}
