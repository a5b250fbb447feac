//! The run of a whole script.

ghost use Rattle.std.specs.Prelude.{◌≡◌, IfOk};
ghost use Rattle.ts_checked.specs.Checked.{checked_shape, checked_tree};
ghost use Rattle.ts_semantics.specs.Meaning.{run_of};
ghost use Rattle.ts_semantics.specs.Uses.{IsSameOutside, script_uses};

use crate::evaluator::{Evaluator, Stop};
use mate_num::{End, NoMemory, Outcome, Payload, Store};
use std::alloc::Global;
use ts_checked::Checked;

/// What a run leaves: its end, its store, and its calls in their order.
pub type Played = Outcome;

/// Runs `script` on `store`, with the message `msg`, with `answers` to its calls in their order, and with `turns`
/// turns: how often its loops may go back. `NoMemory` comes only if memory for the list of calls is refused.
pub fn play(
    alloc: Global,
    script: &Checked,
    store: &Store,
    msg: &Payload,
    answers: &[i16],
    turns: u32,
) -> Result<Played, NoMemory>
    ensures gives { let run = run_of (checked_tree script.now) store.now msg.now answers.now turns in
        IfOk result (λ outcome. outcome ≡ run) }

    // What the script doesn't write stays as it was.
    ensures outside { let uses = script_uses (checked_shape script.now) (checked_tree script.now) in
        IfOk result (λ outcome. IsSameOutside uses.writes store.now outcome.store) }
{
    let mut evaluator = Evaluator::new(alloc, store.copy(), msg, answers, turns);
    match evaluator.block(script.body()) {
        Ok(()) => Ok(evaluator.outcome(End::Halt)),
        Err(Stop::Ended(end)) => Ok(evaluator.outcome(end)),
        Err(Stop::OutOfMemory) => Err(NoMemory),
    }
}
