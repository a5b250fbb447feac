//! Answers to the calls that invocations wait with.

ghost use Rattle.std.specs.Prelude.{◌≡◌, ◌≤◌, ◌<◌, ◌+◌, ◌++◌, List, map, pos, IfOk, IsOk, OnOk};
ghost use Rattle.mate_num.specs.declared.bounds.TheConstants.{CONTEXTS_MAX};
ghost use Rattle.mate_journal.specs.Journal.{JournalEntry, journal_of};
ghost use Rattle.mate_journal.specs.Pace.{Pace};
ghost use Rattle.node_state.specs.Keeps.{IsTimely, event_at};
ghost use Rattle.node_state.specs.Meaning.{machine_in};
ghost use Rattle.node_open.specs.View.{heard_of, HasPace};
ghost use Rattle.node_open.specs.declared.open_node.TheConstants.{TURN_ENTRIES};
ghost use Rattle.callers_node.specs.Told.{GoesByAnswer};

use mate_num::{ContextId, Stamp};
use node_open::{NotReady, OpenNode};
use split_phase::NotWaiting;

/// The invocation that waits in the context gets the value, and no other: it can go on, and what it records next is what its whole
/// run gives with this answer.
pub fn an_answer_goes_to_its_context(
    node: &mut OpenNode,
    ctx: ContextId,
    n: u32,
    at: Stamp,
) -> Result<Result<u32, NotReady>, NotWaiting>
    requires context { ctx.0 < CONTEXTS_MAX }
    requires some { 0 < n }
    requires timely { IsTimely at node.old.log }
    requires room { TURN_ENTRIES + 1 ≤ node.old.log.spare }
    requires paced { (p : Pace) × HasPace node.old p }
    ensures goes_on { IfOk result IsOk }
    ensures value { IfOk result (λ step. OnOk step ((told : List JournalEntry)
        × (journal_of node.new.log ≡ journal_of node.old.log ++ map (event_at at) told)
        × GoesByAnswer (machine_in node.old.description) (heard_of node.old) ctx (pos 7) told)) }
{
    node.answer(ctx, 7, at)?;
    let _kept = node.kept();
    Ok(node.step(ctx, n, at))
}
