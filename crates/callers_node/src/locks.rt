//! Who starts, and whom the locks of others hold back.

ghost use Rattle.std.specs.Prelude.{◌≡◌, ◌≤◌, ◌<◌, length};
ghost use Rattle.mate_num.specs.declared.bounds.TheConstants.{CONTEXTS_MAX};
ghost use Rattle.mate_journal.specs.Grants.{AllHeldBack};
ghost use Rattle.journal_laws.specs.Apart.{AreApart};
ghost use Rattle.node_state.specs.Keeps.{IsTimely};
ghost use Rattle.node_state.specs.Meaning.{machine_in};
ghost use Rattle.node_open.specs.View.{heard_of};
ghost use Rattle.node_open.specs.declared.open_node.TheConstants.{TURN_ENTRIES};

use journal_laws::runs_no_conflicting_ones_side_by_side;
use mate_num::{ContextId, HandlerId, Payload, Stamp};
use node_calls::PostAnswer;
use node_open::{NotReady, OpenNode};

/// Whoever is queued behind a post is held back by a conflicting invocation: with one lock for all handlers some would wait for
/// one that they don't conflict with.
pub fn who_is_queued_is_held_back(
    node: &mut OpenNode,
    handler: HandlerId,
    payload: &Payload,
    at: Stamp,
) -> PostAnswer
    requires handler { handler.0 < length node.old.description.handlers.items }
    requires timely { IsTimely at node.old.log }
    requires few { length node.old.log.entries < 4000000000 }
    requires room { 2 ≤ node.old.log.spare }
    ensures { AllHeldBack (machine_in node.new.description) (heard_of node.new) }
{
    let answer = node.post(handler, payload, at);
    let _kept = node.kept();
    answer
}

/// Two invocations that started don't conflict, whether they are ready or wait for answers: one whose locks were released at a wait
/// would let another start beside it.
pub fn a_waiting_invocation_holds_its_locks(
    node: &mut OpenNode,
    ctx: ContextId,
    n: u32,
    at: Stamp,
) -> Result<u32, NotReady>
    requires context { ctx.0 < CONTEXTS_MAX }
    requires some { 0 < n }
    requires timely { IsTimely at node.old.log }
    requires room { TURN_ENTRIES ≤ node.old.log.spare }
    ensures { AreApart (machine_in node.new.description) (heard_of node.new) }
{
    runs_no_conflicting_ones_side_by_side();
    let ran = node.step(ctx, n, at);
    let _kept = node.kept();
    ran
}
