//! Events for a node's handlers.

ghost use Rattle.std.specs.Prelude.{◌≡◌, ◌≤◌, ◌<◌, length};
ghost use Rattle.mate_num.specs.declared.id.ContextId.{ContextId};
ghost use Rattle.mate_journal.specs.Machine.{IsContextOf};
ghost use Rattle.mate_journal.specs.Pace.{Pace};
ghost use Rattle.mate_journal.specs.WellFormed.{IsIdle};
ghost use Rattle.node_state.specs.Keeps.{IsTimely};
ghost use Rattle.node_state.specs.Meaning.{machine_in};
ghost use Rattle.node_calls.specs.declared.posting.PostAnswer.TheVariants.{AllBusy};
ghost use Rattle.node_open.specs.View.{heard_of, HasPace};

use mate_num::{HandlerId, Payload, Stamp};
use node_calls::PostAnswer;
use node_open::OpenNode;

/// No event is dropped as `AllBusy` while a context of its handler is idle.
pub fn an_idle_context_takes_an_event(
    node: &mut OpenNode,
    handler: HandlerId,
    payload: &Payload,
    at: Stamp,
) -> PostAnswer
    requires handler { handler.0 < length node.old.description.handlers.items }
    requires timely { IsTimely at node.old.log }
    requires few { length node.old.log.entries < 4000000000 }
    requires room { 2 ≤ node.old.log.spare }
    ensures { (p : Pace) (c : ContextId) → HasPace node.old p → IsContextOf (machine_in node.old.description) handler c
        → IsIdle (heard_of node.old) c → result ≡ AllBusy → ⊥ }
{
    node.post(handler, payload, at)
}
