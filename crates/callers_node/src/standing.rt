//! What can go on, and what is told of a store.

ghost use Rattle.std.specs.Prelude.{◌≡◌, ◌≤◌, ◌<◌, suc, length};
ghost use Rattle.mate_num.specs.declared.id.ContextId.{ContextId};
ghost use Rattle.mate_journal.specs.Pace.{Pace};
ghost use Rattle.node_state.specs.Keeps.{IsTimely};
ghost use Rattle.node_open.specs.Calls.{IsNoneReady};
ghost use Rattle.node_open.specs.View.{heard_of, HasPace};
ghost use Rattle.node_open.specs.declared.standing.Standing.TheVariants.{Can};

use mate_num::Stamp;
use node_open::{OpenNode, Standing};

/// One that waits for the outside isn't told to be able to go on.
pub fn one_that_waits_can_not_go_on(node: &OpenNode) -> Standing
    ensures { IsNoneReady (heard_of node.now) → (c : ContextId) → result ≡ Can c → ⊥ }
{
    node.standing()
}

/// A store that is seen is one entry.
pub fn a_store_is_told_once(node: &mut OpenNode, at: Stamp) -> usize
    requires timely { IsTimely at node.old.log }
    requires few { length node.old.log.entries < 4000000000 }
    requires room { 1 ≤ node.old.log.spare }
    ensures { (p : Pace) → HasPace node.old p → result ≡ suc (length node.old.log.entries) }
{
    node.seen(at);
    node.told()
}
