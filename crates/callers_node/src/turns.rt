//! Turns: whose they are, and how long.

ghost use Rattle.std.specs.Prelude.{◌≡◌, ◌≢◌, ◌≤◌, ◌<◌, ◌+◌, ℕ, List, ◌∷◌, false, IfOk};
ghost use Rattle.mate_num.specs.declared.bounds.TheConstants.{CONTEXTS_MAX};
ghost use Rattle.mate_journal.specs.Journal.{whole_run};
ghost use Rattle.mate_journal.specs.Pace.{Pace};
ghost use Rattle.mate_journal.specs.Turns.{entry_at, mark_of};
ghost use Rattle.node_state.specs.Keeps.{IsTimely};
ghost use Rattle.node_state.specs.Meaning.{machine_in};
ghost use Rattle.node_open.specs.View.{heard_of, HasPace, Tells};
ghost use Rattle.node_open.specs.declared.open_node.TheConstants.{SETTLING_ENTRIES, TURN_ENTRIES};
ghost use Rattle.callers_node.specs.Told.{ExecutesAll, TellsFirst};

use mate_num::{ContextId, Stamp};
use node_open::{NotReady, OpenNode};

/// A step of 7 instructions executes 7 of the invocation in its context, where that doesn't ask or end before.
pub fn a_step_is_as_long_as_it_is_told(
    node: &mut OpenNode,
    ctx: ContextId,
    at: Stamp,
) -> Result<u32, NotReady>
    requires context { ctx.0 < CONTEXTS_MAX }
    requires timely { IsTimely at node.old.log }
    requires room { TURN_ENTRIES ≤ node.old.log.spare }
    ensures { IfOk result (λ ran. Tells node.old node.new at
        (ExecutesAll (machine_in node.old.description) (heard_of node.old) ctx 7 ran)) }
{
    node.step(ctx, 7, at)
}

pub fn nobody_is_ready_once_all_settled(node: &mut OpenNode, at: Stamp) -> bool
    requires timely { IsTimely at node.old.log }
    requires room { SETTLING_ENTRIES ≤ node.old.log.spare }
    ensures { (p : Pace) → HasPace node.old p → result ≡ false }
{
    node.settle(at);
    node.is_ready()
}

/// Of two that are ready the first has one quantum, and goes last: if it isn't at its mark then, and the second is within a quantum,
/// the second's mark is recorded first.
pub fn turns_of_a_quantum_go_round(node: &mut OpenNode, at: Stamp)
    requires timely { IsTimely at node.old.log }
    requires room { SETTLING_ENTRIES ≤ node.old.log.spare }
    ensures { (a b : ℕ) (rest : List ℕ) → Tells node.old node.new at (λ p told _. p.line ≡ a ∷ b ∷ rest → a ≢ b
        → p.counts a + node.old.description.quantum < mark_of (machine_in node.old.description) (heard_of node.old) a
        → mark_of (machine_in node.old.description) (heard_of node.old) b ≤ p.counts b + node.old.description.quantum
        → TellsFirst (entry_at b (whole_run (machine_in node.old.description) (heard_of node.old) b).end) told) }
{
    node.settle(at);
}
