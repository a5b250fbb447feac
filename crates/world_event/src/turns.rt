//! The turns of a node behind an event's own part.

ghost use Rattle.std.specs.Prelude.{◌≤◌, ◌+◌, length, OnOk};
ghost use Rattle.mate_journal.specs.Journal.{journal_of, first_state};
ghost use Rattle.mate_journal.specs.WellFormed.{IsWellFormed};
ghost use Rattle.mate_journal.specs.Turns.{Settles};
ghost use Rattle.node_state.specs.Meaning.{machine_in};
ghost use Rattle.node_state.specs.Keeps.{IsTimely};
ghost use Rattle.node_open.specs.View.{heard_of, Tells};
ghost use Rattle.node_open.specs.Calls.{told_from};
ghost use Rattle.node_open.specs.declared.open_node.TheConstants.{SETTLING_ENTRIES};
ghost use Rattle.journal_laws.specs.Waiting.{WaitApart, AreAwaited};
ghost use Rattle.world_event.specs.Handling.{IsPaced};

use journal_laws::{settling_leaves_waiting, settling_tells_few, waits_are_apart};
use mate_num::{NoMemory, Stamp};
use node_open::{OpenNode, SETTLING_ENTRIES};

/// The node has turns until nobody is ready there, none if nobody is. They record at most `SETTLING_ENTRIES`, and what calls in
/// them waits behind them.
pub(crate) fn have_turns(node: &mut OpenNode, at: Stamp) -> Result<(), NoMemory>
    requires timely { IsTimely at node.old.log }
    requires paced { IsPaced node.old }
    ensures tells { OnOk result (Tells node.old node.new at (Settles (machine_in node.old.description)
        (heard_of node.old))) }
    ensures few { OnOk result (length node.new.log.entries ≤ length node.old.log.entries + SETTLING_ENTRIES) }
    ensures apart { OnOk result (WaitApart (heard_of node.new)) }
    ensures awaited { OnOk result (AreAwaited (heard_of node.new) (told_from (length node.old.log.entries) node.new.log)) }
{
    waits_are_apart();
    settling_leaves_waiting();
    settling_tells_few();
    is_well_formed(node);
    if !node.is_ready() {
        return Ok(());
    }
    node.reserve(SETTLING_ENTRIES)?;
    is_well_formed(node);
    node.settle(at);
    is_well_formed(node);
    Ok(())
}

/// The node's journal is well formed.
pub(crate) fn is_well_formed(node: &OpenNode)
    ensures { IsWellFormed (machine_in node.now.description) (first_state (machine_in node.now.description)) (journal_of node.now.log) }
{
    let _kept = node.kept();
}
