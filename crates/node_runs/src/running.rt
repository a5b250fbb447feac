//! When the run of a node script ends before its steps do.

ghost use Rattle.std.specs.Prelude.{◌≡◌, length, nat_le};
ghost use Rattle.mate_journal.specs.declared.report.TheConstants.{RECORDS_MAX as records_max};
ghost use Rattle.node_state.specs.Meaning.{machine_in};
ghost use Rattle.node_open.specs.Journal.{KeepsJournal};

use crate::heap_node::HeapNode;
use mate_journal::RECORDS_MAX;

/// Whether no further event is begun on the node.
pub fn is_full(node: &HeapNode) -> bool
    ensures full { result ≡ nat_le records_max (length node.now.log.entries) }
    ensures keeps { KeepsJournal node.now.description (machine_in node.now.description) node.now.log }
{
    node.told() >= RECORDS_MAX
}
