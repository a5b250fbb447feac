//! What is recorded of a world's run, so that its report can be handed out.

ghost use Rattle.std.specs.Prelude.{◌≡◌, ◌<◌, ◌≤◌, length, MatchResult};
ghost use Rattle.mate_num.specs.declared.bounds.TheConstants.{NODES_MAX};
ghost use Rattle.world_runs.specs.Records.{IsSameRecord};
ghost use Rattle.world_state.specs.Reporting.{mote_logs};
ghost use Rattle.world_runs.specs.Recording.{IsRecordOf, IsRecordBefore, HaveStoresBehind, IsRecorded, IsRecordedBefore, AreStoresBefore, AreStoresRecorded};
ghost use Rattle.world_runs.specs.Recording.{StaysRecorded, has_record};

use crate::record::Record;
use mate_journal::ENTRIES_MAX;
use mate_num::NoMemory;
use world_state::{Mote, Simulation};

/// Records what a node and the radio have at hand, if a record is kept. `NoMemory` leaves it as it was, but for its room.
pub fn record_event(
    records: &mut Option<Record>,
    sim: &Simulation,
    node: u8,
) -> Result<(), NoMemory>
    requires node { node < length sim.now.motes.items }
    requires before { IsRecordedBefore records.old sim.now node }
    ensures recorded { MatchResult result (λ _. IsRecorded records.new sim.now) (λ _. StaysRecorded records.old records.new) }
    ensures kept { has_record records.new ≡ has_record records.old }
{
    match records {
        Some(record) => add_event(record, sim, node),
        None => Ok(()),
    }
}

/// Records the stores that the nodes have at hand, if a record is kept. `NoMemory` leaves it as it was, but for its room.
pub(crate) fn record_stores(records: &mut Option<Record>, motes: &[Mote]) -> Result<(), NoMemory>
    requires few { length motes.now ≤ NODES_MAX }
    requires before { AreStoresBefore records.old motes.now }
    ensures recorded { MatchResult result (λ _. AreStoresRecorded records.old records.new motes.now)
        (λ _. StaysRecorded records.old records.new) }
    ensures kept { has_record records.new ≡ has_record records.old }
{
    match records {
        Some(record) => add_stores(record, motes),
        None => Ok(()),
    }
}

/// Appends what a node and the radio have at hand. `NoMemory` leaves the record as it was, but for its room.
pub fn add_event(records: &mut Record, sim: &Simulation, node: u8) -> Result<(), NoMemory>
    requires node { node < length sim.now.motes.items }
    requires before { IsRecordBefore records.old sim.now node }
    ensures { MatchResult result (λ _. IsRecordOf records.new (mote_logs sim.now.motes.items) sim.now.radio.air)
        (λ _. IsSameRecord records.old records.new) }
{
    let mote = &sim.motes[usize::from(node)];
    if mote.node.told() >= ENTRIES_MAX {
        return Err(NoMemory);
    }
    records.add(node, mote.node.kept(), sim.radio.air())
}

/// Appends the store that each node has at hand. `NoMemory` leaves the record as it was, but for its room.
fn add_stores(records: &mut Record, motes: &[Mote]) -> Result<(), NoMemory>
    requires few { length motes.now ≤ NODES_MAX }
    requires before { HaveStoresBehind records.old motes.now }
    ensures { MatchResult result (λ _. IsRecordOf records.new (mote_logs motes.now) records.old.air)
        (λ _. IsSameRecord records.old records.new) }
{
    // (an entry, and its store)
    records.reserve(2)?;
    let mut node: u8 = 0;
    for mote in motes {
        records.add_within(node, mote.node.kept());
        node += 1;
    }
    Ok(())
}
