//! The report of a world's run.

ghost use Rattle.std.specs.Prelude.{◌≡◌, ◌≤◌, length, All, OnOk};
ghost use Rattle.mate_num.specs.declared.bounds.TheConstants.{NODES_MAX};
ghost use Rattle.vm_shape.specs.declared.description.Description.{Description};
ghost use Rattle.node_state.specs.Meaning.{machine_in};
ghost use Rattle.node_open.specs.Journal.{KeepsJournal};
ghost use Rattle.node_state.specs.Keeps.{IsTimely};
ghost use Rattle.world_state.specs.declared.mote.Mote.{Mote as MoteState};
ghost use Rattle.mate_journal.specs.OpenLog.{nothing_gone};
ghost use Rattle.mate_journal.specs.Ranges.{HasReportRanges};
ghost use Rattle.world_state.specs.Keeping.{IsWhole, HasForgotten, HaveForgotten};
ghost use Rattle.world_state.specs.Reporting.{ShowsOneStore, ShowStores, told_report, mote_logs, AreOfMachine};

use crate::mote::Mote;
use crate::simulation::Simulation;
use journal_laws::{LogSize, log_is_in_range_from, report_is_in_range};
use mate_journal::{ENTRIES_MAX, NodeLogs, Report};
use mate_num::{NoMemory, Stamp};

/// Forgets what each node recorded. `NoMemory` comes if a node's log has 3,999,999,999 entries or more.
pub fn forget_all(motes: &mut Vec<Mote>) -> Result<(), NoMemory>
    ensures { OnOk result (HaveForgotten (length motes.old.items) motes.old.items motes.new.items) }
{
    for k in 0..motes.len() {
        forget(&mut motes[k])?;
    }
    Ok(())
}

/// Forgets what the node recorded.
fn forget(mote: &mut Mote) -> Result<(), NoMemory>
    ensures { OnOk result (HasForgotten mote.old mote.new) }
{
    if mote.node.told() >= ENTRIES_MAX - 1 {
        return Err(NoMemory);
    }
    mote.node.forget();
    Ok(())
}

/// The store of each node is seen, with this stamp.
pub fn see_stores(motes: &mut Vec<Mote>, at: Stamp) -> Result<(), NoMemory>
    requires { All (λ (m : MoteState). IsTimely at m.node.log) motes.old.items }
    ensures { OnOk result (ShowStores at (length motes.old.items) motes.old.items motes.new.items) }
{
    for k in 0..motes.len() {
        see_store(&mut motes[k], at)?;
    }
    Ok(())
}

/// The store of the node is seen, with this stamp.
fn see_store(mote: &mut Mote, at: Stamp) -> Result<(), NoMemory>
    requires { IsTimely at mote.old.node.log }
    ensures { OnOk result (ShowsOneStore at mote.old mote.new) }
{
    if mote.node.told() >= ENTRIES_MAX {
        return Err(NoMemory);
    }
    let before = mote.node.kept();
    let size = LogSize::of(before);
    mote.show(at)?;
    let after = mote.node.kept();
    log_is_in_range_from(after, size);
    Ok(())
}

/// The report of a run of so many events. It takes no memory: `logs` has a log for each node.
pub fn report_of(logs: NodeLogs, sim: Simulation, events: u64, whole: bool) -> Report
    requires count { length logs ≡ length sim.motes.items }
    requires few { length sim.motes.items ≤ NODES_MAX }
    requires whole { IsWhole sim }
    ensures is { result ≡ told_report sim events whole }
    ensures keeps { (d : Description) → AreOfMachine d sim.motes.items → All (KeepsJournal d (machine_in d)) result.nodes }
    ensures ranges { HasReportRanges result }
{
    let Simulation { radio, motes, .. } = sim;
    let logs = logs_in(logs, motes);
    let report = Report::new(logs, radio.into_air(), events, whole);
    report_is_in_range(&report);
    report
}

/// The nodes' logs, put in place of those that are there.
fn logs_in(logs: NodeLogs, motes: Vec<Mote>) -> NodeLogs
    requires count { length logs ≡ length motes.items }
    requires few { length motes.items ≤ NODES_MAX }
    requires whole { All (λ (m : MoteState). m.node.gone ≡ nothing_gone) motes.items }
    ensures is { result ≡ mote_logs motes.items }
    ensures keeps { (d : Description) → AreOfMachine d motes.items → All (KeepsJournal d (machine_in d)) result }
{
    let mut logs = logs;
    let mut number = 0;
    for mote in motes {
        let Mote { node, .. } = mote;
        logs.put(number, node.into_log());
        number += 1;
    }
    logs
}
