//! The record of a run.

ghost use Rattle.std.specs.Prelude.{◌≡◌, ◌≤◌, ◌<◌, ◌++◌, [], length, IfOk, OnOk, MatchResult};
ghost use Rattle.world_runs.specs.Records.{IsEmptyRecord, IsSameRecord, MayAdd, HasAdded, HaveRoom, HasRoomFor, OthersStay};

use crate::copies::{aired_again, append};
use mate_journal::{Aired, Airs, NodeLog, NodeLogs, Report};
use mate_num::NoMemory;
use std::alloc::Global;

/// The logs of a run's nodes, and what happened on the air. They are kept apart from the nodes, so that what memory was refused to
/// leaves no trace in them.
#[derive(Drop)]
pub struct Record {
    logs: Vec<NodeLog>,
    air: Airs,
    // the places to which the logs go when they are handed out
    places: NodeLogs,
}

impl Record {
    /// The record of so many nodes, before anything happened.
    pub fn new(alloc: Global, nodes: u8) -> Result<Record, NoMemory>
        ensures { IfOk result (IsEmptyRecord nodes) }
    {
        let places = NodeLogs::empty(alloc, nodes)?;
        let mut logs = Vec::new(alloc);
        for _node in 0..nodes {
            logs.push(NodeLog::new(alloc))?;
        }
        Ok(Record {
            logs,
            air: Airs::new(alloc),
            places,
        })
    }

    /// Appends what a node recorded since and what happened on the air since. `NoMemory` leaves the record as it was, but for its room.
    pub fn add(&mut self, node: u8, told: &NodeLog, aired: &[Aired]) -> Result<(), NoMemory>
        requires node { node < length self.old.logs.items }
        requires told { MayAdd self.old node told.now }
        ensures { MatchResult result (λ _. HasAdded self.old self.new node told.now aired.now) (λ _. IsSameRecord self.old self.new) }
    {
        let room = told.entries().len() + told.images().len() + told.stores().len();
        self.logs[usize::from(node)].reserve(room)?;
        add_air(&mut self.air, aired)?;
        append(&mut self.logs[usize::from(node)], told);
        Ok(())
    }

    /// Makes room for so many more entries, images and stores of each node.
    pub fn reserve(&mut self, room: usize) -> Result<(), NoMemory>
        ensures same { IsSameRecord self.old self.new }
        ensures room { OnOk result (HaveRoom room self.new) }
    {
        for node in 0..self.logs.len() {
            self.logs[node].reserve(room)?;
        }
        Ok(())
    }

    /// Appends what a node recorded since, within the room that there is. The other nodes keep their room.
    pub fn add_within(&mut self, node: u8, told: &NodeLog)
        requires node { node < length self.old.logs.items }
        requires told { MayAdd self.old node told.now }
        requires room { HasRoomFor self.old node told.now }
        ensures added { HasAdded self.old self.new node told.now [] }
        ensures others { OthersStay self.old self.new node }
    {
        append(&mut self.logs[usize::from(node)], told);
    }

    /// The report of a run of so many events. It takes no memory.
    pub fn into_report(self, events: u64, whole: bool) -> Report
        requires places { length self.places ≡ length self.logs.items }
        requires few { length self.logs.items ≤ 255 }
        ensures { result ≡ record { nodes = self.logs.items; air = self.air; events = events; whole = whole } }
    {
        let Record { logs, air, places } = self;
        Report::new(put_in(places, logs), air, events, whole)
    }
}

/// The logs, put in place of those that are there.
fn put_in(places: NodeLogs, logs: Vec<NodeLog>) -> NodeLogs
    requires count { length places ≡ length logs.items }
    requires few { length logs.items ≤ 255 }
    ensures { result ≡ logs.items }
{
    let mut places = places;
    let mut node = 0;
    for log in logs {
        places.put(node, log);
        node += 1;
    }
    places
}

/// Appends what happened on the air. `NoMemory` leaves the list as it was.
fn add_air(air: &mut Airs, aired: &[Aired]) -> Result<(), NoMemory>
    ensures { MatchResult result (λ _. air.new ≡ air.old ++ aired.now) (λ _. air.new ≡ air.old) }
{
    let before = air.len();
    for one in aired {
        if air.push(aired_again(one)).is_err() {
            air.cut(before);
            return Err(NoMemory);
        }
    }
    Ok(())
}
