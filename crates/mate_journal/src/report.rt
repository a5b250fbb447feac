//! A whole run: the log of each node and what happened on the air.

ghost use Rattle.std.specs.Prelude.{◌≡◌, ◌<◌, ◌∷◌, ◌++◌, [], length, slice_get, slice_set, IfOk, MatchResult, All};
ghost use Rattle.std.specs.Option.{option_copied};
ghost use Rattle.mate_journal.specs.Log.{IsEmpty};

use crate::air::{Aired, Airs};
use crate::node_log::NodeLog;
use mate_num::NoMemory;
use std::alloc::Global;
use std::marker::Model;

/// One log per node, in the order of their numbers. Contracts see the list.
#[derive(Drop)]
pub struct NodeLogs {
    logs: Vec<NodeLog>,
}

impl Model for NodeLogs {
    ghost use Rattle.std.specs.Prelude.{List};
    ghost use Rattle.mate_journal.specs.Log.{Log};

    ghost Value = { List Log };

    ghost view = { λ n. n.logs.items };
}

impl NodeLogs {
    /// The list of no logs. It takes no memory.
    pub fn new(alloc: Global) -> NodeLogs
        ensures { result ≡ [] }
    {
        NodeLogs {
            logs: Vec::new(alloc),
        }
    }

    /// The logs of `n` nodes, each of them empty.
    pub fn empty(alloc: Global, n: u8) -> Result<NodeLogs, NoMemory>
        ensures count { IfOk result (λ logs. length logs ≡ n) }
        ensures empty { IfOk result (λ logs. All IsEmpty logs) }
    {
        let mut logs = Vec::new(alloc);
        for _node in 0..n {
            logs.push(NodeLog::new(alloc))?;
        }
        Ok(NodeLogs { logs })
    }

    pub fn len(&self) -> usize
        ensures { result ≡ length self.now }
    {
        self.logs.len()
    }

    /// The log of a node; None exactly from the number of nodes on.
    pub fn get(&self, node: usize) -> Option<&NodeLog>
        ensures { option_copied result ≡ slice_get self.now node }
    {
        self.logs.get(node)
    }

    pub fn as_slice(&self) -> &[NodeLog]
        ensures { result.now ≡ self.now }
    {
        self.logs.as_slice()
    }

    /// Appends the log of one more node. `NoMemory` leaves the list as it was.
    pub fn push(&mut self, log: NodeLog) -> Result<(), NoMemory>
        ensures { MatchResult result (λ _. self.new ≡ self.old ++ log ∷ []) (λ _. self.new ≡ self.old) }
    {
        self.logs.push(log)?;
        Ok(())
    }

    /// Replaces the log of a node.
    pub fn put(&mut self, node: u8, log: NodeLog)
        requires { node < length self.old }
        ensures { self.new ≡ slice_set self.old node log }
    {
        self.logs[node as usize] = log;
    }
}

/// The report of a run: the logs of its nodes, what happened on the air, the number of the last event that was run,
/// and whether the run came to its end.
#[derive(Drop)]
pub struct Report {
    nodes: NodeLogs,
    air: Airs,
    events: u64,
    whole: bool,
}

impl Report {
    /// The report of these parts. It takes no memory.
    pub fn new(nodes: NodeLogs, air: Airs, events: u64, whole: bool) -> Report
        ensures { result ≡ record { nodes = nodes; air = air; events = events; whole = whole } }
    {
        Report {
            nodes,
            air,
            events,
            whole,
        }
    }

    pub fn nodes(&self) -> &[NodeLog]
        ensures { result.now ≡ self.now.nodes }
    {
        self.nodes.as_slice()
    }

    pub fn air(&self) -> &[Aired]
        ensures { result.now ≡ self.now.air }
    {
        self.air.as_slice()
    }

    pub fn events(&self) -> u64
        ensures { result ≡ self.now.events }
    {
        self.events
    }

    pub fn whole(&self) -> bool
        ensures { result ≡ self.now.whole }
    {
        self.whole
    }
}

/// An event begins only if fewer records are before it.
pub const RECORDS_MAX: usize = 1_000_000;

/// How many entries a node's log has at most while its run goes on, those that were handed out included.
pub const ENTRIES_MAX: usize = 4_000_000_000;

/// Why a run gave no whole report.
#[derive(Drop)]
pub enum RunFault {
    /// There were 1,000,000 records or more, and an event was left: the report so far.
    LogFull(Report),
    /// Memory was refused.
    NoMemory,
}

/// Why a run whose lines are written as its events end gave no whole report, or wasn't written whole. Each has the report of
/// the events that ended.
#[derive(Drop)]
pub enum IntoFault {
    /// There were 1,000,000 records or more, and an event was left. The report was written whole.
    LogFull(Report),
    /// Memory was refused, to the run or to the sink.
    NoMemory(Report),
    /// The sink couldn't be written.
    Sink(Report),
}

impl From<NoMemory> for RunFault {
    ghost use Rattle.std.specs.Prelude.{◌≡◌};
    ghost use Rattle.mate_journal.specs.declared.report.RunFault.TheVariants.{NoMemory as OutOfMemory};

    ghost from_gives = { λ _ fault. fault ≡ OutOfMemory };

    fn from(_refusal: NoMemory) -> RunFault {
        RunFault::NoMemory
    }
}
