//! What a command is to write.

use crate::boxed_machine::BoxedMachine;
use crate::document::Document;
use mate_journal::StoredPrograms;
use report_writer::Summary;
use script_steps::{Steps, World};
use std::mem;

/// What a command is to write to standard output, after all that it needs was read and found right.
pub enum Output {
    /// A text all of whose parts are known.
    Document(Document),
    /// The summary of a run on this machine, which was counted as its events ended.
    Summary(BoxedMachine, Summary),
    /// The report of a run, which is run and written event by event.
    Run(Run),
}

/// A run on nodes of a machine, with the programs of the files that it names.
#[derive(Drop)]
pub enum Run {
    /// The run of a script on one node.
    Script(BoxedMachine, Steps, StoredPrograms),
    /// The run of a world.
    World(BoxedMachine, World, StoredPrograms),
}

/// All that has to be dropped is dropped in one function, so each place at which an output ends has one call.
impl Drop for Output {
    fn drop(self) {
        match self {
            // the command ends soon after this: this memory goes back as a whole, not node by node
            Output::Document(Document::Expansion(script)) => mem::forget(script),
            Output::Document(_document) => {}
            Output::Summary(_machine, _summary) => {}
            Output::Run(_run) => {}
        }
    }
}
