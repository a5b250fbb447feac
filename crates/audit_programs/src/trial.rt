//! What a node's journal is tried against.

use mate_journal::{NodeLog, StoredPrograms};
use vm_shape::Description;

/// A node's log, with the machine and the programs that its journal is tried against.
#[derive(Drop)]
pub struct Trial<'a> {
    pub desc: &'a Description,
    pub programs: &'a StoredPrograms,
    pub log: &'a NodeLog,
}
