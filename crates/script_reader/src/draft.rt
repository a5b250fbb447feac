//! A world as far as its script was read.

use crate::stage::Stage;
use mate_num::{FUNCTIONS_MAX, HANDLERS_MAX, NODES_MAX};
use script_steps::World;
use std::alloc::Global;

/// How many pairs of nodes there are.
pub const PAIRS: usize = NODES_MAX * NODES_MAX;

/// How many pairs of a node and a function there are.
pub const PLACES: usize = NODES_MAX * FUNCTIONS_MAX;

/// What the lines so far say.
#[derive(Drop)]
pub struct Draft {
    pub alloc: Global,
    pub stage: Stage,
    pub world: World,
    /// The last planned time.
    pub time: u32,
    /// The newest version of each handler, 0 for none.
    pub newest: [u32; HANDLERS_MAX],
    /// For each two nodes, in rows of `NODES_MAX`, whether a link leads from the one to the other.
    pub linked: [bool; PAIRS],
    /// For each node and function, in rows of `FUNCTIONS_MAX`, how many series stand up to theirs, 0 for none.
    pub places: [usize; PLACES],
}
