//! An invocation in its context.

use exec_unit::Machine;
use mate_num::HandlerId;

/// A live invocation: what it has of its own, how many instructions it executed since its start, its number, and its
/// handler. (In this order there is no gap between the fields.)
#[derive(Drop)]
pub struct Seat {
    pub machine: Machine,
    pub count: u64,
    pub inv: u32,
    pub handler: HandlerId,
}
