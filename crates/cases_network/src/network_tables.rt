//! The answers to cases of packets, timers, exchanges and streams.

use crate::{exchanges, frames, neighbours, packets, timers};
use std::alloc::{AllocError, Global};
use vm_shape::Description;

/// The tables of cases. Each is named for the module that answers it.
pub const TABLES: [&str; 5] = ["packets", "timers", "neighbours", "exchanges", "frames"];

/// The answer to a case of a table, for a machine.
pub fn answer(
    alloc: Global,
    table: &str,
    desc: &Description,
    case: &str,
) -> Result<String, AllocError> {
    match table {
        "packets" => packets::answer(alloc, desc, case),
        "timers" => timers::answer(alloc, case),
        "neighbours" => neighbours::answer(alloc, desc, case),
        "exchanges" => exchanges::answer(alloc, case),
        "frames" => frames::answer(alloc, case),
        _ => "no table".to_string(alloc),
    }
}
