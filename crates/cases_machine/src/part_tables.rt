//! The answers to cases of numbers, names and lock sets of a machine, and of a node's parts.

use crate::{calls, copies, heap, locks, names, numbers, ring, sets, texts};
use std::alloc::{AllocError, Global};

/// The tables of cases. Each is named for the module that answers it.
pub const TABLES: [&str; 9] = [
    "numbers", "sets", "names", "texts", "copies", "heap", "locks", "ring", "calls",
];

/// The answer to a case of a table.
pub fn answer(alloc: Global, table: &str, case: &str) -> Result<String, AllocError> {
    match table {
        "numbers" => numbers::answer(alloc, case),
        "sets" => sets::answer(alloc, case),
        "names" => names::answer(alloc, case),
        "texts" => texts::answer(alloc, case),
        "copies" => copies::answer(alloc, case),
        "heap" => heap::answer(alloc, case),
        "locks" => locks::answer(alloc, case),
        "ring" => ring::answer(alloc, case),
        "calls" => calls::answer(alloc, case),
        _ => "no table".to_string(alloc),
    }
}
