//! The answers to cases of world scripts and of made worlds.

use crate::{made, worlds};
use std::alloc::{AllocError, Global};
use vm_shape::Description;

/// The tables of cases. Each is named for the module that answers it.
pub const TABLES: [&str; 2] = ["worlds", "made"];

/// The answer to a case of a table, for a machine.
pub fn answer(
    alloc: Global,
    table: &str,
    desc: &Description,
    case: &str,
) -> Result<String, AllocError> {
    match table {
        "worlds" => worlds::answer(alloc, desc, case),
        "made" => made::answer(alloc, desc, case),
        _ => "no table".to_string(alloc),
    }
}
