//! The answers to cases of descriptions of machines, of a machine's code, its verification and its runs, and of capsules.

use crate::{
    code, code_locks, descriptions, hex_texts, images, kinds, listings, opcodes, pieces, runs,
    verdicts,
};
use std::alloc::{AllocError, Global};
use vm_shape::Description;

/// The tables of descriptions.
pub const DESCRIPTIONS: [&str; 3] = ["machines", "bad-machines", "machine-parts"];

/// The answer to a case of a table of descriptions.
pub fn description_answer(alloc: Global, table: &str, case: &str) -> Result<String, AllocError> {
    match table {
        "machines" | "bad-machines" => descriptions::instructions(alloc, case),
        "machine-parts" => descriptions::parts(alloc, case),
        _ => "no table".to_string(alloc),
    }
}

/// The tables of cases for a machine. Each is named for the module that answers it.
pub const TABLES: [&str; 10] = [
    "code",
    "kinds",
    "opcodes",
    "runs",
    "verdicts",
    "code_locks",
    "images",
    "pieces",
    "hex_texts",
    "listings",
];

/// The answer to a case of a table, for a machine.
pub fn answer(
    alloc: Global,
    table: &str,
    desc: &Description,
    case: &str,
) -> Result<String, AllocError> {
    match table {
        "code" => code::answer(alloc, desc, case),
        "kinds" => kinds::answer(alloc, desc, case),
        "opcodes" => opcodes::answer(alloc, desc),
        "runs" => runs::answer(alloc, desc, case),
        "verdicts" => verdicts::answer(alloc, desc, case),
        "code_locks" => code_locks::answer(alloc, desc, case),
        "images" => images::answer(alloc, desc, case),
        "pieces" => pieces::answer(alloc, case),
        "hex_texts" => hex_texts::answer(alloc, case),
        "listings" => listings::answer(alloc, desc, case),
        _ => "no table".to_string(alloc),
    }
}
