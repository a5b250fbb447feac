//! The answers to cases of texts that stand alone, and of sources for a machine.

use crate::{codes, meanings, procedures, runs, scripts, shapes, sources, tokens};
use std::alloc::{AllocError, Global};
use vm_shape::Description;

/// The tables of texts that stand alone.
pub const TEXTS: [&str; 6] = [
    "tokens",
    "bad-tokens",
    "scripts",
    "bad-scripts",
    "printed",
    "procedures",
];

/// The tables of sources for a machine.
pub const SOURCES: [&str; 11] = [
    "trees",
    "bad-trees",
    "right-bodies",
    "bad-bodies",
    "unspelled-bodies",
    "runs",
    "bad-runs",
    "codes",
    "bad-codes",
    "folded",
    "meanings",
];

/// The answer to a case of a table of texts.
pub fn text_answer(alloc: Global, table: &str, case: &str) -> Result<String, AllocError> {
    match table {
        "tokens" | "bad-tokens" => tokens::answer(alloc, case),
        "scripts" | "bad-scripts" => scripts::answer(alloc, case),
        "printed" => scripts::printed(alloc, case),
        "procedures" => procedures::answer(alloc, case),
        _ => "no table".to_string(alloc),
    }
}

/// The machines that sources are for.
#[derive(Drop)]
pub struct Machines {
    /// Of many names: the one of the trees.
    pub names: Description,
    /// Of functions of each kind: the one of runs by the meaning.
    pub mixed: Description,
    /// The one of all else.
    pub station: Description,
}

/// The answer to a case of a table of sources.
pub fn source_answer(
    alloc: Global,
    machines: &Machines,
    table: &str,
    case: &str,
) -> Result<String, AllocError> {
    let Machines {
        names,
        mixed,
        station,
    } = machines;
    match table {
        "trees" | "bad-trees" => sources::tree(alloc, names, case),
        "right-bodies" | "bad-bodies" => shapes::answer(alloc, station, case),
        "unspelled-bodies" => shapes::unspelled(alloc, station, case),
        "runs" | "bad-runs" => runs::answer(alloc, station, case),
        "codes" | "bad-codes" => codes::answer(alloc, station, case),
        "folded" => codes::folded(alloc, station, case),
        "meanings" => meanings::answer(alloc, mixed, case),
        _ => "no table".to_string(alloc),
    }
}
