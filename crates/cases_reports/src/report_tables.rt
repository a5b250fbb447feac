//! The answers to cases of scripts, reports, logs and command lines.

use crate::{command_lines, faults, logs, report_lines, report_texts, reports, scripts};
use std::alloc::{AllocError, Global};
use vm_shape::Description;

/// The tables of cases. Each is named for the module that answers it.
pub const TABLES: [&str; 7] = [
    "scripts",
    "report_lines",
    "reports",
    "report_texts",
    "logs",
    "command_lines",
    "faults",
];

/// The answer to a case of a table, for a machine.
pub fn answer(
    alloc: Global,
    table: &str,
    desc: &Description,
    case: &str,
) -> Result<String, AllocError> {
    match table {
        "scripts" => scripts::answer(alloc, desc, case),
        "report_lines" => report_lines::answer(alloc, desc, case),
        "reports" => reports::answer(alloc, desc, case),
        "report_texts" => report_texts::answer(alloc, desc, case),
        "logs" => logs::answer(alloc, case),
        "command_lines" => command_lines::answer(alloc, case),
        "faults" => faults::answer(alloc, case),
        _ => "no table".to_string(alloc),
    }
}
