//! The answers to cases of the radio.

use crate::bench::Bench;
use crate::{loads, queues, transmissions};
use mate_num::NoMemory;
use std::alloc::{AllocError, Global};
use vm_shape::Description;

/// The tables of cases. Each is named for the module that answers it.
pub const TABLES: [&str; 3] = ["queues", "transmissions", "loads"];

/// The answer to a case of a table. A case is a world's script, with `|` for the end of a line, and after ` : ` what is asked.
pub fn answer(
    alloc: Global,
    table: &str,
    desc: &Description,
    case: &str,
) -> Result<String, AllocError> {
    let (script, asked) = case.split_once(" : ").unwrap_or((case, ""));
    match asked_of(alloc, table, desc, script, asked) {
        Ok(text) => Ok(text),
        Err(NoMemory) => "no memory".to_string(alloc),
    }
}

/// What the radio of a script's world answers.
fn asked_of(
    alloc: Global,
    table: &str,
    desc: &Description,
    script: &str,
    asked: &str,
) -> Result<String, NoMemory> {
    match Bench::new(alloc, desc, script)? {
        Some(mut bench) => asked_on(alloc, table, &mut bench, asked),
        None => Ok("no world".to_string(alloc)?),
    }
}

fn asked_on(
    alloc: Global,
    table: &str,
    bench: &mut Bench,
    asked: &str,
) -> Result<String, NoMemory> {
    match table {
        "queues" => queues::answer(alloc, bench, asked),
        "transmissions" => transmissions::answer(alloc, bench, asked),
        "loads" => loads::answer(alloc, bench, asked),
        _ => Ok("no table".to_string(alloc)?),
    }
}
