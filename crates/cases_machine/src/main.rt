//! Cases of numbers, locks and a node's parts, of descriptions, of code, and of capsules: each line of a table with its answer.
#![tactic(auto)]

mod calls;
mod code;
mod code_locks;
mod copies;
mod descriptions;
mod heap;
mod hex_texts;
mod images;
mod kinds;
mod listings;
mod locks;
mod machine_tables;
mod names;
mod numbers;
mod opcodes;
mod part_tables;
mod pieces;
mod ring;
mod runs;
mod sets;
mod steps;
mod texts;
mod verdicts;

use cases_files::{print_cases, print_table};
use std::io;

fn main(rt: HostRuntime) -> io::Result<()> {
    for table in part_tables::TABLES {
        print_cases(&rt, table, part_tables::answer)?;
    }
    for table in machine_tables::DESCRIPTIONS {
        print_cases(&rt, table, machine_tables::description_answer)?;
    }
    for table in machine_tables::TABLES {
        print_table(&rt, table, machine_tables::answer)?;
    }
    Ok(())
}
