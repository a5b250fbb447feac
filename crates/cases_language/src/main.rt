//! Cases of texts that stand alone, and of sources for a machine: each line of a table with its answer.
#![tactic(auto)]

mod codes;
mod language_tables;
mod meanings;
mod procedures;
mod runs;
mod scripts;
mod shapes;
mod sources;
mod tokens;
mod tree_texts;

use crate::language_tables::{Machines, SOURCES, TEXTS, source_answer, text_answer};
use cases_files::{description, print_cases};
use std::io;

fn main(rt: HostRuntime) -> io::Result<()> {
    for table in TEXTS {
        print_cases(&rt, table, text_answer)?;
    }
    let Some(names) = description(&rt, "names.toml")? else {
        return println!(rt; "names.toml describes no machine");
    };
    let Some(mixed) = description(&rt, "mixed.toml")? else {
        return println!(rt; "mixed.toml describes no machine");
    };
    let Some(station) = description(&rt, "station.toml")? else {
        return println!(rt; "station.toml describes no machine");
    };
    let machines = Machines {
        names,
        mixed,
        station,
    };
    for table in SOURCES {
        print_cases(&rt, table, |alloc, table, case| {
            source_answer(alloc, &machines, table, case)
        })?;
    }
    Ok(())
}
