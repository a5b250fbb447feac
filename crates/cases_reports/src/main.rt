//! Cases of scripts, reports, logs and command lines, and of long runs on one node: each line of a table with its answer.
#![tactic(auto)]

mod command_lines;
mod faults;
mod idle;
mod logs;
mod report_lines;
mod report_tables;
mod report_texts;
mod reports;
mod scripts;

use cases_files::print_table;
use std::io;

fn main(rt: HostRuntime) -> io::Result<()> {
    for table in report_tables::TABLES {
        print_table(&rt, table, report_tables::answer)?;
    }
    print_table(&rt, "idle", |alloc, _table, desc, case| {
        idle::answer(alloc, desc, case)
    })
}
