//! Cases of the commands of `mate`, over files and sinks in memory.
//!
//! A case is a line: the words of the command line, and after ` | ` what it is run on. `NAME=TEXT` is a file in memory,
//! besides `v.toml` and `m.toml`, which are given to each case; `expand NAME=TEXT` is the file that `expand` writes for such
//! a file, and `bytes NAME=HEX` a file of bytes in hexadecimal digits, in which `+` is between parts and `9*c0` is a part nine
//! times; `fail out 2` makes the second write to standard output fail, and so do `fail err` and `fail read` for the line of a
//! refusal and the reading of files; `each out`, at the end, makes each write fail in turn. In a text `\n`, `\t`, `\r` are
//! control characters, `\q` is a backquote, `\p` a bar and `\s` a backslash; between backquotes is a number and a piece that
//! is there that many times. For each case the program prints its line, the status, and what was written to standard output
//! and standard error.
#![tactic(auto)]

mod cases;
mod machines;
mod settings;
mod texts;

use crate::machines::Machines;
use std::{fs, io};

/// The tables of cases; those of refusals begin with `bad-`.
const TABLES: [&str; 24] = [
    "table",
    "bad-table",
    "compile",
    "bad-compile",
    "codes",
    "bad-codes",
    "accepted-sources",
    "bad-sources",
    "check",
    "bad-check",
    "feed",
    "bad-feed",
    "audit",
    "bad-audit",
    "expand",
    "bad-expand",
    "expansions",
    "expanded-runs",
    "node",
    "bad-node",
    "sim",
    "gen",
    "bad-sim",
    "bad-words",
];

fn main(rt: HostRuntime) -> io::Result<()> {
    let machines = Machines {
        own: fs::read_to_string(&rt, "v.toml")?,
        mixed: fs::read_to_string(&rt, "m.toml")?,
    };
    for table in TABLES {
        let lines = fs::read_to_string(&rt, table)?;
        for case in lines.lines() {
            let answer = cases::answer(rt.alloc(), &machines, case)?;
            print!(rt; "{case}\n{answer}")?;
        }
    }
    Ok(())
}
