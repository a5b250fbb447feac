//! Tables of cases, each printed with its answers.

use std::alloc::{AllocError, Global};
use std::rt::Files;
use std::{fs, io};
use vm_desc::read;
use vm_shape::{Description, builtin};

/// Prints a table: its name after `==`, and each line of the file of this name with its answer after ` => `. A line
/// has the name of a machine, a space, and the case; a case that can't be read has an answer of its own.
pub fn print_table<F: Fn(Global, &str, &Description, &str) -> Result<String, AllocError>>(
    rt: &(impl Files + Print + AllocGlobal),
    table: &str,
    answer: F,
) -> io::Result<()>
    requires { F.IsAlwaysCallable answer }
{
    println!(rt; "== {table}")?;
    let lines = fs::read_to_string(rt, table)?;
    for line in lines.lines() {
        let (machine, case) = line.split_once(' ').unwrap_or((line, ""));
        let answer = match description(rt, machine)? {
            Some(desc) => answer(rt.alloc(), table, &desc, case)?,
            None => "no machine".to_string(rt.alloc())?,
        };
        println!(rt; "{line} => {answer}")?;
    }
    Ok(())
}

/// Prints a table whose cases have no name of a machine: its name after `==`, and each line with its answer after ` => `.
pub fn print_cases<F: Fn(Global, &str, &str) -> Result<String, AllocError>>(
    rt: &(impl Files + Print + AllocGlobal),
    table: &str,
    answer: F,
) -> io::Result<()>
    requires { F.IsAlwaysCallable answer }
{
    println!(rt; "== {table}")?;
    let lines = fs::read_to_string(rt, table)?;
    for line in lines.lines() {
        let answer = answer(rt.alloc(), table, line)?;
        println!(rt; "{line} => {answer}")?;
    }
    Ok(())
}

/// The built-in machine, or the one that the file of this name describes; None if that is refused.
pub fn description(rt: &(impl Files + AllocGlobal), name: &str) -> io::Result<Option<Description>> {
    if name == "builtin" {
        return Ok(Some(builtin()));
    }
    let text = fs::read_to_string(rt, name)?;
    match read(rt.alloc(), text.as_bytes()) {
        Ok(desc) => Ok(Some(desc)),
        Err(_) => Ok(None),
    }
}
