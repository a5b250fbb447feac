//! Runs of small worlds, each compared with the report that it should have.
#![tactic(auto)]

mod blocks;
mod cases;
mod programs;
mod same;
mod scarce;
mod stopped;

use crate::blocks::answer;
use std::{fs, io};

fn main(rt: HostRuntime) -> io::Result<()> {
    let text = fs::read_to_string(&rt, "worlds")?;
    for block in text.split("\n== ") {
        let answer = answer(rt.alloc(), block)?;
        println!(rt; "{answer}")?;
    }
    Ok(())
}
