//! The links of a made world.

ghost use Rattle.std.specs.Prelude.{◌≡◌, ◌≤◌, ◌++◌, IfOk, OnOk};
ghost use Rattle.script_reader.specs.Made.{both_ways, chain, ring};

use mate_num::{Items, NoMemory};
use script_steps::{Link, Links};
use std::alloc::Global;

/// A ring of so many nodes.
pub fn ring(alloc: Global, nodes: u8) -> Result<Links, NoMemory>
    requires { 1 ≤ nodes }
    ensures { IfOk result (λ links. links ≡ ring nodes) }
{
    let mut links = Items::new(alloc);
    for node in 0..nodes - 1 {
        join(&mut links, node, node + 1, 50)?;
    }
    join(&mut links, 0, nodes - 1, 200)?;
    Ok(links)
}

// Adds the links between two nodes.
fn join(links: &mut Links, a: u8, b: u8, loss: u16) -> Result<(), NoMemory>
    ensures { OnOk result (links.new ≡ links.old ++ both_ways a b loss) }
{
    links.push(Link {
        from: a,
        to: b,
        loss,
    })?;
    links.push(Link {
        from: b,
        to: a,
        loss,
    })?;
    Ok(())
}
