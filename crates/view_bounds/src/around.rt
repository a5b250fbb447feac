//! Which nodes hear each other, and how far they are.

use mate_num::NODES_MAX;
use script_steps::Link;
use std::alloc::Global;
use view_records::ViewFault;

/// A pair of links between two nodes, one each way.
#[derive(Clone, Copy)]
pub struct Pair {
    pub from: u8,
    pub to: u8,
}

/// The pairs of links, each in both directions.
pub fn pairs_of(alloc: Global, links: &[Link]) -> Result<Vec<Pair>, ViewFault> {
    let mut to = [0u64; NODES_MAX];
    for link in links {
        let from = usize::from(link.from);
        if from < NODES_MAX {
            to[from] |= bit(link.to);
        }
    }
    let mut pairs = Vec::new(alloc);
    for link in links {
        let (a, b) = (usize::from(link.from), usize::from(link.to));
        if a < NODES_MAX && b < NODES_MAX && to[b] & bit(link.from) != 0 {
            pairs.push(Pair {
                from: link.from,
                to: link.to,
            })?;
        }
    }
    Ok(pairs)
}

/// The word with the bit of a node.
fn bit(node: u8) -> u64 {
    1u64.wrapping_shl(u32::from(node))
}

/// How many hops each node is from a node; None for one that no pairs of links lead to.
pub fn hops_from(pairs: &[Pair], node: u8) -> [Option<u64>; NODES_MAX] {
    let mut hops = [None; NODES_MAX];
    if usize::from(node) < NODES_MAX {
        hops[usize::from(node)] = Some(0);
    }
    for far in 0..NODES_MAX as u64 {
        hops = with_next(pairs, hops, far);
    }
    hops
}

/// With the nodes that are one hop farther than those `far` hops away.
fn with_next(pairs: &[Pair], hops: [Option<u64>; NODES_MAX], far: u64) -> [Option<u64>; NODES_MAX] {
    let mut hops = hops;
    for pair in pairs {
        let (from, to) = (usize::from(pair.from), usize::from(pair.to));
        if from < NODES_MAX && to < NODES_MAX && hops[to].is_none() && hops[from] == Some(far) {
            hops[to] = Some(far.saturating_add(1));
        }
    }
    hops
}
