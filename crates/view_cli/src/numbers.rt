//! Numbers and lists of nodes in words.

use mate_num::NODES_MAX;
use report_line_reader::numbers::{below, unsigned};
use view_records::kind_bit;

/// The number in a word, below 2^64, with no sign and no 0 before it; `none` if there is no word.
pub fn number_or(word: Option<&str>, none: u64) -> Option<u64> {
    match word {
        Some(word) => unsigned(word.as_bytes()),
        None => Some(none),
    }
}

/// The nodes of a list such as `0,3,8-15`, a bit for each; None if the word is no such list, or has a range from a greater
/// number to a smaller one.
pub fn nodes_of(word: &str) -> Option<u64> {
    let mut nodes = 0u64;
    for part in word.split(',') {
        let (first, last) = part.split_once('-').unwrap_or((part, part));
        let (first, last) = (node_of(first)?, node_of(last)?);
        if last < first {
            return None;
        }
        nodes |= nodes_between(first, last);
    }
    Some(nodes)
}

/// The kinds of a list such as `installs,losses`, a bit for each; None if the word is no such list.
pub fn kinds_of(word: &str) -> Option<u32> {
    let mut kinds = 0u32;
    for part in word.split(',') {
        kinds |= kind_bit(part)?;
    }
    Some(kinds)
}

/// The number of a node, below `NODES_MAX`.
fn node_of(word: &str) -> Option<u64> {
    below(word.as_bytes(), NODES_MAX as u64)
}

/// The nodes from `first` to `last`, a bit for each.
fn nodes_between(first: u64, last: u64) -> u64 {
    let mut nodes = 0u64;
    for node in 0..NODES_MAX as u64 {
        if first <= node && node <= last {
            nodes |= 1 << node;
        }
    }
    nodes
}
