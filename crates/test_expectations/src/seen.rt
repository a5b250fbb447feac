//! Where a pattern is seen in a report.

ghost use Rattle.std.specs.Prelude.{◌≡◌, ◌++◌, filter_map, IfOk, OnOk};
ghost use Rattle.std.specs.Option.{option_to_list};
ghost use Rattle.test_expectations.specs.Patterns.{post_handler, posted};
ghost use Rattle.test_expectations.specs.Sightings.{by_number, entry_sighting, entry_sightings, log_sightings, air_sighting, sightings};

use crate::pattern::{Pattern, is_asked_node};
use mate_journal::{Aired, Entry, NodeLog, Report, Stamped};
use mate_num::{HandlerId, NoMemory, Stamp};
use std::alloc::Global;

/// Where and when something is seen in a report.
#[derive(Clone, Copy)]
pub struct Sighting {
    pub node: usize,
    /// The number of its entry in the node's log, from 1; 0 for what happens on the air.
    pub place: usize,
    pub stamp: Stamp,
}

/// Appends an item, if there is one.
fn push_some<T: Drop>(items: &mut Vec<T>, item: Option<T>) -> Result<(), NoMemory>
    ensures { OnOk result (items.new.items ≡ items.old.items ++ option_to_list item) }
{
    match item {
        Some(item) => {
            items.push(item)?;
            Ok(())
        }
        None => Ok(()),
    }
}

fn post_handler(entry: &Entry) -> Option<HandlerId>
    ensures { result ≡ post_handler entry.now }
{
    match entry {
        Entry::Post { handler, .. } => Some(*handler),
        _ => None,
    }
}

/// The handlers of the posts among entries, in order.
fn posted(alloc: Global, entries: &[Stamped]) -> Result<Vec<HandlerId>, NoMemory>
    ensures { IfOk result (λ posts. posts.items ≡ posted entries.now) }
{
    let mut posts = Vec::new(alloc);
    for stamped in entries {
        push_some(&mut posts, post_handler(&stamped.entry))?;
    }
    Ok(posts)
}

/// The sighting that an entry of a node is, if it is one.
fn entry_sighting(
    pattern: &Pattern,
    posts: &[HandlerId],
    node: usize,
    place: usize,
    stamped: &Stamped,
) -> Option<Sighting>
    ensures { result ≡ entry_sighting pattern.now posts.now node place stamped.now }
{
    if pattern.matches(posts, stamped) {
        Some(Sighting {
            node,
            place,
            stamp: stamped.stamp,
        })
    } else {
        None
    }
}

/// Appends the sightings among entries of a node.
fn add_entries(
    pattern: &Pattern,
    posts: &[HandlerId],
    node: usize,
    entries: &[Stamped],
    seen: &mut Vec<Sighting>,
) -> Result<(), NoMemory>
    ensures { OnOk result (seen.new.items ≡ seen.old.items ++ by_number (entry_sightings pattern.now posts.now node) 1 entries.now) }
{
    for at in 0..entries.len() {
        let sighting = entry_sighting(pattern, posts, node, at + 1, &entries[at]);
        push_some(seen, sighting)?;
    }
    Ok(())
}

/// Appends the sightings in a node's log.
fn add_log(
    alloc: Global,
    pattern: &Pattern,
    node: usize,
    log: &NodeLog,
    seen: &mut Vec<Sighting>,
) -> Result<(), NoMemory>
    ensures { OnOk result (seen.new.items ≡ seen.old.items ++ log_sightings pattern.now node log.now) }
{
    if !is_asked_node(pattern.node, node) {
        return Ok(());
    }
    let posts = posted(alloc, log.entries())?;
    add_entries(pattern, posts.as_slice(), node, log.entries(), seen)
}

/// Appends the sightings in the logs of all nodes.
fn add_logs(
    alloc: Global,
    pattern: &Pattern,
    logs: &[NodeLog],
    seen: &mut Vec<Sighting>,
) -> Result<(), NoMemory>
    ensures { OnOk result (seen.new.items ≡ seen.old.items ++ by_number (log_sightings pattern.now) 0 logs.now) }
{
    for node in 0..logs.len() {
        add_log(alloc, pattern, node, &logs[node], seen)?;
    }
    Ok(())
}

/// The sighting that a record of the air is, if it is one.
fn air_sighting(pattern: &Pattern, aired: &Aired) -> Option<Sighting>
    ensures { result ≡ air_sighting pattern.now aired.now }
{
    if pattern.matches_air(aired) {
        Some(Sighting {
            node: usize::from(aired.node),
            place: 0,
            stamp: aired.stamp,
        })
    } else {
        None
    }
}

/// Appends the sightings on the air.
fn add_air(pattern: &Pattern, air: &[Aired], seen: &mut Vec<Sighting>) -> Result<(), NoMemory>
    ensures { OnOk result (seen.new.items ≡ seen.old.items ++ filter_map (air_sighting pattern.now) air.now) }
{
    for aired in air {
        push_some(seen, air_sighting(pattern, aired))?;
    }
    Ok(())
}

/// Where a pattern is seen in a report: on each node, in the order of its log, and then on the air. `NoMemory` is the only refusal.
pub fn sightings(
    alloc: Global,
    pattern: &Pattern,
    report: &Report,
) -> Result<Vec<Sighting>, NoMemory>
    ensures { IfOk result (λ seen. seen.items ≡ sightings pattern.now report.now) }
{
    let mut seen = Vec::new(alloc);
    add_logs(alloc, pattern, report.nodes(), &mut seen)?;
    add_air(pattern, report.air(), &mut seen)?;
    Ok(seen)
}
