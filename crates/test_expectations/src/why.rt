//! Why an expectation doesn't hold, for whoever reads of a failed test.

use crate::deciding::{all_bytes_sent, is_seen_on, literal_holds};
use crate::fact::{Expectation, Fact, Literal, Place, RunOutcome, When};
use crate::pattern::{Pattern, is_asked_node};
use crate::relation::{Relation, place_of_related};
use crate::seen::{Sighting, sightings};
use crate::shown::shown_by;
use mate_journal::{NodeLog, Report};
use mate_num::NoMemory;
use std::alloc::Global;

/// What shows that an expectation doesn't hold.
#[derive(Clone, Copy)]
pub enum Why {
    /// This record.
    Record(Sighting),
    /// The pattern is not seen on this node.
    NotOn { node: usize },
    /// The pattern is seen so many times.
    Seen { times: usize },
    /// So many bytes are sent.
    Bytes { count: u64 },
    /// No store of this node is shown up to the time.
    NotShown { node: usize },
    /// The status of the run, or the line of its refusal.
    Ending,
    /// No record alone.
    Whole,
}

/// Why the expectation doesn't hold of a run: the first literal of its first conjunction that doesn't. `NoMemory` is the only refusal.
pub fn why_not(
    alloc: Global,
    outcome: &RunOutcome<'_>,
    expectation: &Expectation,
) -> Result<Why, NoMemory> {
    let Some(conjunction) = expectation.get(0) else {
        return Ok(Why::Whole);
    };
    let literals = conjunction.as_slice();
    for at in 0..literals.len() {
        if !literal_holds(alloc, outcome, &literals[at])? {
            return why_literal(alloc, outcome, &literals[at]);
        }
    }
    Ok(Why::Whole)
}

/// Why a literal doesn't hold.
fn why_literal(
    alloc: Global,
    outcome: &RunOutcome<'_>,
    literal: &Literal,
) -> Result<Why, NoMemory> {
    let report = outcome.report;
    match &literal.fact {
        Fact::Status { .. } | Fact::Refused { .. } => Ok(Why::Ending),
        Fact::Count { pattern, .. } if literal.negated => counted(alloc, report, pattern, 0),
        Fact::Count { pattern, most, .. } => counted(alloc, report, pattern, *most),
        _ if literal.negated => Ok(Why::Whole),
        Fact::Serial | Fact::AtRest => Ok(Why::Whole),
        Fact::OnEach { pattern } => missing(alloc, report, pattern),
        Fact::Before { first, second } => {
            unrelated(alloc, report, Relation::Earlier, second, first)
        }
        Fact::Within { effect, cause, ms } => {
            let relation = Relation::SoonAfter { ms: *ms };
            unrelated(alloc, report, relation, cause, effect)
        }
        Fact::Shows {
            place,
            when,
            by,
            node,
        } => Ok(not_shown(place, *when, *by, *node, report.nodes())),
        Fact::BytesAtMost { node, .. } => Ok(Why::Bytes {
            count: all_bytes_sent(*node, report.air()),
        }),
    }
}

/// The sighting after `most` ones, or how many there are.
fn counted(alloc: Global, report: &Report, pattern: &Pattern, most: u64) -> Result<Why, NoMemory> {
    let seen = sightings(alloc, pattern, report)?;
    if most < seen.len() as u64 {
        if let Some(sighting) = seen.get(most as usize) {
            return Ok(Why::Record(*sighting));
        }
    }
    Ok(Why::Seen { times: seen.len() })
}

/// The first node on which the pattern isn't seen.
fn missing(alloc: Global, report: &Report, pattern: &Pattern) -> Result<Why, NoMemory> {
    let seen = sightings(alloc, pattern, report)?;
    for node in 0..report.nodes().len() {
        if !is_seen_on(seen.as_slice(), node) {
            return Ok(Why::NotOn { node });
        }
    }
    Ok(Why::Whole)
}

/// The first sighting of a pattern to which none of the other one is so related.
fn unrelated(
    alloc: Global,
    report: &Report,
    relation: Relation,
    pattern: &Pattern,
    other: &Pattern,
) -> Result<Why, NoMemory> {
    let each = sightings(alloc, pattern, report)?;
    let others = sightings(alloc, other, report)?;
    for at in 0..each.len() {
        if place_of_related(relation, &each[at], others.as_slice()).is_none() {
            return Ok(Why::Record(each[at]));
        }
    }
    Ok(Why::Whole)
}

/// What the first log shows that doesn't have the place in its ranges.
fn not_shown(place: &Place, when: When, by: u32, asked: Option<u8>, logs: &[NodeLog]) -> Why {
    for node in 0..logs.len() {
        if is_asked_node(asked, node) {
            if let Some(why) = badly_shown(place, when, by, node, &logs[node]) {
                return why;
            }
        }
    }
    Why::Whole
}

/// The entry of a log that shows the place out of its ranges, or that nothing is shown.
fn badly_shown(place: &Place, when: When, by: u32, node: usize, log: &NodeLog) -> Option<Why> {
    let entries = log.entries();
    let mut why = match when {
        When::Last => Some(Why::NotShown { node }),
        When::Always => None,
    };
    for at in 0..entries.len() {
        if let Some(store) = shown_by(by, log, &entries[at]) {
            let record = Why::Record(Sighting {
                node,
                place: at + 1,
                stamp: entries[at].stamp,
            });
            why = match when {
                When::Last if place.holds(store) => None,
                When::Last => Some(record),
                When::Always if place.holds(store) || why.is_some() => why,
                When::Always => Some(record),
            };
        }
    }
    why
}
