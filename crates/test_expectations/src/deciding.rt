//! Whether a fact, and an expectation, holds of a run.

ghost use Rattle.std.specs.Prelude.{◌≡◌, ◌≤◌, sum_by, IfOk};
ghost use Rattle.std.specs.List.{list_all};
ghost use Rattle.mate_journal.specs.Tidy.{below};
ghost use Rattle.test_expectations.specs.Facts.{is_seen_on, sent_length, bytes_sent};
ghost use Rattle.test_expectations.specs.Facts.{fact_holds, literal_holds, conjunction_holds, expectation_holds};

use crate::fact::{Expectation, Fact, Literal, RunOutcome};
use crate::pattern::is_asked_node;
use crate::relation::{Relation, all_related};
use crate::seen::{Sighting, sightings};
use crate::shown::{are_at_rest, nodes_show};
use mate_journal::{Air, Aired};
use mate_num::NoMemory;
use std::alloc::Global;

/// Whether one of the sightings is on a node.
pub(crate) fn is_seen_on(seen: &[Sighting], node: usize) -> bool
    ensures { result ≡ is_seen_on seen.now node }
{
    seen.iter().any(|sighting| sighting.node == node)
}

/// Whether each of the first nodes has one of the sightings.
fn are_seen_on_each(seen: &[Sighting], nodes: usize) -> bool
    ensures { result ≡ list_all (is_seen_on seen.now) (below nodes) }
{
    let mut all = true;
    for node in 0..nodes {
        all = all && is_seen_on(seen, node);
    }
    all
}

fn sent_length(air: &Air) -> u64
    ensures value { result ≡ sent_length air.now }
    ensures few { result ≤ 64 }
{
    match air {
        Air::Sent { bytes, .. } => bytes.len() as u64,
        _ => 0,
    }
}

/// How many bytes a record of the air sends from a node that is asked for.
fn bytes_sent(node: Option<u8>, aired: &Aired) -> u64
    ensures value { result ≡ bytes_sent node aired.now }
    ensures few { result ≤ 64 }
{
    if is_asked_node(node, usize::from(aired.node)) {
        sent_length(&aired.air)
    } else {
        0
    }
}

/// How many bytes the packets of a node have together, or those of all nodes.
pub(crate) fn all_bytes_sent(node: Option<u8>, air: &[Aired]) -> u64
    ensures { result ≡ sum_by (bytes_sent node) air.now }
{
    let mut bytes = 0;
    for aired in air {
        bytes += bytes_sent(node, aired);
    }
    bytes
}

/// Whether a fact holds of a run. `NoMemory` is the only refusal.
pub fn fact_holds(alloc: Global, outcome: &RunOutcome<'_>, fact: &Fact) -> Result<bool, NoMemory>
    ensures { IfOk result (λ held. held ≡ fact_holds outcome.now fact.now) }
{
    let report = outcome.report;
    match fact {
        Fact::Status { status } => Ok(outcome.status == *status),
        Fact::Refused { line } => Ok(outcome.refusal == line.as_str().as_bytes()),
        Fact::Serial => Ok(outcome.is_serial),
        Fact::AtRest => Ok(are_at_rest(report.nodes())),
        Fact::Count {
            pattern,
            least,
            most,
        } => {
            let seen = sightings(alloc, pattern, report)?;
            let count = seen.len() as u64;
            Ok(*least <= count && count <= *most)
        }
        Fact::OnEach { pattern } => {
            let seen = sightings(alloc, pattern, report)?;
            Ok(are_seen_on_each(seen.as_slice(), report.nodes().len()))
        }
        Fact::Before { first, second } => {
            let firsts = sightings(alloc, first, report)?;
            let seconds = sightings(alloc, second, report)?;
            Ok(all_related(Relation::Earlier, seconds.as_slice(), firsts.as_slice()))
        }
        Fact::Within { effect, cause, ms } => {
            let causes = sightings(alloc, cause, report)?;
            let effects = sightings(alloc, effect, report)?;
            Ok(all_related(
                Relation::SoonAfter { ms: *ms },
                causes.as_slice(),
                effects.as_slice(),
            ))
        }
        Fact::Shows {
            place,
            when,
            by,
            node,
        } => Ok(nodes_show(place, *when, *by, *node, report.nodes())),
        Fact::BytesAtMost { node, most } => Ok(all_bytes_sent(*node, report.air()) <= *most),
    }
}

pub(crate) fn literal_holds(
    alloc: Global,
    outcome: &RunOutcome<'_>,
    literal: &Literal,
) -> Result<bool, NoMemory>
    ensures { IfOk result (λ held. held ≡ literal_holds outcome.now literal.now) }
{
    let held = fact_holds(alloc, outcome, &literal.fact)?;
    Ok(if literal.negated { !held } else { held })
}

/// Whether each literal holds of a run. `NoMemory` is the only refusal.
pub fn conjunction_holds(
    alloc: Global,
    outcome: &RunOutcome<'_>,
    literals: &[Literal],
) -> Result<bool, NoMemory>
    ensures { IfOk result (λ held. held ≡ conjunction_holds outcome.now literals.now) }
{
    for at in 0..literals.len() {
        if !literal_holds(alloc, outcome, &literals[at])? {
            return Ok(false);
        }
    }
    Ok(true)
}

/// Whether an expectation holds of a run. `NoMemory` is the only refusal.
pub fn expectation_holds(
    alloc: Global,
    outcome: &RunOutcome<'_>,
    expectation: &Expectation,
) -> Result<bool, NoMemory>
    ensures { IfOk result (λ held. held ≡ expectation_holds outcome.now expectation.now) }
{
    let conjunctions = expectation.as_slice();
    for at in 0..conjunctions.len() {
        if conjunction_holds(alloc, outcome, conjunctions[at].as_slice())? {
            return Ok(true);
        }
    }
    Ok(false)
}
