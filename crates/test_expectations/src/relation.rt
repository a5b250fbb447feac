//! How sightings are related in time.

ghost use Rattle.std.specs.Prelude.{◌≡◌, ◌≤◌, ◌<◌, length, IfSome};
ghost use Rattle.std.specs.List.{list_any};
ghost use Rattle.std.specs.Option.{is_some};
ghost use Rattle.test_expectations.specs.Facts.{is_earlier, is_related, all_related};

use crate::seen::Sighting;

/// How a sighting is related to another one.
#[derive(Clone, Copy)]
pub enum Relation {
    /// It is in an earlier event, or in the same event on the same node in an earlier place.
    Earlier,
    /// It is in the same event or a later one, at most so many ms after it.
    SoonAfter { ms: u32 },
}

fn is_earlier(sighting: &Sighting, other: &Sighting) -> bool
    ensures { result ≡ is_earlier sighting.now other.now }
{
    sighting.stamp.event < other.stamp.event
        || (sighting.stamp.event == other.stamp.event
            && sighting.node == other.node
            && sighting.place < other.place)
}

fn is_related(relation: Relation, other: &Sighting, sighting: &Sighting) -> bool
    ensures { result ≡ is_related relation other.now sighting.now }
{
    match relation {
        Relation::Earlier => is_earlier(sighting, other),
        Relation::SoonAfter { ms } => {
            other.stamp.event <= sighting.stamp.event
                && u64::from(sighting.stamp.time) <= u64::from(other.stamp.time) + u64::from(ms)
        }
    }
}

/// The place of the first sighting that is so related to another one.
pub(crate) fn place_of_related(
    relation: Relation,
    other: &Sighting,
    sightings: &[Sighting],
) -> Option<usize>
    ensures any { is_some result ≡ list_any (is_related relation other.now) sightings.now }
    ensures within { IfSome result (λ place. place < length sightings.now) }
{
    for place in 0..sightings.len() {
        if is_related(relation, other, &sightings[place]) {
            return Some(place);
        }
    }
    None
}

/// The same, but looked for from `hint` on, and then among all: most sightings come in the order of those that they are related to.
fn place_from(
    relation: Relation,
    other: &Sighting,
    sightings: &[Sighting],
    hint: usize,
) -> Option<usize>
    requires { hint ≤ length sightings.now }
    ensures any { is_some result ≡ list_any (is_related relation other.now) sightings.now }
    ensures within { IfSome result (λ place. place < length sightings.now) }
{
    match place_of_related(relation, other, sightings.split_at(hint).1) {
        Some(place) => Some(hint + place),
        None => place_of_related(relation, other, sightings),
    }
}

/// Whether each of the first sightings has one of the second ones that is so related to it.
pub fn all_related(relation: Relation, each: &[Sighting], others: &[Sighting]) -> bool
    ensures { result ≡ all_related relation each.now others.now }
{
    let mut hint = 0;
    for at in 0..each.len() {
        match place_from(relation, &each[at], others, hint) {
            Some(place) => hint = place,
            None => return false,
        }
    }
    true
}
