//! What a report shows of a node.

ghost use Rattle.std.specs.Prelude.{◌≡◌, ◌≤◌, ◌<◌, ◌+◌, ◌^◌, fold};
ghost use Rattle.std.specs.List.{list_all};
ghost use Rattle.std.specs.Option.{option_copied, option_to_list};
ghost use Rattle.mate_num.specs.Store.{buffer_at};
ghost use Rattle.test_expectations.specs.Shown.{place_holds, shown_in, shown_by, at_first, with_next, log_shows, live_after, is_at_rest};
ghost use Rattle.test_expectations.specs.Facts.{on_nodes};

use crate::fact::{Place, When};
use crate::pattern::in_ranges;
use mate_journal::{Entry, NodeLog, Stamped};
use mate_num::{BufId, Store};

/// The values in a buffer, or no values if there is no such buffer.
fn values_in(store: &Store, buffer: BufId) -> &[i16]
    ensures { result.now ≡ buffer_at store.now buffer.0 }
{
    match store.buffers.as_slice().get(usize::from(buffer.0)) {
        Some(values) => values.as_slice(),
        None => &[],
    }
}

impl Place {
    pub(crate) fn holds(&self, store: &Store) -> bool
        ensures { result ≡ place_holds self.now store.now }
    {
        match self {
            Place::Variable { variable, range } => {
                match store.shared.as_slice().get(usize::from(variable.0)) {
                    Some(value) => range.has(*value),
                    None => false,
                }
            }
            Place::Buffer { buffer, ranges } => {
                in_ranges(ranges.as_slice(), values_in(store, *buffer))
            }
        }
    }
}

/// The store that an entry shows.
fn shown_in<'a>(stores: &'a [Store], entry: &Entry) -> Option<&'a Store>
    ensures { option_copied result ≡ shown_in stores.now entry.now }
{
    match entry {
        Entry::Seen { store } => stores.get(*store as usize),
        _ => None,
    }
}

/// The store that an entry of a log shows up to a time.
pub(crate) fn shown_by<'a>(by: u32, log: &'a NodeLog, stamped: &Stamped) -> Option<&'a Store>
    ensures { option_copied result ≡ shown_by by log.now.stores stamped.now }
{
    if stamped.stamp.time <= by {
        shown_in(log.stores(), &stamped.entry)
    } else {
        None
    }
}

impl When {
    fn at_first(self) -> bool
        ensures { result ≡ at_first self }
    {
        match self {
            When::Last => false,
            When::Always => true,
        }
    }

    fn with_next(self, before: bool, now: bool) -> bool
        ensures { result ≡ with_next self before now }
    {
        match self {
            When::Last => now,
            When::Always => before && now,
        }
    }
}

/// What held of the stores so far, with one more, if there is one.
fn held_after(place: &Place, when: When, held: bool, store: Option<&Store>) -> bool
    ensures { result ≡ fold (λ before s. with_next when before (place_holds place.now s)) held (option_to_list (option_copied store.entry)) }
{
    match store {
        Some(store) => when.with_next(held, place.holds(store)),
        None => held,
    }
}

/// Whether what a log shows of a place up to a time is in its ranges.
pub(crate) fn log_shows(place: &Place, when: When, by: u32, log: &NodeLog) -> bool
    ensures { result ≡ log_shows place.now when by log.now }
{
    let mut held = when.at_first();
    for stamped in log.entries() {
        held = held_after(place, when, held, shown_by(by, log, stamped));
    }
    held
}

/// The same for each log.
fn logs_show(place: &Place, when: When, by: u32, logs: &[NodeLog]) -> bool
    ensures { result ≡ list_all (log_shows place.now when by) logs.now }
{
    for at in 0..logs.len() {
        if !log_shows(place, when, by, &logs[at]) {
            return false;
        }
    }
    true
}

/// The same for a node, which must be there, or for each node.
pub(crate) fn nodes_show(
    place: &Place,
    when: When,
    by: u32,
    node: Option<u8>,
    logs: &[NodeLog],
) -> bool
    ensures { result ≡ on_nodes node (log_shows place.now when by) logs.now }
{
    match node {
        Some(node) => match logs.get(usize::from(node)) {
            Some(log) => log_shows(place, when, by, log),
            None => false,
        },
        None => logs_show(place, when, by, logs),
    }
}

/// How many invocations are live after an entry.
fn live_after(live: usize, entry: &Entry) -> usize
    requires { live < 2 ^ 60 }
    ensures value { result ≡ live_after live entry.now }
    ensures most { result ≤ live + 1 }
{
    match entry {
        Entry::Post { .. } => live + 1,
        Entry::Halt { .. } => live.saturating_sub(1),
        Entry::Fault { .. } => live.saturating_sub(1),
        Entry::Install { .. } => 0,
        Entry::Reset => 0,
        _ => live,
    }
}

/// Whether no invocation is live at the end of a log.
fn is_at_rest(log: &NodeLog) -> bool
    ensures { result ≡ is_at_rest log.now }
{
    let mut live = 0;
    for stamped in log.entries() {
        live = live_after(live, &stamped.entry);
    }
    live == 0
}

/// Whether no invocation is live at the end of each log.
pub(crate) fn are_at_rest(logs: &[NodeLog]) -> bool
    ensures { result ≡ list_all is_at_rest logs.now }
{
    for at in 0..logs.len() {
        if !is_at_rest(&logs[at]) {
            return false;
        }
    }
    true
}
