//! Patterns: what may be looked for in a report.

ghost use Rattle.std.specs.Prelude.{◌≡◌, ◌-◌, ◌&&◌, length, zip, slice_get};
ghost use Rattle.std.specs.List.{list_all};
ghost use Rattle.test_expectations.specs.Patterns.{is_asked, same_kind, is_asked_kind, in_range, in_ranges, says, says_air};
ghost use Rattle.test_expectations.specs.Patterns.{is_asked_handler, entry_handler, in_window, entry_matches};

use arrayvec::ArrayVec;
use mate_journal::{Air, Aired, Entry, Stamped};
use mate_num::{FaultKind, FunId, HandlerId, PAYLOAD_MAX, Stamp};

/// Values from `low` to `high`, both among them.
#[derive(Clone, Copy, Default)]
pub struct ValueRange {
    pub low: i16,
    pub high: i16,
}

impl ValueRange {
    pub fn has(&self, value: i16) -> bool
        ensures { result ≡ in_range self.now value }
    {
        self.low <= value && value <= self.high
    }
}

/// A range for each argument of a call, or for each value of a buffer.
pub type ValueRanges = ArrayVec<ValueRange, PAYLOAD_MAX>;

/// Whether there are as many values as ranges, each in its range.
pub(crate) fn in_ranges(ranges: &[ValueRange], values: &[i16]) -> bool
    ensures { result ≡ in_ranges ranges.now values.now }
{
    ranges.len() == values.len() && have_each(ranges, values)
}

fn have_each(ranges: &[ValueRange], values: &[i16]) -> bool
    ensures { result ≡ list_all (λ p. in_range p.0 p.1) (zip ranges.now values.now) }
{
    ranges
        .iter()
        .zip(values)
        .all(|(range, value)| range.has(*value))
}

/// What happens on a node or on the air.
#[derive(Drop)]
pub enum Happening {
    /// An event for a handler became an invocation.
    Posted,
    /// An event for a handler made no invocation.
    Dropped,
    /// An invocation was granted its locks.
    Started,
    /// An invocation called a function.
    Called { fun: FunId },
    /// It called the function with arguments in these ranges.
    CalledWith { fun: FunId, ranges: ValueRanges },
    /// An invocation ran to its end.
    Halted,
    /// An invocation was stopped, for this kind of fault if one is given.
    Faulted { kind: Option<FaultKind> },
    /// A capsule was installed, of this version if one is given.
    Installed { version: Option<u32> },
    /// A node was reset.
    Reset,
    /// A node sent a packet.
    Sent,
    /// A packet of a node did not reach another one.
    Lost,
    /// A node received a packet.
    Got,
    /// A node heard bytes that are no packet.
    Noise,
}

/// What is looked for: a happening, of this handler and on this node if they are given, at times from `from` to `by` in ms,
/// both among them.
#[derive(Drop)]
pub struct Pattern {
    pub happening: Happening,
    pub handler: Option<HandlerId>,
    pub node: Option<u8>,
    pub from: u32,
    pub by: u32,
}

fn same_kind(asked: FaultKind, kind: FaultKind) -> bool
    ensures { result ≡ same_kind asked kind }
{
    match (asked, kind) {
        (FaultKind::DivZero, FaultKind::DivZero) => true,
        (FaultKind::Index, FaultKind::Index) => true,
        (FaultKind::BufferFull, FaultKind::BufferFull) => true,
        (FaultKind::BufferEmpty, FaultKind::BufferEmpty) => true,
        (FaultKind::Overrun, FaultKind::Overrun) => true,
        _ => false,
    }
}

fn is_asked_kind(asked: Option<FaultKind>, kind: FaultKind) -> bool
    ensures { result ≡ is_asked_kind asked kind }
{
    match asked {
        Some(asked) => same_kind(asked, kind),
        None => true,
    }
}

fn is_asked_version(asked: Option<u32>, version: u32) -> bool
    ensures { result ≡ is_asked asked version }
{
    match asked {
        Some(asked) => asked == version,
        None => true,
    }
}

/// Whether a node is the one that is asked for, if one is.
pub(crate) fn is_asked_node(asked: Option<u8>, node: usize) -> bool
    ensures { result ≡ is_asked asked node }
{
    match asked {
        Some(asked) => usize::from(asked) == node,
        None => true,
    }
}

fn is_asked_handler(asked: Option<HandlerId>, handler: Option<HandlerId>) -> bool
    ensures { result ≡ is_asked_handler asked handler }
{
    match (asked, handler) {
        (None, _) => true,
        (Some(_), None) => false,
        (Some(asked), Some(handler)) => asked.0 == handler.0,
    }
}

/// The handler of an invocation, among those of the posts.
fn handler_of(posts: &[HandlerId], inv: u32) -> Option<HandlerId>
    ensures { result ≡ slice_get posts.now (inv - 1) }
{
    posts.get((inv as usize).saturating_sub(1)).copied()
}

/// The handler of an entry, among those of the posts of its log.
fn entry_handler(posts: &[HandlerId], entry: &Entry) -> Option<HandlerId>
    ensures { result ≡ entry_handler posts.now entry.now }
{
    match entry {
        Entry::Post { handler, .. } => Some(*handler),
        Entry::Dropped { handler, .. } => Some(*handler),
        Entry::Install { handler, .. } => Some(*handler),
        Entry::Start { inv } => handler_of(posts, *inv),
        Entry::Ask { inv, .. } => handler_of(posts, *inv),
        Entry::Answer { inv, .. } => handler_of(posts, *inv),
        Entry::Halt { inv } => handler_of(posts, *inv),
        Entry::Fault { inv, .. } => handler_of(posts, *inv),
        Entry::Reset | Entry::Seen { .. } | Entry::Void { .. } => None,
    }
}

impl Happening {
    /// Whether what an entry says is this, whichever its handler is.
    fn is_said_by(&self, entry: &Entry) -> bool
        ensures { result ≡ says self.now entry.now }
    {
        match (self, entry) {
            (Happening::Posted, Entry::Post { .. }) => true,
            (Happening::Dropped, Entry::Dropped { .. }) => true,
            (Happening::Started, Entry::Start { .. }) => true,
            (Happening::Called { fun }, Entry::Ask { fun: called, .. }) => fun.0 == called.0,
            (
                Happening::CalledWith { fun, ranges },
                Entry::Ask {
                    fun: called,
                    args,
                    ..
                },
            ) => fun.0 == called.0 && in_ranges(ranges.as_slice(), args.as_slice()),
            (Happening::Halted, Entry::Halt { .. }) => true,
            (Happening::Faulted { kind: asked }, Entry::Fault { kind, .. }) => {
                is_asked_kind(*asked, *kind)
            }
            (Happening::Installed { version: asked }, Entry::Install { version, .. }) => {
                is_asked_version(*asked, *version)
            }
            (Happening::Reset, Entry::Reset) => true,
            _ => false,
        }
    }

    /// Whether it is what happened on the air.
    fn is_said_on_air(&self, air: &Air) -> bool
        ensures { result ≡ says_air self.now air.now }
    {
        match (self, air) {
            (Happening::Sent, Air::Sent { .. }) => true,
            (Happening::Lost, Air::Lost { .. }) => true,
            (Happening::Got, Air::Got { .. }) => true,
            (Happening::Noise, Air::Noise { .. }) => true,
            _ => false,
        }
    }
}

impl Pattern {
    fn is_in_window(&self, at: Stamp) -> bool
        ensures { result ≡ in_window self.now at }
    {
        self.from <= at.time && at.time <= self.by
    }

    /// Whether an entry of a log with these posts is what is looked for, whichever its node is.
    pub(crate) fn matches(&self, posts: &[HandlerId], stamped: &Stamped) -> bool
        ensures { result ≡ entry_matches self.now posts.now stamped.now }
    {
        self.is_in_window(stamped.stamp)
            && self.happening.is_said_by(&stamped.entry)
            && is_asked_handler(self.handler, entry_handler(posts, &stamped.entry))
    }

    /// Whether what happened on the air is what is looked for.
    pub(crate) fn matches_air(&self, aired: &Aired) -> bool
        ensures { result ≡ (in_window self.now aired.now.stamp && is_asked self.now.node aired.now.node
            && says_air self.now.happening aired.now.air) }
    {
        self.is_in_window(aired.stamp)
            && is_asked_node(self.node, usize::from(aired.node))
            && self.happening.is_said_on_air(&aired.air)
    }
}
