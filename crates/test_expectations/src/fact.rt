//! Facts, which are true or false of a run, and expectations, which are made of them.

use crate::pattern::{Pattern, ValueRange, ValueRanges};
use mate_journal::Report;
use mate_num::{BufId, Items, Text, VarId};

/// A shared variable with a range for its value, or a buffer with a range for each of its values.
#[derive(Drop)]
pub enum Place {
    Variable { variable: VarId, range: ValueRange },
    Buffer { buffer: BufId, ranges: ValueRanges },
}

/// Of which of the stores that a report shows.
#[derive(Clone, Copy)]
pub enum When {
    /// Of the last one, which must be there.
    Last,
    /// Of each one.
    Always,
}

/// What is true or false of a run.
#[derive(Drop)]
pub enum Fact {
    /// The run ends with this exit status of `mate`.
    Status {
        status: u8,
    },
    /// It is refused with this line.
    Refused {
        line: Text,
    },
    /// Its report shows serial behaviour.
    Serial,
    /// Nothing is live on any node at the end.
    AtRest,
    /// The pattern is seen so many times.
    Count {
        pattern: Pattern,
        least: u64,
        most: u64,
    },
    /// The pattern is seen on each node.
    OnEach {
        pattern: Pattern,
    },
    /// Each sighting of the second comes in a later event than one of the first.
    Before {
        first: Pattern,
        second: Pattern,
    },
    /// Each sighting of the cause has one of the effect in the same event or later, at most `ms` after it.
    Within {
        effect: Pattern,
        cause: Pattern,
        ms: u32,
    },
    /// What is shown up to a time of a variable or a buffer is in its ranges, on this node or on each one.
    Shows {
        place: Place,
        when: When,
        by: u32,
        node: Option<u8>,
    },
    /// The packets of this node, or of all, have at most so many bytes together.
    BytesAtMost {
        node: Option<u8>,
        most: u64,
    },
}

/// A fact, or that it doesn't hold.
#[derive(Drop)]
pub struct Literal {
    pub negated: bool,
    pub fact: Fact,
}

/// Literals that hold together.
pub type Conjunction = Items<Literal>;

/// Conjunctions, one of which holds.
pub type Expectation = Items<Conjunction>;

/// What came of a run: the exit status that `mate` has for it; the line of its refusal, empty if there is none; whether its report
/// shows serial behaviour; and its report, which is empty if the run didn't begin.
#[derive(Clone, Copy)]
pub struct RunOutcome<'a> {
    pub status: u8,
    pub refusal: &'a [u8],
    pub is_serial: bool,
    pub report: &'a Report,
}
