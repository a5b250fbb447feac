//! What is in a log, or in a record of the air, after a place in it. Each function is a law about what it is given:
//! it reads it, and changes nothing.

ghost use Rattle.std.specs.Prelude.{◌≡◌, length, drop, All};
ghost use Rattle.mate_journal.specs.Ranges.{HasAiredRanges};
ghost use Rattle.journal_laws.specs.InRange.{IsSizeOf, IsInRangeFrom};

use crate::ranges::{
    airs_are_in_range, entries_are_in_range, images_are_in_range, stores_are_in_range,
};
use mate_journal::{Aired, NodeLog};

/// How many entries, images and stores a log has.
#[derive(Clone, Copy)]
pub struct LogSize {
    pub entries: usize,
    pub images: usize,
    pub stores: usize,
}

impl LogSize {
    /// The size of this log.
    pub fn of(log: &NodeLog) -> LogSize
        ensures { IsSizeOf result log.now }
    {
        LogSize {
            entries: log.entries().len(),
            images: log.images().len(),
            stores: log.stores().len(),
        }
    }
}

/// What is behind the first `count` items, if there is anything.
fn behind<T>(items: &[T], count: usize) -> &[T]
    ensures { result.now ≡ drop count items.now }
{
    if count < items.len() {
        items.split_at(count).1
    } else {
        &[]
    }
}

/// What is in the log after its first `size` items is in the ranges of its types.
pub fn log_is_in_range_from(log: &NodeLog, size: LogSize)
    ensures { IsInRangeFrom size log.now }
{
    entries_are_in_range(behind(log.entries(), size.entries));
    images_are_in_range(behind(log.images(), size.images));
    stores_are_in_range(behind(log.stores(), size.stores));
}

/// What is on the air after the first `count` records is in the ranges of its types.
pub fn air_is_in_range_from(air: &[Aired], count: usize)
    ensures { All HasAiredRanges (drop count air.now) }
{
    airs_are_in_range(behind(air, count));
}
