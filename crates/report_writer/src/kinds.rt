//! The kinds of entries and of records of the air that a summary counts.

/// The kinds of entries that are counted.
#[derive(Clone, Copy)]
pub enum EntryKind {
    Post,
    Drop,
    Halt,
    Fault,
    Install,
}

/// What is counted on the air.
#[derive(Clone, Copy)]
pub enum AirKind {
    Sent,
    Got,
    Lost,
}
