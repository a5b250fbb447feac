//! What the command `gen` is asked for.

/// Which made world to run: the one that a number makes, on a machine.
#[derive(Clone, Copy)]
pub struct MadeRun<'a> {
    pub number: u64,
    /// A description's file, or `builtin`.
    pub machine: &'a str,
    /// Whether sources are folded before they are compiled.
    pub fold: bool,
    /// Whether the summary of the report is asked for instead of its text.
    pub brief: bool,
}
