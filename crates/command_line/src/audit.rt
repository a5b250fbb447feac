//! What the command `audit` is asked for.

/// Whether a report shows serial behaviour of what a script runs.
#[derive(Clone, Copy)]
pub struct Audit<'a> {
    /// A description's file, or `builtin`.
    pub machine: &'a str,
    /// The file of a node script or of a world.
    pub script: &'a str,
    pub report: &'a str,
    /// Whether sources are folded before they are compiled.
    pub fold: bool,
}
