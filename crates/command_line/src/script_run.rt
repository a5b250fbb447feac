//! What the commands `node` and `sim` are asked for.

/// Which script to run: the one in a file, on a machine.
#[derive(Clone, Copy)]
pub struct ScriptRun<'a> {
    /// A description's file, or `builtin`.
    pub machine: &'a str,
    pub script: &'a str,
    /// Whether sources are folded before they are compiled.
    pub fold: bool,
    /// Whether the summary of the report is asked for instead of its text.
    pub brief: bool,
}
