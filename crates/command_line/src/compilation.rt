//! What the command `compile` is asked for.

ghost use Rattle.std.specs.Prelude.{◌≤◌};

/// What to compile: the source in a file, as a version of the code of the handler of this name.
#[derive(Clone, Copy)]
pub struct Compilation<'a> {
    /// A description's file, or `builtin`.
    pub machine: &'a str,
    pub handler: &'a str,
    /// 1 or more.
    pub version: u32,
    pub source: &'a str,
    /// Whether the source is folded before it is compiled.
    pub fold: bool,
    pub ghost numbered: { 1 ≤ version },
}
