//! What the lines of a world's script say.

use script_steps::{Link, Planned, Series};

/// What one line says.
#[derive(Drop)]
pub enum Command<'a> {
    Nodes(u8),
    Random(u64),
    Until(u32),
    Suppress(bool),
    /// A link, and if `both` is true the one back as well.
    Link {
        link: Link,
        both: bool,
    },
    /// Values for a series.
    Series(Series),
    /// An event, with the name of its file.
    Plan {
        planned: Planned,
        file: Option<&'a str>,
    },
}
