//! Which line of a script comes next.

/// What the next line may be.
#[derive(Clone, Copy)]
pub enum Stage {
    /// `nodes N`.
    Nodes,
    /// `random S`.
    Random,
    /// `until MS`.
    Until,
    /// A setting or an event.
    Settings,
    /// An event.
    Events,
}
