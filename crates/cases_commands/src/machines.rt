//! The descriptions that are given to each case.

/// Texts of descriptions.
#[derive(Drop)]
pub struct Machines {
    /// `v.toml`: two handlers, a buffer, and a function of three kinds.
    pub own: String,
    /// `m.toml`: functions of each kind; one has the name of a shared variable, and one that of a buffer.
    pub mixed: String,
}
